//! The lines of a transcript: a configuration, a line `---`, and a line for each datagram.
ghost use Rattle.std.specs.Prelude.{◌≡◌, ℕ, List, [], None, MatchOption};
ghost use Rattle.std.specs.Iterator.{YieldsFirstRef, item_count};
ghost use Rattle.rad_text.specs.Lines.{IsFirstLine, Divides, lines_of, without_return, is_divider, divided, is_skipped};
ghost use Rattle.rad_text.specs.Lines.{datagram_lines};

use crate::split::split_once;
use std::marker::Model;

// The first line of a text, without its line feed, and the text after it.
fn next_line(text: &[u8]) -> Option<(&[u8], &[u8])>
    ensures { MatchOption result (text.now ≡ [])
        (λ parts. IsFirstLine text.now parts.0.now parts.1.now) }
{
    if text.is_empty() {
        return None;
    }
    split_once(text, b'\n').or(Some((text, &[])))
}

// A line without the carriage return at its end.
fn without_return(line: &[u8]) -> &[u8]
    ensures { result.now ≡ without_return line.now }
{
    line.strip_suffix(b"\r").unwrap_or(line)
}

// Whether a line parts the configuration from the datagrams.
fn is_divider(line: &[u8]) -> bool
    ensures { result ≡ is_divider line.now }
{
    without_return(line) == b"---".as_slice()
}

// Whether a line is empty or a comment.
fn is_skipped(line: &[u8]) -> bool
    ensures { result ≡ is_skipped line.now }
{
    matches!(line, [] | [b'#', ..])
}

/// The text before the first divider line, and the text after that line; none without such a line.
pub fn divide(text: &[u8]) -> Option<(&[u8], &[u8])>
    ensures { MatchOption result (divided (lines_of text.now) ≡ None)
        (λ parts. Divides text.now parts.0.now parts.1.now) }
{
    let mut rest = text;
    while let Some((line, after)) = next_line(rest) {
        if is_divider(line) {
            return Some((&text[..text.len() - rest.len()], after));
        }
        rest = after;
    }
    None
}

/// The datagram lines of a text, without the carriage returns at their ends.
#[derive(Drop)]
pub struct DatagramLines<'a> {
    rest: &'a [u8],
}

impl<'a> Model for DatagramLines<'a> {
    ghost Value = { List (List ℕ) };

    ghost view = { λ lines. datagram_lines (lines_of lines.rest.now) };
}

impl<'a> DatagramLines<'a> {
    /// Those of this text.
    pub fn new(text: &'a [u8]) -> Self
        ensures { result ≡ datagram_lines (lines_of text.now) }
    {
        DatagramLines { rest: text }
    }
}

impl<'a> Iterator for DatagramLines<'a> {
    type Item = &'a [u8];

    ghost next_gives = { YieldsFirstRef (λ lines. lines) };

    ghost remaining = { item_count (λ lines. lines) };

    fn next(&mut self) -> Option<&'a [u8]> {
        while let Some((line, rest)) = next_line(self.rest) {
            self.rest = rest;
            let line = without_return(line);
            if !is_skipped(line) {
                return Some(line);
            }
        }
        None
    }
}
