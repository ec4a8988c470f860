//! The lines of a file of users, and the head of a configuration that may name it.
ghost use Rattle.std.specs.Prelude.{◌≡◌, ◌==◌, option_copied};
ghost use Rattle.rad_check.specs.UsersLines.{after_header, after_word, begins_with_bracket, begins_with_entry, ends_line};
ghost use Rattle.rad_check.specs.UsersLines.{first_stray_line, goes_on, head_of, is_blank, is_entry, is_header, is_other_header};
ghost use Rattle.rad_check.specs.UsersLines.{is_skipped, lines_of, stray_place, unindented};

use rad_config_fault::Part;

/// What comes before the first line that begins with `[`, but for blanks: only there a TOML document has its keys at the top. It
/// may end in the blanks of that line.
pub fn head_of(text: &[u8]) -> &[u8]
    ensures { result.now ≡ head_of text.now }
{
    let mut starts = true;
    for (place, octet) in text.iter().enumerate() {
        if starts && *octet == b'[' {
            return &text[..place];
        }
        starts = goes_on(starts, *octet);
    }
    text
}

// Whether only blanks come before the next octet on its line.
fn goes_on(starts: bool, octet: u8) -> bool
    ensures { result ≡ goes_on starts octet }
{
    ends_line(octet) || (starts && is_blank(octet))
}

/// The first line, from 1, that may not stand in a file of users.
///
/// Each line that begins with `[`, but for blanks, must be `[[user]]` or `[[group]]`, and the first one that is neither empty nor a
/// comment such a header. So what such a text adds to another one that is a document are entries of these lists. An array that is
/// spread over lines, or a text with lines of its own, may be refused too.
pub fn first_stray_line(text: &[u8]) -> Option<usize>
    ensures { result ≡ first_stray_line text.now }
{
    let place = stray_place(text)?;
    Some(place + 1)
}

fn stray_place(text: &[u8]) -> Option<usize>
    ensures { result ≡ stray_place (lines_of text.now) }
{
    if begins_with_entry(text) {
        text.split(|octet| *octet == b'\n')
            .position(|line| is_other_header(line))
    } else {
        text.split(|octet| *octet == b'\n')
            .position(|line| !is_skipped(line))
    }
}

// Whether the first line that isn't skipped is the header of an entry, if there is one.
fn begins_with_entry(text: &[u8]) -> bool
    ensures { result ≡ begins_with_entry (lines_of text.now) }
{
    let first = text
        .split(|octet| *octet == b'\n')
        .find(|line| !is_skipped(line));
    match first {
        Some(line) => is_entry(line),
        None => true,
    }
}

fn ends_line(octet: u8) -> bool
    ensures { result ≡ ends_line octet }
{
    octet == b'\n'
}

// Whether an octet is a blank: one that may precede a word, or a line feed.
fn is_blank(octet: u8) -> bool
    ensures { result ≡ is_blank octet }
{
    octet == b' ' || octet == b'\t' || octet == b'\r'
}

// A line without the blanks at its front.
fn unindented(line: &[u8]) -> &[u8]
    ensures { result.now ≡ unindented line.now }
{
    let mut rest = line;
    while let Some((octet, after)) = rest.split_first() {
        if !is_blank(*octet) {
            return rest;
        }
        rest = after;
    }
    rest
}

// What comes after a word, which blanks may precede.
fn after_word<'a>(word: &[u8], line: &'a [u8]) -> Option<&'a [u8]>
    ensures { option_copied result ≡ after_word word.now line.now }
{
    unindented(line).strip_prefix(word)
}

// Whether a line is empty or a comment.
fn is_skipped(line: &[u8]) -> bool
    ensures { result ≡ is_skipped line.now }
{
    matches!(unindented(line), [] | [b'#', ..])
}

// What comes after a part's `[[..]]`.
fn after_header(part: Part, line: &[u8]) -> Option<&[u8]>
    ensures { option_copied result ≡ after_header part line.now }
{
    let name = after_word(b"[[", line)?;
    let end = after_word(part.name().as_bytes(), name)?;
    after_word(b"]]", end)
}

// Whether a line is the header of an entry of a part.
fn is_header(part: Part, line: &[u8]) -> bool
    ensures { result ≡ is_header part line.now }
{
    match after_header(part, line) {
        Some(rest) => is_skipped(rest),
        None => false,
    }
}

// Whether a line is the header of an entry that a file of users may have.
fn is_entry(line: &[u8]) -> bool
    ensures { result ≡ is_entry line.now }
{
    is_header(Part::User, line) || is_header(Part::Group, line)
}

// Whether a line begins with `[`, but is no such header.
fn is_other_header(line: &[u8]) -> bool
    ensures { result ≡ is_other_header line.now }
{
    begins_with_bracket(line) && !is_entry(line)
}

fn begins_with_bracket(line: &[u8]) -> bool
    ensures { result ≡ begins_with_bracket line.now }
{
    unindented(line).starts_with(b"[")
}

/// The line, from 1, at which the entry of a part with this index, from 1, begins.
pub fn entry_line(text: &[u8], part: Part, index: usize) -> Option<usize> {
    let mut found: usize = 0;
    for (place, line) in text.split(|octet| *octet == b'\n').enumerate() {
        if is_header(part, line) {
            found = found.saturating_add(1);
        }
        if found == index {
            return Some(place + 1);
        }
    }
    None
}
