//! Octets that others chose, as texts show them.
ghost use Rattle.std.specs.Prelude.{◌≡◌, ◌++◌, ◌<◌, All, OnOk};
ghost use Rattle.rad_watch.specs.Shown.{IsPlain, digit, is_plain, shown, shown_octet};

use std::alloc::AllocError;

/// Appends octets that others chose: an octet from `!` to `~` and a space as itself, but a quote, a backslash and any other octet
/// as `\x` and two hexadecimal digits.
#[tactic(auto, using(crate::proofs::ShownLemmas::shown_is_plain))]
pub(crate) fn push_shown(text: &mut Vec<u8>, octets: &[u8]) -> Result<(), AllocError>
    ensures shown { OnOk result (text.new.items ≡ text.old.items ++ shown octets.now) }
    // What is shown is printable, and has no quote.
    ensures plain { All IsPlain (shown octets.now) }
{
    push_each(text, octets)
}

#[tactic(auto, using(crate::proofs::ShownLemmas::shown_one_more))]
fn push_each(text: &mut Vec<u8>, octets: &[u8]) -> Result<(), AllocError>
    ensures { OnOk result (text.new.items ≡ text.old.items ++ shown octets.now) }
{
    for i in 0..octets.len() {
        push_octet(text, octets[i])?;
    }
    Ok(())
}

fn push_octet(text: &mut Vec<u8>, octet: u8) -> Result<(), AllocError>
    ensures { OnOk result (text.new.items ≡ text.old.items ++ shown_octet octet) }
{
    if is_plain(octet) {
        text.push(octet)?;
        return Ok(());
    }
    text.extend_from_slice(&[b'\\', b'x', digit(octet / 16), digit(octet % 16)])
}

// A hexadecimal digit, in lower case.
fn digit(value: u8) -> u8
    requires { value < 16 }
    ensures { result ≡ digit value }
{
    if value < 10 {
        b'0' + value
    } else {
        b'a' - 10 + value
    }
}

fn is_plain(octet: u8) -> bool
    ensures { result ≡ is_plain octet }
{
    octet >= b' ' && octet <= b'~' && octet != b'"' && octet != b'\\'
}

/// Appends octets that others chose as the value of a label of Prometheus' text format, where a backslash is written twice.
pub(crate) fn push_label(text: &mut Vec<u8>, octets: &[u8]) -> Result<(), AllocError> {
    let mut shown = Vec::new(*text.allocator());
    push_shown(&mut shown, octets)?;
    for octet in shown.iter() {
        if *octet == b'\\' {
            text.push(b'\\')?;
        }
        text.push(*octet)?;
    }
    Ok(())
}
