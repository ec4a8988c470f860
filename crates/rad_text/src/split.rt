//! Texts in parts.
ghost use Rattle.std.specs.Prelude.{◌≡◌, ◌==◌, position, option_map};
ghost use Rattle.rad_text.specs.Splits.{split_once};

// Where the first separator is.
fn place(text: &[u8], separator: u8) -> Option<usize>
    ensures { result ≡ position (λ octet. octet == separator) text.now }
{
    text.iter().position(|octet| *octet == separator)
}

/// The text before the first separator, and the text after it.
pub fn split_once(text: &[u8], separator: u8) -> Option<(&[u8], &[u8])>
    ensures { option_map (λ two. (two.0.now, two.1.now)) result ≡ split_once separator text.now }
{
    let end = place(text, separator)?;
    Some((&text[..end], &text[end + 1..]))
}
