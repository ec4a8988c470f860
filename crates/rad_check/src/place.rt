//! Places in a text.
ghost use Rattle.std.specs.Prelude.{◌≡◌};
ghost use Rattle.rad_check.specs.Details.{line_after};

/// The line, from 1, of what comes after these octets.
pub fn line_after(before: &[u8]) -> usize
    ensures { result ≡ line_after before.now }
{
    before.iter().filter(|octet| **octet == b'\n').count() + 1
}

/// The column, from 1 and in characters, of what comes after these octets.
pub fn column_after(before: &[u8]) -> usize {
    let line = match before.iter().rposition(|octet| *octet == b'\n') {
        Some(end) => &before[end + 1..],
        None => before,
    };
    line.iter().filter(|octet| **octet & 0xC0 != 0x80).count() + 1
}
