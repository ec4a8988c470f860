//! Comparison of octets that looks at all of them.
ghost use Rattle.std.specs.Prelude.{◌≡◌, ◌==◌};
ghost use lib.Pointwise.{pointwise};

/// Whether two slices have the same octets.
///
/// If they are equally long, all octets are compared, so that the time doesn't depend on where they differ. No contract
/// speaks of time.
pub(crate) fn same_octets(octets: &[u8], others: &[u8]) -> bool
    ensures { result ≡ pointwise ◌==◌ octets.now others.now }
{
    if octets.len() != others.len() {
        return false;
    }
    let mut difference = 0;
    'octets: for place in 0..octets.len() {
        difference |= octets[place] ^ others[place];
    }
    difference == 0
}
