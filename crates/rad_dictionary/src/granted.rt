//! Which attributes an Access-Accept can be given.
ghost use Rattle.std.specs.Prelude.{◌≡◌};
ghost use Rattle.rad_dictionary.specs.Dictionary.{is_among, may_be_granted};

// 0, which is no Type; those that the server writes or copies; and those that other packets have, or whose Value differs in each
// reply.
const KEPT_OUT: &[u8] = &[
    0, 6, 7, 8, 18, 24, 25, 27, 33, 79, 80, 1, 2, 3, 4, 5, 30, 31, 32, 40, 41, 42, 43, 44, 45, 46,
    47, 48, 49, 50, 51, 52, 53, 55, 60, 61, 68, 69, 70, 71, 73, 74, 75, 76, 77, 84, 86, 87, 94, 95,
    101,
];

/// Whether an Access-Accept can be given an attribute of this Type beside those that the server writes.
///
/// Source: RFC 2865, section 5.44, RFC 2866, section 5.13, RFC 2867, section 5, RFC 2869, section 5.19, and RFC 3162, section 3.
pub fn may_be_granted(number: u8) -> bool
    ensures { result ≡ may_be_granted number }
{
    !is_among(KEPT_OUT, number)
}

// Whether a Type is among some.
fn is_among(types: &[u8], number: u8) -> bool
    ensures { result ≡ is_among types.now number }
{
    let mut rest = types;
    while let [one, others @ ..] = rest {
        if *one == number {
            return true;
        }
        rest = others;
    }
    false
}
