//! Messages in pieces.
ghost use Rattle.std.specs.Prelude.{◌≡◌, ◌+◌, ◌<◌, ◌∷◌, ◌++◌, length, take};
ghost use Rattle.rad_md5.specs.Pieces.{HasFreePiece, message, message_limit, pieces_of};

use std::marker::Model;

/// A message in five pieces, which are never joined in memory. Contracts see the list of its pieces.
#[derive(Drop)]
pub struct Pieces<'a> {
    slices: [&'a [u8]; 5],
}

impl<'a> Model for Pieces<'a> {
    ghost use Rattle.std.specs.Prelude.{ℕ, List, length, ◌<◌};
    ghost use Rattle.rad_md5.specs.Pieces.{message, message_limit, pieces_of};

    ghost Value = { List (List ℕ) };

    ghost view = { λ p. pieces_of p.slices };

    ghost invariant = { λ p. length (message (pieces_of p.slices)) < message_limit };
}

impl<'a> Pieces<'a> {
    /// The message of these slices, one after the other.
    pub fn of(slices: [&'a [u8]; 5]) -> Pieces<'a>
        requires { length (message (pieces_of slices)) < message_limit }
        ensures { result ≡ pieces_of slices.entry }
    {
        Pieces { slices }
    }

    /// These octets, and the message after them.
    ///
    /// Its fifth slice must be empty, to make room for them.
    pub fn after(&self, front: &'a [u8]) -> Pieces<'a>
        requires free { HasFreePiece self.now }
        requires short { length front.now + length (message self.now) < message_limit }
        ensures pieces { result ≡ front.now ∷ take 4 self.now }
        ensures message { message result ≡ front.now ++ message self.now }
    {
        let [a, b, c, d, _] = &self.slices;
        Pieces {
            slices: [front, a, b, c, d],
        }
    }

    /// How many octets the message has.
    pub(crate) fn len(&self) -> usize
        ensures value { result ≡ length (message self.now) }
        ensures bound { result < message_limit }
    {
        let [a, b, c, d, e] = &self.slices;
        a.len() + b.len() + c.len() + d.len() + e.len()
    }

    /// The slices.
    pub(crate) fn slices(&self) -> &[&'a [u8]; 5]
        ensures value { pieces_of result.now ≡ self.now }
        ensures five { length result.now ≡ 5 }
    {
        &self.slices
    }
}
