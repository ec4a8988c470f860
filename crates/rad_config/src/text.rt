//! Texts of a configuration.
ghost use Rattle.std.specs.Prelude.{◌≡◌, ◌↔◌, IfOk, IsTrue};

use std::alloc::{AllocError, Global};
use std::marker::Model;

/// The octets of a text, as they are sent and compared. Contracts see them as a list.
#[derive(Drop)]
pub struct Text {
    octets: Vec<u8>,
}

impl Model for Text {
    ghost use Rattle.std.specs.Prelude.{ℕ, List};

    ghost Value = { List ℕ };

    ghost view = { λ text. text.octets.items };
}

impl Text {
    /// The text of these octets.
    pub fn new(octets: Vec<u8>) -> Text
        ensures { result ≡ octets.items }
    {
        Self { octets }
    }

    /// The text of a copy of these octets.
    pub fn copy_of(alloc: Global, octets: &[u8]) -> Result<Text, AllocError>
        ensures { IfOk result (λ text. text ≡ octets.now) }
    {
        Ok(Text::new(Vec::from_slice(alloc, octets)?))
    }

    /// The octets.
    pub fn octets(&self) -> &[u8]
        ensures { result.now ≡ self.now }
    {
        &self.octets
    }

    /// Whether the other text has the same octets.
    pub fn same(&self, other: &Text) -> bool
        ensures { IsTrue result ↔ (self.now ≡ other.now) }
    {
        self.octets == other.octets
    }
}
