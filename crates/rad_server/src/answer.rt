//! What the server does with a request.
ghost use Rattle.std.specs.Prelude.{◌≡◌, ◌↔◌, IfOk, IsTrue};

use rad_packet::Body;
use std::alloc::AllocError;

/// What the server does with a request.
#[derive(Drop)]
pub enum Answer {
    /// It sends a reply with this body.
    Send(Body),
    /// It sends nothing: the table of kept replies is full.
    Busy,
}

impl Answer {
    /// An equal answer.
    pub fn copy(&self) -> Result<Answer, AllocError>
        ensures { IfOk result (λ copy. copy ≡ self.now) }
    {
        match self {
            Answer::Send(body) => Ok(Answer::Send(body.copy()?)),
            Answer::Busy => Ok(Answer::Busy),
        }
    }

    /// Whether the other answer is equal.
    pub fn same(&self, other: &Answer) -> bool
        ensures { IsTrue result ↔ (self.now ≡ other.now) }
    {
        match (self, other) {
            (Answer::Send(body), Answer::Send(other)) => body.same(other),
            (Answer::Busy, Answer::Busy) => true,
            _ => false,
        }
    }
}
