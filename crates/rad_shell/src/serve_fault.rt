//! Why serving ends.
ghost use Rattle.std.specs.Prelude.{◌≡◌};
ghost use Rattle.rad_shell.specs.Serving.{serve_fault_number};

use rad_journal::JournalFault;
use thiserror::Error;

/// Why turns ended before the last one. The server is as it was after the last round.
#[derive(Clone, Copy, Debug, PartialEq, Eq, Error)]
pub enum ServeFault {
    /// A port failed while datagrams were received. Those of this turn are dropped, before any draw for them.
    #[error("receive failed")]
    Receive,
    /// A port failed while replies were sent. The round stands: the replies before this one went out, the rest don't.
    #[error("send failed")]
    Send,
    /// The history of a round doesn't agree with what its workers were answered. This never comes.
    #[error("mismatch")]
    Mismatch,
    /// The journal failed to keep a round, none of whose replies is sent; or, between rounds, no generation could begin.
    #[error(transparent)]
    Journal(JournalFault),
}

impl ServeFault {
    /// The number under which it is reported.
    pub fn number(self) -> u8
        ensures { result ≡ serve_fault_number self }
    {
        match self {
            ServeFault::Receive => 1,
            ServeFault::Send => 2,
            ServeFault::Mismatch => 3,
            ServeFault::Journal(_) => 4,
        }
    }
}
