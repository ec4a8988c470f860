//! Which of the two sockets is asked for the next datagram of a turn.
ghost use Rattle.std.specs.Prelude.{◌≡◌};
ghost use Rattle.rad_serve.specs.Asking.{GivesHalves, asking_order, at_first, at_turn, may_be_left, may_have, with_mark, with_one};

use rad_auth::Door;
use rad_shell::ARRIVALS_MAX;

/// Half of a turn's datagrams.
const HALF_TURN: usize = ARRIVALS_MAX / 2;

/// What the two sockets gave since the last wait, and which of them may have a datagram.
///
/// Choice: docs/DECISIONS.md, "Neither port keeps the other one waiting".
#[derive(Clone, Copy, Debug, PartialEq, Eq)]
pub(crate) struct Asking {
    // How many more datagrams the authentication socket gives before the accounting socket is asked first.
    auth_left: usize,
    // Whether a socket may have a datagram. The system tells of a datagram once, so only a call that would block clears the mark:
    // with another rule a datagram that is left over would wait for the next one.
    auth_may: bool,
    acct_may: bool,
    // Whether a datagram was received. If none was, although a mark stands, a receive is refused again and again.
    has_received: bool,
}

impl Asking {
    /// Before the first wait, when each socket may have a datagram.
    pub fn new() -> Asking
        ensures { result ≡ at_first }
    {
        Asking {
            auth_left: HALF_TURN,
            auth_may: true,
            acct_may: true,
            has_received: false,
        }
    }

    /// The socket to be asked next, and that to be asked if it has nothing.
    pub fn order(&self) -> [Door; 2]
        ensures { result ≡ asking_order self.now }
    {
        if self.auth_left > 0 {
            [Door::Auth, Door::Acct]
        } else {
            [Door::Acct, Door::Auth]
        }
    }

    /// Counts a datagram of a socket.
    pub fn count(&mut self, door: Door)
        ensures { self.new ≡ with_one door self.old }
    {
        self.has_received = true;
        if door == Door::Auth {
            self.auth_left = self.auth_left.saturating_sub(1);
        }
    }

    /// Whether a socket may have a datagram.
    pub fn may_have(&self, door: Door) -> bool
        ensures { result ≡ may_have door self.now }
    {
        match door {
            Door::Auth => self.auth_may,
            Door::Acct => self.acct_may,
        }
    }

    /// Notes whether a socket may have a datagram.
    pub fn mark(&mut self, door: Door, may: bool)
        ensures { self.new ≡ with_mark door may self.old }
    {
        match door {
            Door::Auth => self.auth_may = may,
            Door::Acct => self.acct_may = may,
        }
    }

    /// Whether a datagram may be left that can be received.
    pub fn may_be_left(&self) -> bool
        ensures { result ≡ may_be_left self.now }
    {
        self.has_received && (self.auth_may || self.acct_may)
    }

    /// Begins a turn.
    #[tactic(auto, using(crate::proofs::AskingLemmas::gives_halves))]
    pub fn begin(&mut self)
        ensures begun { self.new ≡ at_turn self.old }
        ensures shared { GivesHalves self.new }
    {
        self.auth_left = HALF_TURN;
        self.has_received = false;
    }
}
