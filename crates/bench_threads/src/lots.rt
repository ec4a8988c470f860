//! What a line of the table of rounds measures.
ghost use Rattle.std.specs.Prelude.{◌≤◌};
ghost use Rattle.rad_config.specs.Spans.{moment_max};

use rad_config::MOMENT_MAX;

/// The most datagrams of a round.
pub(crate) const ROUND_MAX: u16 = 512;

/// Of so many log-ins one has a wrong password.
pub(crate) const REFUSED_EACH: u64 = 8;

// The milliseconds for which a reply is kept, and for which a session lives that no Start follows.
const WINDOW: u64 = 512_000;

/// How full the tables are.
#[derive(Clone, Copy)]
pub(crate) enum Size {
    /// 16 sessions, and the last 16 replies, or those of the last round if they are more.
    Small,
    /// 65,536 sessions, and the last 65,536 replies.
    Full,
}

impl Size {
    /// How many sessions there are, and how many requests come while a reply is kept.
    pub fn rows(self) -> u64 {
        match self {
            Size::Small => 16,
            Size::Full => 65_536,
        }
    }

    /// The moment of a round whose first request has this place among all requests. What came `rows` places before is no longer
    /// live then, so a round finds room for as many rows as it has requests.
    pub fn moment(self, place: u64) -> u64
        ensures { result ≤ moment_max }
    {
        (WINDOW.saturating_mul(place) / self.rows().max(1)).min(MOMENT_MAX)
    }
}

/// What is asked.
#[derive(Clone, Copy)]
pub(crate) enum Load {
    /// Starts of Active sessions, here and there in the table.
    Accounting,
    /// Log-ins by PAP, of which one in eight has a wrong password.
    Access,
}

impl Load {
    pub fn name(self) -> &'static str {
        match self {
            Load::Accounting => "Accounting-Request",
            Load::Access => "Access-Request",
        }
    }
}

/// Rounds of so many datagrams, from 1 to `ROUND_MAX`.
#[derive(Clone, Copy)]
pub(crate) struct Lot {
    pub size: Size,
    pub load: Load,
    pub count: u16,
}

impl Lot {
    /// How many rounds have `ROUND_MAX` datagrams.
    pub fn rounds(self) -> u16 {
        ROUND_MAX / self.count.max(1)
    }

    /// How many sessions are Active. Where log-ins are measured, the others are those of the last `rows` log-ins: no Start follows
    /// them. The users have a pool, and on full tables a log-in is granted the place, and the address, of a session that is no
    /// longer live.
    pub fn active(self) -> u64 {
        let rows = self.size.rows();
        match self.load {
            Load::Accounting => rows,
            Load::Access => rows / REFUSED_EACH,
        }
    }
}
