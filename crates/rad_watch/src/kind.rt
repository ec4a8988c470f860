//! Kinds of events, and which of them a log tells.
ghost use Rattle.std.specs.Prelude.{◌≡◌};
ghost use Rattle.rad_watch.specs.Events.{is_report};
ghost use Rattle.rad_watch.specs.Kinds.{kind_name};

/// What a log tells.
#[derive(Clone, Copy, Debug, PartialEq, Eq)]
pub enum Level {
    /// What was discarded, refused or lost.
    Refused,
    /// That, and what was granted and reported.
    All,
}

/// What an event is.
#[derive(Clone, Copy, Debug, PartialEq, Eq)]
pub(crate) enum Kind {
    /// A datagram was silently discarded.
    Discard,
    /// A request got no reply, since no more replies can be kept.
    Busy,
    /// A request got no reply, since memory was refused.
    NoMemory,
    /// A turn was lost, since memory was refused.
    Lost,
    /// Calls on sockets failed.
    Failure,
    Reject,
    Accept,
    Challenge,
    Start,
    Stop,
    Interim,
    On,
    Off,
    /// An Accounting-Request with another Acct-Status-Type was answered.
    Accounting,
    /// A Status-Server was answered.
    Status,
    /// A session ended of which nothing was heard.
    Expire,
    /// Lines of a second were left out, those of the kind that the reason names.
    LeftOut,
}

/// All kinds.
pub(crate) const KINDS: &[Kind] = &[
    Kind::Discard,
    Kind::Busy,
    Kind::NoMemory,
    Kind::Lost,
    Kind::Failure,
    Kind::Reject,
    Kind::Accept,
    Kind::Challenge,
    Kind::Start,
    Kind::Stop,
    Kind::Interim,
    Kind::On,
    Kind::Off,
    Kind::Accounting,
    Kind::Status,
    Kind::Expire,
    Kind::LeftOut,
];

impl Kind {
    /// The name by which lines call it.
    pub fn name(self) -> &'static str
        ensures { result.now ≡ kind_name self }
    {
        match self {
            Kind::Discard => "discard",
            Kind::Busy => "busy",
            Kind::NoMemory => "nomemory",
            Kind::Lost => "lost",
            Kind::Failure => "failure",
            Kind::Reject => "reject",
            Kind::Accept => "accept",
            Kind::Challenge => "challenge",
            Kind::Start => "start",
            Kind::Stop => "stop",
            Kind::Interim => "interim",
            Kind::On => "on",
            Kind::Off => "off",
            Kind::Accounting => "accounting",
            Kind::Status => "status",
            Kind::Expire => "expire",
            Kind::LeftOut => "left_out",
        }
    }

    /// Whether it reports of one session.
    pub fn is_report(self) -> bool
        ensures { result ≡ is_report self }
    {
        matches!(self, Kind::Start | Kind::Interim | Kind::Stop)
    }

    /// Whether a log of this level tells it.
    pub fn is_told_at(self, level: Level) -> bool {
        match self {
            Kind::Discard
            | Kind::Busy
            | Kind::NoMemory
            | Kind::Lost
            | Kind::Failure
            | Kind::LeftOut
            | Kind::Reject => true,
            _ => level == Level::All,
        }
    }
}
