//! What a request changes among sessions and challenges.
ghost use Rattle.std.specs.Prelude.{◌≡◌, ℕ, List, option_copied, option_map};
ghost use Rattle.rad_config.specs.Configurations.{user_place};
ghost use Rattle.rad_pool.specs.Meant.{meant};
ghost use Rattle.rad_pool.specs.declared.session.Session.{Session};
ghost use Rattle.rad_server.specs.Accounting.{account, session_reported};
ghost use Rattle.rad_server.specs.Changes.{CanBeMade, IsReadyFor, after_event, changed_by, session_by, session_in, session_of};
ghost use Rattle.rad_server.specs.Servers.{state_with};
ghost use Rattle.rad_server.specs.States.{State};

use crate::access::NewSession;
use crate::accounting::{ACCOUNTING_OFF, ACCOUNTING_ON, INTERIM_UPDATE, Report, START, STOP};
use crate::tables::Tables;
use rad_auth::Request;
use rad_config::Config;
use rad_pool::Sessions;

/// How an Accounting-Request names the session that it means.
#[derive(Clone, Copy)]
pub(crate) struct Reference {
    /// The number in its Class.
    pub number: Option<u64>,
    /// Its Framed-IP-Address.
    pub address: Option<u32>,
    /// The place of the user of its User-Name, which may be nobody's; None too where the address doesn't decide, so that no name
    /// is looked up.
    pub name: Option<Option<u32>>,
}

/// What an Accounting-Request reports.
#[derive(Clone, Copy)]
pub(crate) enum Event {
    /// A Start or an Interim-Update of the session that is meant.
    Renewal(Reference),
    /// A Stop of it.
    Stop(Reference),
    /// An Accounting-On or an Accounting-Off of the source.
    Reset,
}

/// What a new reply changes among sessions and challenges.
#[derive(Clone, Copy)]
pub(crate) enum Change {
    Nothing,
    /// A challenge for the user at this place.
    Challenge(u32),
    /// A session, as it is granted.
    Grant(NewSession),
    Report(Event),
}

/// What an Accounting-Request changes.
pub(crate) fn reported_change(config: &Config, request: &Request) -> Change
    ensures changed { (state : State) (draw : List ℕ) →
        (account config.now state request.now).1 ≡ changed_by request.now draw result state }
    ensures possible { (state : State) → CanBeMade state result }
    ensures session { (state : State) → session_by request.now result state.sessions
        ≡ session_reported config.now request.now state.sessions }
{
    let report = Report::of(request.packet.attributes());
    let reference = Reference {
        number: report.number,
        address: report.address,
        name: name_asked(config, &report),
    };
    match report.status {
        // An Interim-Update makes up for a Start that was lost.
        Some(START | INTERIM_UPDATE) => Change::Report(Event::Renewal(reference)),
        Some(STOP) => Change::Report(Event::Stop(reference)),
        Some(ACCOUNTING_ON | ACCOUNTING_OFF) => Change::Report(Event::Reset),
        _ => Change::Nothing,
    }
}

// The place of the user whose name was sent, if the session is meant by its address; it may be nobody's.
fn name_asked(config: &Config, report: &Report) -> Option<Option<u32>>
    ensures { (client : ℕ) (sessions : List Session) →
        meant client report.now.number report.now.address result sessions
        ≡ meant client report.now.number report.now.address
        (option_map (user_place config.now.users) (option_copied report.now.user_name)) sessions }
{
    match (report.number, report.address) {
        (None, Some(_)) => named_user(config, report.user_name),
        _ => None,
    }
}

// The place of the user whose name was sent, if one was sent; it may be nobody's.
fn named_user(config: &Config, name: Option<&[u8]>) -> Option<Option<u32>>
    ensures { result ≡ option_map (user_place config.now.users) (option_copied name.entry) }
{
    match name {
        None => None,
        Some(name) => Some(config.user(name)),
    }
}

/// Makes a change, for a request, and gives the number of the session that it names. It was planned, and memory is ready for it.
pub(crate) fn make_change(
    tables: &mut Tables,
    now: u64,
    request: &Request,
    draw: &[u8; 16],
    change: &Change,
) -> Option<u64>
    requires possible { CanBeMade (state_with now tables.old) change.now }
    requires ready { IsReadyFor change.now tables.old }
    ensures changed { state_with now tables.new
        ≡ changed_by request.now draw.now change.now (state_with now tables.old) }
    ensures replies { tables.new.replies ≡ tables.old.replies }
    ensures session { result
        ≡ session_by request.now change.now (state_with now tables.old).sessions }
{
    let Tables {
        sessions,
        challenges,
        ..
    } = tables;
    let (client, source) = (request.client, request.source);
    match change {
        Change::Nothing => None,
        Change::Challenge(user) => {
            challenges.add(client, *user, draw, now);
            None
        }
        Change::Grant(session) => {
            sessions.add(client, source, session.user, session.grant, now);
            None
        }
        Change::Report(event) => record(sessions, now, request, event),
    }
}

// Records an event that a request reports, and gives the number of the session that it names.
fn record(sessions: &mut Sessions, now: u64, request: &Request, event: &Event) -> Option<u64>
    ensures recorded { sessions.new.table
        ≡ after_event request.now now event.now sessions.old.table }
    ensures session { result ≡ session_in request.now event.now sessions.old.table }
{
    match event {
        Event::Renewal(reference) => {
            let number = find(sessions, request.client, reference)?;
            sessions.renew(number, now);
            Some(number)
        }
        Event::Stop(reference) => {
            let number = find(sessions, request.client, reference)?;
            sessions.stop(number);
            Some(number)
        }
        Event::Reset => {
            sessions.end_source(request.source);
            None
        }
    }
}

// The number of the session that a client means.
fn find(sessions: &Sessions, client: u32, reference: &Reference) -> Option<u64>
    ensures { result ≡ session_of client reference.now sessions.now.table }
{
    sessions.find(client, reference.number, reference.address, reference.name)
}
