//! Servers that are restored from a journal, and journals that were altered.
use super::disks::{File, failing};
use super::holds;
use super::stores::opened;
use rad_auth::{Arrival, Door};
use rad_config::Config;
use rad_journal::{Journal, JournalFault, Kept, Reopen, RestoreFault, keep, restore};
use rad_packet::Octets;
use rad_server::{Entry, Server};
use std::alloc::{AllocError, Global};
use std::test::Fail;
use test_common::{CAMPUS, CLIENT, DRAW, PORT, RFC_REQUEST, STATUS_SERVER, STRANGER, admit};

/// nemo's address: 10.0.0.1.
const ADDRESS: u32 = 0x0A00_0001;

// The entry of a request at a moment, if the request is admitted.
fn ask(
    alloc: Global,
    server: &mut Server,
    octets: &[u8],
    moment: u32,
) -> Result<Option<Entry>, AllocError> {
    let arrival = Arrival {
        source: CLIENT,
        port: PORT,
        door: Door::Auth,
        octets,
    };
    let Some(request) = admit(server.config().clients(), arrival) else {
        return Ok(None);
    };
    let moment = u64::from(moment);
    let (answer, session) = server.step_naming(&request, moment, DRAW)?;
    Ok(Some(Entry {
        tag: 1,
        client: request.client,
        source: request.source,
        port: request.port,
        door: request.door,
        octets: Octets::of(alloc, octets)?,
        moment,
        draw: *DRAW,
        answer,
        session,
    }))
}

// ---- turns

// A login, its repeat, a Status-Server, and a login of another Identifier at an earlier moment, unless one isn't admitted.
fn turn(alloc: Global, server: &mut Server) -> Result<Vec<Entry>, AllocError> {
    let mut again = *RFC_REQUEST;
    again[1] = 1;
    let requests: [(&[u8], u32); 4] = [
        (RFC_REQUEST, 5000),
        (RFC_REQUEST, 6000),
        (STATUS_SERVER, 7000),
        (&again, 4000),
    ];
    let mut history = Vec::new(alloc);
    for (octets, moment) in requests {
        if let Some(entry) = ask(alloc, server, octets, moment)? {
            history.push(entry)?;
        }
    }
    Ok(history)
}

// What is kept of the turn: nothing unless all of it is admitted.
fn kept_of_turn(alloc: Global, server: &mut Server) -> Result<Vec<Kept>, AllocError> {
    let history = turn(alloc, server)?;
    if history.len() != 4 {
        return Ok(Vec::new(alloc));
    }
    keep(alloc, 8, 0, &history, &[true, false, false, true])
}

// Whether these are the logins of the turn, the second one at the moment of the Status-Server.
fn are_logins(kept: &[Kept]) -> bool {
    match kept {
        [first, second] => {
            first.moment == 5000
                && second.moment == 7000
                && first.octets.octets() == RFC_REQUEST.as_slice()
                && second.octets.octets() != RFC_REQUEST.as_slice()
        }
        _ => false,
    }
}

// Whether two servers answer nemo's login alike.
fn answer_alike(
    alloc: Global,
    server: &mut Server,
    other: &mut Server,
) -> Result<bool, AllocError> {
    let entry = ask(alloc, server, RFC_REQUEST, 8000)?;
    let other = ask(alloc, other, RFC_REQUEST, 8000)?;
    Ok(match (&entry, &other) {
        (Some(entry), Some(other)) => entry.same(other),
        _ => false,
    })
}

fn has_address(server: &Server) -> bool {
    match server.sessions().rows().next() {
        Some(session) => session.address == Some(ADDRESS),
        None => false,
    }
}

// The server that a journal leads to.
fn restored<'c, J: Journal>(
    alloc: Global,
    journal: &mut J,
    config: &'c Config,
) -> Result<Server<'c>, RestoreFault> {
    let mut server = Server::open(alloc, config)?;
    restore(alloc, journal, &mut server)?;
    Ok(server)
}

// Whether a journal leads to an equal server, with nemo's session, which answers alike.
fn leads_to<J: Journal>(
    alloc: Global,
    journal: &mut J,
    server: &mut Server,
) -> Result<bool, RestoreFault> {
    let mut restored = restored(alloc, journal, server.config())?;
    Ok(
        restored.same(server)
            && has_address(&restored)
            && answer_alike(alloc, server, &mut restored)?,
    )
}

// Whether what is kept of the turn are its logins, and leads to the same server.
fn keeps_the_turn<J: Journal + Drop>(
    alloc: Global,
    journal: J,
    server: &mut Server,
) -> Result<bool, RestoreFault> {
    let mut journal = journal;
    let kept = kept_of_turn(alloc, server)?;
    journal.commit(&kept)?;
    Ok(are_logins(&kept) && leads_to(alloc, &mut journal, server)?)
}

#[test]
fn what_is_fresh_of_a_turn_is_restored(rt: HostRuntime) -> Result<(), Fail> {
    let config = Config::read(rt.alloc(), CAMPUS)?;
    let is_right = is_restored(rt.alloc(), &config);
    holds(&rt, is_right == Ok(true), "two logins, and the same server");
    Ok(())
}

fn is_restored(alloc: Global, config: &Config) -> Result<bool, RestoreFault> {
    let mut server = Server::open(alloc, config)?;
    keeps_the_turn(alloc, opened(alloc)?, &mut server)
}

// ---- crashes

// Whether a server answers the repeat of a kept request with the kept reply.
fn repeats(alloc: Global, server: &mut Server, kept: &Kept) -> Result<bool, AllocError> {
    let Some(entry) = ask(alloc, server, kept.octets.octets(), 9000)? else {
        return Ok(false);
    };
    let again = Kept::of(alloc, 0, 0, &entry)?;
    Ok(again.is_some_and(|again| again.answer.octets() == kept.answer.octets()))
}

// Whether it does so with each of some requests.
fn repeats_each(alloc: Global, server: &mut Server, kept: &[Kept]) -> Result<bool, AllocError> {
    for one in kept {
        if !repeats(alloc, server, one)? {
            return Ok(false);
        }
    }
    Ok(true)
}

// What is kept of the turn of a server.
fn kept_logins(alloc: Global, config: &Config) -> Result<Vec<Kept>, AllocError> {
    let mut server = Server::open(alloc, config)?;
    kept_of_turn(alloc, &mut server)
}

// Whether a server that is restored after a crash repeats the replies to the logins of the turn.
fn repeats_after_a_crash<J: Reopen + Drop>(
    alloc: Global,
    journal: J,
    config: &Config,
) -> Result<bool, RestoreFault> {
    let mut journal = journal;
    let kept = kept_logins(alloc, config)?;
    journal.commit(&kept)?;
    journal.crash_and_reopen(alloc)?;
    let mut restored = restored(alloc, &mut journal, config)?;
    Ok(are_logins(&kept) && repeats_each(alloc, &mut restored, &kept)?)
}

// The same over files.
fn repeats_from_files(alloc: Global, config: &Config) -> Result<bool, RestoreFault> {
    match failing(alloc, File::Log, u64::MAX) {
        Ok(journal) => repeats_after_a_crash(alloc, journal, config),
        Err(fault) => Err(RestoreFault::Journal(fault)),
    }
}

#[test]
fn a_kept_reply_is_repeated_after_a_crash(rt: HostRuntime) -> Result<(), Fail> {
    let alloc = rt.alloc();
    let config = Config::read(alloc, CAMPUS)?;
    let is_right = repeats_from_files(alloc, &config) == Ok(true);
    holds(&rt, is_right, "the replies to two logins");
    Ok(())
}

// ---- altered journals

/// What is altered in the entry of a login.
#[derive(Clone, Copy)]
enum Altered {
    Nothing,
    Answer,
    Source,
    Moment,
}

/// What is altered, and what restoring a server from it reports.
type Case = (Altered, Result<(), RestoreFault>, &'static str);

// Logs nemo in, if the request is admitted. Returns what is kept of it.
fn log_in(alloc: Global, server: &mut Server) -> Result<Option<Kept>, AllocError> {
    let Some(entry) = ask(alloc, server, RFC_REQUEST, 5000)? else {
        return Ok(None);
    };
    Kept::of(alloc, 1_700_000_000_000, 0, &entry)
}

fn alter(alloc: Global, altered: Altered, kept: &mut Kept) -> Result<(), AllocError> {
    match altered {
        Altered::Nothing => {}
        Altered::Answer => kept.answer = Octets::of(alloc, &[3])?,
        Altered::Source => kept.source = STRANGER,
        Altered::Moment => kept.moment = (1 << 62) + 1,
    }
    Ok(())
}

// Restores a server from a journal with an entry.
fn restoring<J: Journal + Drop>(
    alloc: Global,
    journal: J,
    config: &Config,
    kept: Kept,
) -> Result<(), RestoreFault> {
    let mut journal = journal;
    journal.commit(&[kept])?;
    let _server = restored(alloc, &mut journal, config)?;
    Ok(())
}

// The same from a journal with the entry of a login, in which this is altered.
fn restoring_altered(alloc: Global, config: &Config, altered: Altered) -> Result<(), RestoreFault> {
    let mut server = Server::open(alloc, config)?;
    let Some(mut kept) = log_in(alloc, &mut server)? else {
        return Err(RestoreFault::Journal(JournalFault::Disk));
    };
    alter(alloc, altered, &mut kept)?;
    restoring(alloc, opened(alloc)?, config, kept)
}

#[test]
fn an_altered_journal_is_refused(rt: HostRuntime) -> Result<(), Fail> {
    const ROWS: &[Case] = &[
        (Altered::Nothing, Ok(()), "nothing is altered"),
        (
            Altered::Answer,
            Err(RestoreFault::OtherAnswer { entry: 0 }),
            "another answer",
        ),
        (
            Altered::Source,
            Err(RestoreFault::NotAdmitted { entry: 0 }),
            "another source",
        ),
        (
            Altered::Moment,
            Err(RestoreFault::TooLate { entry: 0 }),
            "a moment past the last",
        ),
    ];
    let alloc = rt.alloc();
    let config = Config::read(alloc, CAMPUS)?;
    for row in ROWS.iter() {
        holds(
            &rt,
            restoring_altered(alloc, &config, row.0) == row.1,
            row.2,
        );
    }
    Ok(())
}
