//! Single calls on tables of sessions, kept replies and challenges: `bench/tables.c`.
//!
//! The export fills the tables and takes turns on them. In a turn one call is timed, made so many times; then as many rows go and
//! come as are missing, so that the tables are as full as before.
ghost use Rattle.std.specs.Prelude.{◌≤◌, ◌<◌, IfSome, length};
ghost use Rattle.rad_config.specs.Spans.{moment_max};

use crate::clock;
use rad_auth::Door;
use rad_config::{Config, MOMENT_MAX};
use rad_packet::{Body, code};
use rad_pool::Sessions;
use rad_recent::{Challenges, Key, Recent, state_value};
use std::alloc::Global;
use std::str;

// From one row that is looked up to the next: odd, so that each of the rows is met, if their number is a power of two.
const STRIDE: u64 = 40_503;

// The source of all requests.
const SOURCE: u32 = 0xC0A8_0110;

// The first address of the pool, and one of no pool.
const FIRST_ADDRESS: u32 = 0x0A00_0000;

const OTHER_ADDRESS: u32 = 0xC000_0201;

const DRAW: [u8; 16] = [0; 16];

// The octets of a request.
const OCTETS: [u8; 44] = [0; 44];

/// What is timed.
#[derive(Clone, Copy, PartialEq, Eq)]
enum Call {
    Grant,
    Start,
    Stop,
    /// Find a session by its number.
    Find,
    /// Find one by its address.
    FindAddress,
    /// Find none by an address of no pool.
    FindOther,
    /// What a grant would answer.
    Peek,
    Look,
    Keep,
    Issue,
    Take,
}

impl Call {
    fn of(call: u32) -> Call {
        match call {
            0 => Call::Grant,
            1 => Call::Start,
            2 => Call::Stop,
            3 => Call::Find,
            4 => Call::FindAddress,
            5 => Call::FindOther,
            6 => Call::Peek,
            7 => Call::Look,
            8 => Call::Keep,
            9 => Call::Issue,
            _ => Call::Take,
        }
    }
}

/// How full the tables are.
#[repr(C)]
#[derive(Clone, Copy)]
pub struct Size {
    /// How many sessions there are, and how many kept replies: a power of two.
    pub rows: u64,
    /// How many challenges there are.
    pub challenges: u64,
    /// The milliseconds that a row lives. In so many all rows come, the same time apart but for less
    /// than a millisecond.
    pub life: u64,
}

impl Size {
    // The moment of the row at a place, of so many rows that live at once.
    fn moment(self, rows: u64, place: u64) -> u64
        ensures { result ≤ moment_max }
    {
        (self.life.saturating_mul(place) / rows.max(1)).min(MOMENT_MAX)
    }
}

// The tables, and how many rows came to each.
#[derive(Drop)]
struct Tables<'c> {
    config: &'c Config,
    sessions: Sessions,
    kept: Recent,
    challenges: Challenges,
    size: Size,
    granted: u64,
    replies: u64,
    issued: u64,
    place: u64,
}

// The key of the reply at a place.
fn key(place: u64) -> Key {
    Key {
        source: SOURCE,
        port: (place / 256 % 65_536) as u16,
        door: Door::Auth,
        id: (place % 256) as u8,
    }
}

impl<'c> Tables<'c> {
    fn open(alloc: Global, config: &'c Config, size: Size) -> Option<Tables<'c>> {
        let sessions = Sessions::open(alloc, config).ok()?;
        let kept = Recent::open(alloc, config).ok()?;
        let challenges = Challenges::open(alloc, config).ok()?;
        Some(Tables {
            config,
            sessions,
            kept,
            challenges,
            size,
            granted: 0,
            replies: 0,
            issued: 0,
            place: 0,
        })
    }

    // Fills the tables, and says whether all rows came.
    fn fill(&mut self, alloc: Global) -> bool {
        let rows = self.size.rows as usize;
        let challenges = self.size.challenges as usize;
        self.make(alloc, Call::Grant, rows) == rows
            && self.make(alloc, Call::Keep, rows) == rows
            && self.make(alloc, Call::Issue, challenges) == challenges
    }

    // Makes a call so many times, and returns how many times it did what it should.
    fn make(&mut self, alloc: Global, call: Call, count: usize) -> usize {
        let mut right: usize = 0;
        for step in 0..count {
            if self.make_one(alloc, call, step as u64) {
                right = right.wrapping_add(1);
            }
        }
        right
    }

    fn make_one(&mut self, alloc: Global, call: Call, step: u64) -> bool {
        match call {
            Call::Grant => self.grant(),
            Call::Start => self.start(step),
            Call::Stop => self.stop(step),
            Call::Find => self.find(),
            Call::FindAddress => self.find_address(),
            Call::FindOther => self.find_other(),
            Call::Peek => self.peek(),
            Call::Look => self.look(),
            Call::Keep => self.keep(alloc),
            Call::Issue => self.issue(),
            Call::Take => self.take(step),
        }
    }

    // Rows go and come, where the call doesn't do so itself.
    fn restore(&mut self, alloc: Global, call: Call, count: usize) {
        match call {
            Call::Start => {
                self.make(alloc, Call::Stop, count);
                self.make(alloc, Call::Grant, count);
            }
            Call::Stop => {
                self.make(alloc, Call::Grant, count);
            }
            Call::Peek => {
                self.make(alloc, Call::Grant, 1);
            }
            Call::Take => {
                self.make(alloc, Call::Issue, count);
            }
            _ => {}
        }
    }

    // The moment of the next session.
    fn now(&self) -> u64
        ensures { result ≤ moment_max }
    {
        self.size.moment(self.size.rows, self.granted)
    }

    // The user of the next session: each of sixteen in turn.
    fn next_user(&self) -> Option<u32>
        ensures { IfSome result (λ user. user < length self.now.config.now.users) }
    {
        let user = (self.granted % 16) as u32;
        if user as usize >= self.config.users().len() {
            return None;
        }
        Some(user)
    }

    // Grants a session. The oldest one goes.
    fn grant(&mut self) -> bool {
        let now = self.now();
        let Some(user) = self.next_user() else {
            return false;
        };
        self.granted = self.granted.wrapping_add(1);
        self.sessions
            .grant(self.config, 0, SOURCE, user, now)
            .is_ok()
    }

    // The youngest sessions one after the other.
    fn start(&mut self, step: u64) -> bool {
        let now = self.now();
        self.sessions.start(self.granted.saturating_sub(step), now);
        true
    }

    fn stop(&mut self, step: u64) -> bool {
        self.sessions.stop(self.granted.saturating_sub(step));
        true
    }

    // The place of a row before the last, of another one each time.
    fn next_place(&mut self) -> u64 {
        self.place = self.place.wrapping_add(STRIDE) & self.size.rows.wrapping_sub(1);
        self.place
    }

    fn find(&mut self) -> bool {
        let number = self.granted.saturating_sub(self.next_place());
        self.sessions.find(0, Some(number), None, None) == Some(number)
    }

    // Each address is that of the last session whose number less one is as far from the first address.
    fn find_address(&mut self) -> bool {
        let number = self.granted.saturating_sub(self.next_place());
        let place = number.wrapping_sub(1) % self.size.rows.min(65_536).max(1);
        let address = FIRST_ADDRESS.wrapping_add(place as u32);
        self.sessions.find(0, None, Some(address), None) == Some(number)
    }

    fn find_other(&mut self) -> bool {
        self.sessions
            .find(0, None, Some(OTHER_ADDRESS), None)
            .is_none()
    }

    // At the moment of the next grant, so that an address is free.
    fn peek(&mut self) -> bool {
        let now = self.now();
        let Some(user) = self.next_user() else {
            return false;
        };
        self.sessions.peek(self.config, 0, user, now).is_ok()
    }

    fn look(&mut self) -> bool {
        let place = self
            .replies
            .saturating_sub(1)
            .saturating_sub(self.next_place());
        let now = self
            .size
            .moment(self.size.rows, self.replies.saturating_sub(1));
        self.kept.look(&key(place), &OCTETS, now).is_some()
    }

    // Keeps a reply. The oldest one goes.
    fn keep(&mut self, alloc: Global) -> bool {
        let now = self.size.moment(self.size.rows, self.replies);
        let key = key(self.replies);
        let Ok(octets) = OCTETS.to_vec(alloc) else {
            return false;
        };
        self.replies = self.replies.wrapping_add(1);
        let body = Body::new(alloc, code::ACCOUNTING_RESPONSE);
        self.kept.keep(key, octets, body, now).is_ok()
    }

    // Issues a challenge. The oldest one goes.
    fn issue(&mut self) -> bool {
        let now = self.size.moment(self.size.challenges, self.issued);
        self.issued = self.issued.wrapping_add(1);
        self.challenges.issue(0, 0, &DRAW, now).is_ok()
    }

    // The youngest challenges one after the other.
    fn take(&mut self, step: u64) -> bool {
        let now = self
            .size
            .moment(self.size.challenges, self.issued.saturating_sub(1));
        let state = state_value(self.issued.saturating_sub(step), &DRAW);
        self.challenges.take(&state, 0, now).is_some()
    }
}

fn take_turns(
    alloc: Global,
    tables: &mut Tables,
    call: Call,
    count: usize,
    times: &mut [u64],
) -> usize {
    let mut right: usize = 0;
    for time in times.iter_mut() {
        let start = clock::now();
        right = right.wrapping_add(tables.make(alloc, call, count));
        *time = clock::now().wrapping_sub(start);
        tables.restore(alloc, call, count);
    }
    right
}

fn read_and_call(
    alloc: Global,
    text: &[u8],
    size: Size,
    call: Call,
    count: usize,
    times: &mut [u64],
) -> Option<usize> {
    let config = Config::read(alloc, str::from_utf8(text).ok()?).ok()?;
    fill_and_call(alloc, &config, size, call, count, times)
}

fn fill_and_call(
    alloc: Global,
    config: &Config,
    size: Size,
    call: Call,
    count: usize,
    times: &mut [u64],
) -> Option<usize> {
    let mut tables = Tables::open(alloc, config, size)?;
    if !tables.fill(alloc) {
        return None;
    }
    Some(take_turns(alloc, &mut tables, call, count, times))
}

/// Takes as many turns as there are times on tables of a size, and puts down the nanoseconds of each, in which a call is made so
/// many times. Returns how many times it did what it should; 0 without memory, or if the tables can't be filled. The configuration
/// has a client, sixteen users of 4,096 sessions and a pool with as many addresses as there are sessions.
#[unsafe(no_mangle)]
pub extern "C" fn radpool_calls(
    alloc: Global,
    text: &[u8],
    size: &Size,
    call: u32,
    count: usize,
    times: &mut [u64],
) -> usize {
    read_and_call(alloc, text, *size, Call::of(call), count, times).unwrap_or(0)
}
