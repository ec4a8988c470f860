//! The clock of moments, and what the system's clocks show.
ghost use Rattle.std.specs.Prelude.{◌≡◌, ◌≤◌, ◌+◌, ◌-◌, min, IfSome};
ghost use Rattle.rad_config.specs.Spans.{moment_max};

use libc::types::timespec;
use rad_config::MOMENT_MAX;
use rad_state::Clocks;
use std::fs;
use std::io::Read;
use std::rt::Files;
use std::time::{Clock, Duration};
use uuid::Uuid;

/// Where the id of a boot is.
const BOOT_ID: &str = "/proc/sys/kernel/random/boot_id";

/// The octets of its text.
const BOOT_ID_SIZE: usize = 36;

/// The clock that goes on while the machine sleeps, as Linux numbers it.
const CLOCK_BOOTTIME: i32 = 7;

/// A clock of moments, in milliseconds. It goes by the system's clock that goes on whatever time it is set to.
#[derive(Clone, Copy)]
pub struct Moments {
    /// Its first moment.
    pub first: u64,
    /// What the system's clock showed then.
    pub shown: u64,
}

impl Moments {
    /// The system's clock. Its zero is the system's choice.
    pub fn of_system() -> Moments {
        Moments { first: 0, shown: 0 }
    }

    /// The clock whose first moment, now, is this one.
    pub fn from<C: Clock>(clock: &C, moment: u64) -> Moments
        ensures { result.first ≡ moment }
    {
        Moments {
            first: moment,
            shown: monotonic(clock),
        }
    }

    /// The moment now; the first one if the system's clock fails.
    pub fn now<C: Clock>(self, clock: &C) -> u64
        ensures { result ≤ moment_max }
    {
        self.at(monotonic(clock))
    }

    // The moment when the system's clock shows this.
    fn at(self, system: u64) -> u64
        ensures { result ≡ min (self.first + (system - self.shown)) moment_max }
    {
        let since = system.saturating_sub(self.shown);
        self.first.saturating_add(since).min(MOMENT_MAX)
    }
}

// What the system's clock shows that goes on whatever time it is set to, in milliseconds.
fn monotonic<C: Clock>(clock: &C) -> u64
    ensures { result ≤ moment_max }
{
    clock.monotonic().map_or(0, millis).min(MOMENT_MAX)
}

/// The wall time, in milliseconds since 1970; 0 if the clock fails.
pub(crate) fn wall<C: Clock>(clock: &C) -> u64 {
    clock.since_1970().map_or(0, millis)
}

/// So much time in milliseconds.
pub(crate) fn millis(time: Duration) -> u64 {
    u64::try_from(time.as_millis()).unwrap_or(u64::MAX)
}

/// What the clocks show now; none if the boot's id or its clock can't be read.
pub(crate) fn clocks<R: Files + Clock>(rt: &R) -> Option<Clocks>
    ensures { IfSome result (λ clocks. clocks.running ≤ moment_max) }
{
    Some(Clocks {
        boot: boot(rt)?,
        running: running()?,
        wall: wall(rt),
    })
}

// The id of the boot.
fn boot<R: Files>(rt: &R) -> Option<[u8; 16]> {
    let mut text = [0; BOOT_ID_SIZE];
    let mut file = fs::open(rt, BOOT_ID).ok()?;
    file.read_exact(&mut text).ok()?;
    Some(Uuid::try_parse_ascii(&text).ok()?.into_bytes())
}

// The time since the boot, in milliseconds.
fn running() -> Option<u64>
    ensures { IfSome result (λ running. running ≤ moment_max) }
{
    let mut time = timespec {
        tv_sec: 0,
        tv_nsec: 0,
    };
    if libc::clock_gettime(CLOCK_BOOTTIME, &mut time) != 0 {
        return None;
    }
    let seconds = u64::try_from(time.tv_sec).ok()?;
    let nanoseconds = u64::try_from(time.tv_nsec).ok()?;
    Some(
        seconds
            .saturating_mul(1_000)
            .saturating_add(nanoseconds / 1_000_000)
            .min(MOMENT_MAX),
    )
}
