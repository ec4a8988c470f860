//! Warnings as lines of a text, which callers print.
ghost use Rattle.std.specs.Prelude.{◌≡◌};
ghost use Rattle.rad_check.specs.Warnings.{is_open};

use crate::named::UsersFile;
use crate::source::Source;
use crate::unknown::warn_of_names;
use crate::user_warning::UserWarning;
use crate::users_file::{warn_of_entries, warn_of_users_file};
use crate::warning::{SHORT_HOLD, Warning};
use rad_config::Config;
use std::alloc::AllocGlobal;
use std::fmt::Display;
use std::net::Ipv4Addr;
use std::os::unix::fs::MetadataExt;
use std::rt::Files;
use std::{fmt, fs};

/// With what each warning begins.
pub(crate) const MARK: &str = "radpool: warning: ";

/// Appends all warnings of a configuration, which the file at the path has as its text, or with the file of users that it names.
///
/// The unknown names are left out if memory to read the text once more is refused.
pub fn warn<R: Files + AllocGlobal>(
    lines: &mut String,
    rt: &R,
    path: &str,
    source: &Source,
    config: &Config,
) {
    warn_of_file(lines, rt, path);
    warn_of_users_file(lines, rt, path, source);
    if let Ok(document) = toml::table_from_slice(rt.alloc(), source.own_text()) {
        warn_of_names(lines, &document);
    }
    warn_of_entries(lines, rt.alloc(), source);
    warn_of_configuration(lines, config, source.users.as_ref());
}

/// Appends a warning if others than the owner and the group can read a file.
pub fn warn_of_file<R: Files>(lines: &mut String, rt: &R, path: &str) {
    let Ok(metadata) = fs::metadata(rt, path) else {
        return;
    };
    if is_open(metadata.mode()) {
        push_warning(
            lines,
            format_args!("{path} can be read by others: chmod o-rwx {path}"),
        );
    }
}

/// Appends a warning as a line, unless memory is refused.
pub fn push_warning<D: Display + Drop>(lines: &mut String, warning: D) {
    if let Ok(line) = format!(in *lines.allocator(); "{MARK}{warning}\n") {
        let _ = lines.push_str(&line);
    }
}

// Whether a file of this mode can be read by others.
fn is_open(mode: u32) -> bool
    ensures { result ≡ is_open mode }
{
    mode & 0o004 != 0
}

/// Appends the warnings of what a configuration says, whose last users are those of this file.
pub(crate) fn warn_of_configuration(lines: &mut String, config: &Config, file: Option<&UsersFile>) {
    if Warning::NoClient.applies(config) {
        push_warning(lines, "no clients: every datagram is discarded");
    }
    if Warning::NoUser.applies(config) {
        push_warning(lines, "no users: every log-in is rejected");
    }
    if Warning::ShortHold.applies(config) {
        push_warning(
            lines,
            format_args!(
                "hold is below {SHORT_HOLD} seconds: a session whose Start comes later loses its address"
            ),
        );
    }
    if Warning::NoShare.applies(config) {
        push_warning(
            lines,
            "several clients, and none has a share: one of them can fill what all need",
        );
    }
    warn_of_users(lines, config, file);
    for (place, pool) in config.pools().iter().enumerate() {
        if Warning::IdlePool(place as u32).applies(config) {
            warn_of_pool(lines, pool.first, pool.last);
        }
    }
}

fn warn_of_users(lines: &mut String, config: &Config, file: Option<&UsersFile>) {
    if let Some(users) = Concerned::by(UserWarning::ShortStale, config, file) {
        push_warning(
            lines,
            format_args!(
                "stale is below three Acct-Interim-Intervals of {users}: a session ends if two Interim-Updates in a row are lost"
            ),
        );
    }
    if let Some(users) = Concerned::by(UserWarning::NoInterval, config, file) {
        push_warning(
            lines,
            format_args!(
                "stale is set, but no Acct-Interim-Interval for {users}: a session ends early unless the client sends Interim-Updates unasked"
            ),
        );
    }
}

fn warn_of_pool(lines: &mut String, first: u32, last: u32) {
    let (first, last) = (Ipv4Addr::from_bits(first), Ipv4Addr::from_bits(last));
    push_warning(
        lines,
        format_args!("no user uses the pool from {first} to {last}"),
    );
}

/// The users whom a warning concerns.
#[derive(Clone, Copy)]
pub(crate) struct Concerned<'a> {
    /// The first of them, from 1.
    pub first: usize,
    pub others: usize,
    /// The file of users, if there is one.
    pub file: Option<&'a UsersFile>,
}

impl<'a> Concerned<'a> {
    // Those of a configuration, if it has some.
    fn by(
        warning: UserWarning,
        config: &Config,
        file: Option<&'a UsersFile>,
    ) -> Option<Concerned<'a>> {
        let place = warning.first(config)?;
        Some(Concerned {
            first: place.saturating_add(1),
            others: warning.count(config).saturating_sub(1),
            file,
        })
    }

    // The first of them, in the file where it stands.
    fn write_first<W: fmt::Write>(&self, f: &mut fmt::Formatter<W>) -> fmt::Result {
        if let Some(file) = self.file
            && self.first > file.before.users
        {
            let index = self.first - file.before.users;
            return write!(f, "user {index} of {}", file.name);
        }
        write!(f, "user {}", self.first)
    }
}

impl<'a> fmt::Display for Concerned<'a> {
    fn fmt<W: fmt::Write>(&self, f: &mut fmt::Formatter<W>) -> fmt::Result {
        self.write_first(f)?;
        match self.others {
            0 => Ok(()),
            1 => f.write_str(" and another"),
            others => write!(f, " and {others} others"),
        }
    }
}
