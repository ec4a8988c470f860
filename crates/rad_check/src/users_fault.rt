//! What may be wrong with a file of users.
ghost use Rattle.std.specs.Prelude.{◌≡◌, Some};
ghost use Rattle.rad_check.specs.UsersFiles.{detail_in_users, fault_in_users, fault_told, index_after, index_in_users, misfit};
ghost use Rattle.rad_check.specs.UsersFiles.{spot_in_users};

use crate::detail::{Detail, detail_of};
use crate::named::Counts;
use crate::users_lines::{entry_line, first_stray_line};
use rad_config::TEXT_MAX;
use rad_config_fault::{ConfigFault, Part, ReplySpot, Spot};
use std::alloc::Global;
use std::fmt;

/// What is wrong with a file of users. It is printed after the file's path.
#[derive(Clone, Copy, Debug, PartialEq, Eq)]
pub enum UsersFault {
    /// The file can't be read.
    Unreadable,
    /// With the configuration it has more than `TEXT_MAX` octets.
    TooLong,
    /// This line, from 1, may not stand there.
    StrayLine(usize),
    /// Its entries can't be added to those of the configuration, where `user` or `group` is no array of tables.
    Apart,
    /// Its text, or an entry at this line of it, has a fault.
    Config {
        fault: ConfigFault,
        line: Option<usize>,
        detail: Detail,
    },
}

impl fmt::Display for UsersFault {
    fn fmt<W: fmt::Write>(&self, f: &mut fmt::Formatter<W>) -> fmt::Result {
        match self {
            UsersFault::Unreadable => f.write_str("users unreadable"),
            UsersFault::TooLong => {
                write!(
                    f,
                    "with the configuration it has more than {TEXT_MAX} octets"
                )
            }
            UsersFault::StrayLine(line) => write!(
                f,
                "line {line}: only [[user]] and [[group]] may stand here"
            ),
            UsersFault::Apart => f.write_str(
                "nothing can be added to 'user = ..' or 'group = ..' of the configuration: write [[user]] and [[group]] there",
            ),
            UsersFault::Config {
                fault,
                line: Some(line),
                detail,
            } => write!(f, "{fault} (entry at line {line}){detail}"),
            UsersFault::Config {
                fault,
                line: None,
                detail,
            } => write!(f, "{fault}{detail}"),
        }
    }
}

/// Why a text can't be that of a file of users, beside a configuration.
pub fn misfit(own: &[u8], users: &[u8]) -> Option<UsersFault>
    ensures { result ≡ misfit own.now users.now }
{
    if users.len() >= TEXT_MAX.saturating_sub(own.len()) {
        return Some(UsersFault::TooLong);
    }
    let line = first_stray_line(users)?;
    Some(UsersFault::StrayLine(line))
}

/// What is wrong with a file of users that is no document, or can't be added to the configuration.
pub fn syntax_in_users(alloc: Global, users: &[u8]) -> UsersFault
    ensures { fault_told result ≡ Some ConfigFault.Syntax }
{
    match toml::table_from_slice(alloc, users) {
        Ok(_) => UsersFault::Apart,
        Err(_) => UsersFault::Config {
            fault: ConfigFault::Syntax,
            line: None,
            detail: detail_of(alloc, users, ConfigFault::Syntax),
        },
    }
}

/// The fault of both texts as one, seen from the file of users, if it is at an entry there.
pub fn fault_in_users(before: Counts, fault: ConfigFault) -> Option<ConfigFault>
    ensures { result ≡ fault_in_users before fault }
{
    match fault {
        ConfigFault::Missing(spot) => Some(ConfigFault::Missing(spot_in_users(before, spot)?)),
        ConfigFault::BadValue(spot) => Some(ConfigFault::BadValue(spot_in_users(before, spot)?)),
        ConfigFault::BadReply(spot) => {
            let index = index_in_users(before, spot.part, spot.index as usize)?;
            Some(ConfigFault::BadReply(ReplySpot {
                index: index as u32,
                ..spot
            }))
        }
        _ => None,
    }
}

fn spot_in_users(before: Counts, spot: Spot) -> Option<Spot>
    ensures { result ≡ spot_in_users before spot }
{
    let index = index_in_users(before, spot.part, spot.index as usize)?;
    Some(Spot {
        index: index as u32,
        ..spot
    })
}

/// The detail of a fault of both texts as one, seen from the file of users.
pub fn detail_in_users(before: Counts, detail: Detail) -> Detail
    ensures { result ≡ detail_in_users before detail }
{
    let Detail::SameAs { part, index } = detail else {
        return detail;
    };
    match index_in_users(before, part, index) {
        Some(index) => Detail::SameAs { part, index },
        None => Detail::SameAsInConfig { part, index },
    }
}

// The index in the file of users of the entry with this index in both texts as one, if it stands there.
fn index_in_users(before: Counts, part: Part, index: usize) -> Option<usize>
    ensures { result ≡ index_in_users before part index }
{
    match part {
        Part::User => index_after(before.users, index),
        Part::Group => index_after(before.groups, index),
        Part::Top | Part::Client | Part::Pool => None,
    }
}

fn index_after(before: usize, index: usize) -> Option<usize>
    ensures { result ≡ index_after before index }
{
    if before < index {
        Some(index - before)
    } else {
        None
    }
}

/// The line at which the entry begins that has a fault.
pub fn line_of(users: &[u8], fault: ConfigFault) -> Option<usize> {
    match fault {
        ConfigFault::Missing(spot) | ConfigFault::BadValue(spot) => {
            entry_line(users, spot.part, spot.index as usize)
        }
        ConfigFault::BadReply(spot) => entry_line(users, spot.part, spot.index as usize),
        _ => None,
    }
}
