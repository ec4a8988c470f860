//! What more there is to say of a fault.
ghost use Rattle.std.specs.Prelude.{IfSome, IsTrue};
ghost use Rattle.rad_check.specs.Details.{fits};

use crate::place::{column_after, line_after};
use crate::shared::{pool_with, same_as, shared_pools};
use rad_config_fault::{ConfigFault, Part, Spot};
use std::alloc::Global;
use std::fmt;
use toml::Table;
use toml::de::Error;

/// What more there is to say of a fault. It is printed after the fault, on the same line, and has nothing of a value in it.
#[derive(Clone, Copy, Debug, PartialEq, Eq)]
pub enum Detail {
    /// Nothing.
    Nothing,
    /// Where a text is no document, from line 1 and column 1, and why.
    Syntax {
        line: usize,
        column: usize,
        error: Error,
    },
    /// The earlier entry of the part, from 1, that has the same name, network or address.
    SameAs {
        part: Part,
        index: usize,
    },
    /// The same of an entry in the configuration's own file, where the fault is in the file of users.
    SameAsInConfig {
        part: Part,
        index: usize,
    },
    /// The pool, from 1, that has the user's address.
    InPool {
        index: usize,
    },
    /// The two pools, from 1, that share an address.
    Pools {
        first: usize,
        second: usize,
    },
}

impl fmt::Display for Detail {
    fn fmt<W: fmt::Write>(&self, f: &mut fmt::Formatter<W>) -> fmt::Result {
        match self {
            Detail::Nothing => Ok(()),
            Detail::Syntax {
                line,
                column,
                error,
            } => { write!(f, " at line {line}, column {column}: {}", error.message()) }
            Detail::SameAs { part, index } => write!(f, ": the same as {part} {index}"),
            Detail::SameAsInConfig { part, index } => {
                write!(f, ": the same as {part} {index} of the configuration")
            }
            Detail::InPool { index } => write!(f, ": in {} {index}", Part::Pool),
            Detail::Pools { first, second } => write!(f, ": pools {first} and {second}"),
        }
    }
}

/// What more there is to say of the fault that a text has. Where memory is refused, it is nothing.
pub fn detail_of(alloc: Global, text: &[u8], fault: ConfigFault) -> Detail
    ensures { IsTrue (fits fault result) }
{
    let found = match fault {
        ConfigFault::Syntax => syntax(alloc, text),
        _ => in_document(alloc, text, fault),
    };
    found.unwrap_or(Detail::Nothing)
}

fn syntax(alloc: Global, text: &[u8]) -> Option<Detail>
    ensures { IfSome result (λ detail. IsTrue (fits ConfigFault.Syntax detail)) }
{
    let error = toml::table_from_slice(alloc, text).err()?;
    let before = text.get(..error.span()?.start)?;
    Some(Detail::Syntax {
        line: line_after(before),
        column: column_after(before),
        error,
    })
}

fn in_document(alloc: Global, text: &[u8], fault: ConfigFault) -> Option<Detail>
    ensures { IfSome result (λ detail. IsTrue (fits fault detail)) }
{
    let document = toml::table_from_slice(alloc, text).ok()?;
    match fault {
        ConfigFault::BadValue(spot) => bad_value(&document, spot),
        ConfigFault::PoolsOverlap => {
            let (first, second) = shared_pools(&document)?;
            Some(Detail::Pools { first, second })
        }
        _ => None,
    }
}

fn bad_value(document: &Table, spot: Spot) -> Option<Detail>
    ensures { IfSome result (λ detail. IsTrue (fits (ConfigFault.BadValue spot) detail)) }
{
    if let Some(index) = same_as(document, spot) {
        return Some(Detail::SameAs {
            part: spot.part,
            index,
        });
    }
    let index = pool_with(document, spot)?;
    Some(Detail::InPool { index })
}
