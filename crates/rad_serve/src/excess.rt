//! How many entries there are where there are too many.
ghost use Rattle.std.specs.Prelude.{◌≡◌, IfSome};
ghost use Rattle.toml.specs.Data.{get_member};
ghost use Rattle.toml.specs.Parse.{parse_document};
ghost use Rattle.rad_check.specs.UsersFiles.{count_of};
ghost use Rattle.rad_config_fault.specs.Faults.{part_name};
ghost use Rattle.rad_config_fault.specs.declared.config_fault.ConfigFault.TheVariants.{TooMany};
ghost use Rattle.rad_serve.specs.Excesses.{most_of};

use rad_auth::CLIENTS_MAX;
use rad_check::entry_count;
use rad_config::{ConfigFault, GROUPS_MAX, POOLS_MAX, Part, USERS_MAX};
use std::alloc::Global;
use std::fmt;

/// How many entries a part of a configuration has that has too many, and how many there may be.
#[derive(Clone, Copy, Debug, PartialEq, Eq)]
pub struct Excess {
    pub part: Part,
    pub count: usize,
    pub most: usize,
}

impl fmt::Display for Excess {
    fn fmt<W: fmt::Write>(&self, f: &mut fmt::Formatter<W>) -> fmt::Result {
        let Excess { part, count, most } = self;
        write!(f, "{count} {part}s, and at most {most} are allowed")
    }
}

/// How many entries a text has, if the fault of its configuration is that there are too many. None if memory to read it once more
/// is refused.
pub fn excess_of(alloc: Global, text: &[u8], fault: ConfigFault) -> Option<Excess>
    ensures part { IfSome result (λ excess. fault ≡ TooMany excess.part) }
    ensures most { IfSome result (λ excess. excess.most ≡ most_of excess.part) }
    ensures count { IfSome result (λ excess. IfSome (parse_document text.now) (λ members.
        excess.count ≡ count_of (get_member (part_name excess.part) members))) }
{
    let ConfigFault::TooMany(part) = fault else {
        return None;
    };
    let document = toml::table_from_slice(alloc, text).ok()?;
    Some(Excess {
        part,
        count: entry_count(&document, part),
        most: most_of(part),
    })
}

// How many entries a part may have.
fn most_of(part: Part) -> usize
    ensures { result ≡ most_of part }
{
    match part {
        Part::Top => 0,
        Part::Client => CLIENTS_MAX,
        Part::Pool => POOLS_MAX,
        Part::User => USERS_MAX,
        Part::Group => GROUPS_MAX,
    }
}
