//! Why what the options of `serve` name can't be served.

use crate::excess::{Excess, excess_of};
use crate::unreadable::{FileFault, GivenFile, Unreadable};
use rad_check::{Source, SourceFault, UsersFault};
use rad_config::ConfigFault;
use std::alloc::{AllocError, Global};

/// Why what the options of `serve` name can't be served, or a configuration can't be checked.
#[derive(Drop)]
pub enum GivenFault {
    /// Memory was refused.
    NoMemory,
    /// A file can't be read, or isn't as long as it must be.
    Unreadable(Unreadable),
    /// The configuration's own file has a fault. If that is that it has too many entries, how many there are.
    Config(ConfigFault, Option<Excess>),
    /// The file of users that the configuration names has one. The path is as the configuration names it.
    Users { path: String, fault: UsersFault },
}

impl GivenFault {
    /// A file at a path can't be read.
    pub(crate) fn of_file(
        alloc: Global,
        file: GivenFile,
        path: &str,
        why: FileFault,
    ) -> GivenFault {
        if let FileFault::NoMemory = why {
            return GivenFault::NoMemory;
        }
        match path.to_string(alloc) {
            Ok(path) => GivenFault::Unreadable(Unreadable { file, path, why }),
            Err(_) => GivenFault::NoMemory,
        }
    }

    /// A configuration has a fault, in one of its files.
    pub(crate) fn of_source(alloc: Global, source: Source, fault: ConfigFault) -> GivenFault {
        let excess = excess_of(alloc, &source.text, fault);
        match source.into_fault(alloc, fault) {
            SourceFault::Own(fault, _) => GivenFault::Config(fault, excess),
            SourceFault::Users { name, fault } => GivenFault::Users { path: name, fault },
        }
    }
}

impl From<AllocError> for GivenFault {
    fn from(_error: AllocError) -> GivenFault {
        GivenFault::NoMemory
    }
}
