//! The text of a configuration, with that of the file of users that it names.
ghost use Rattle.std.specs.Prelude.{◌≡◌, ◌≤◌, IfOk, length, string_bytes};
ghost use Rattle.std.specs.Path.{path_with_file_name};

use crate::detail::{Detail, detail_of};
use crate::named::UsersFile;
use crate::users_fault::{UsersFault, detail_in_users, fault_in_users, line_of, syntax_in_users};
use rad_config_fault::ConfigFault;
use std::alloc::{AllocError, Global};
use std::path::Path;

/// The text of a configuration, with that of the file of users that it names, as one text.
#[derive(Drop)]
pub struct Source {
    /// The text of the configuration's own file. If it names a file of users, a line feed and the text of that follow.
    pub text: Vec<u8>,
    /// Where the text of the file of users begins, or the end.
    pub start: usize,
    pub users: Option<UsersFile>,
    ghost within: { start ≤ length text.items },
}

/// A fault of a configuration, by the file in which it is.
#[derive(Drop)]
pub enum SourceFault {
    /// It is in the configuration's own file.
    Own(ConfigFault, Detail),
    /// It is in the file of users that has this name.
    Users { name: String, fault: UsersFault },
}

impl Source {
    ghost use Rattle.std.specs.Prelude.{◌≡◌, ◌+◌, IfOk, IsSome, MatchOption, None, Some, drop, length, take};
    ghost use Rattle.rad_check.specs.UsersFiles.{IsTold, fault_told, joined, seen_in_users};

    /// A configuration that names no file of users.
    pub fn alone(text: Vec<u8>) -> Source
        ensures text { result.text ≡ text }
        ensures start { result.start ≡ length text.items }
        ensures users { result.users ≡ None }
    {
        let start = text.len();
        Source {
            text,
            start,
            users: None,
        }
    }

    /// A configuration that names a file, with the text of that.
    pub fn joined(own: Vec<u8>, file: UsersFile, users: &[u8]) -> Result<Source, AllocError>
        ensures text { IfOk result (λ source. source.text.items ≡ joined own.items users.now) }
        ensures start { IfOk result (λ source. source.start ≡ length own.items + 1) }
        ensures users { IfOk result (λ source. source.users ≡ Some file) }
    {
        let mut text = own;
        text.push(b'\n')?;
        let start = text.len();
        text.extend_from_slice(users)?;
        Ok(Source {
            text,
            start,
            users: Some(file),
        })
    }

    /// The text of the configuration's own file.
    pub fn own_text(&self) -> &[u8]
        ensures { result.now ≡ take self.now.start self.now.text.items }
    {
        &self.text[..self.start]
    }

    /// The text of the file of users; empty if there is none.
    pub fn users_text(&self) -> &[u8]
        ensures { result.now ≡ drop self.now.start self.now.text.items }
    {
        &self.text[self.start..]
    }

    /// The fault that the text has, by the file in which it is.
    pub fn into_fault(self, alloc: Global, fault: ConfigFault) -> SourceFault
        ensures { IsTold self.users fault result }
    {
        let found = self.users_fault(alloc, fault);
        let detail = match found {
            Some(_) => Detail::Nothing,
            None => detail_of(alloc, self.own_text(), fault),
        };
        match (self.users, found) {
            (Some(file), Some(fault)) => SourceFault::Users {
                name: file.name,
                fault,
            },
            _ => SourceFault::Own(fault, detail),
        }
    }

    // What is wrong with the file of users, if a fault of the text is there.
    fn users_fault(&self, alloc: Global, fault: ConfigFault) -> Option<UsersFault>
        ensures { MatchOption result (seen_in_users self.now.users fault ≡ None) (λ found.
            IsSome (fault_told found) × (seen_in_users self.now.users fault ≡ fault_told found)) }
    {
        let Some(file) = &self.users else {
            return None;
        };
        // What names a file is a document, so a fault of syntax is the other one's.
        if let ConfigFault::Syntax = fault {
            return Some(syntax_in_users(alloc, self.users_text()));
        }
        let found = fault_in_users(file.before, fault)?;
        Some(UsersFault::Config {
            fault: found,
            line: line_of(self.users_text(), found),
            detail: detail_in_users(file.before, detail_of(alloc, &self.text, fault)),
        })
    }
}

/// The path of a file that a configuration at a path names: below the folder of that, unless it is absolute.
pub fn path_beside(alloc: Global, path: &str, name: &str) -> Result<String, AllocError>
    ensures { IfOk result (λ beside. string_bytes beside ≡ path_with_file_name path.now name.now) }
{
    let path = Path::new(path).with_file_name(alloc, name)?;
    Ok(path.into_string())
}
