//! Warnings of a file of users.

use crate::known::Scope;
use crate::lines::{MARK, push_warning, warn_of_file};
use crate::source::{Source, path_beside};
use crate::unknown::warn_of_names;
use rad_config_fault::{Key, Part};
use std::alloc::{AllocGlobal, Global};
use std::rt::Files;

/// Appends a warning if others than the owner and the group can read the file of users that the configuration at a path names.
pub fn warn_of_users_file<R: Files + AllocGlobal>(
    lines: &mut String,
    rt: &R,
    path: &str,
    source: &Source,
) {
    let Some(file) = &source.users else {
        return;
    };
    if let Ok(beside) = path_beside(rt.alloc(), path, &file.name) {
        warn_of_file(lines, rt, &beside);
    }
}

/// Appends a warning, with the file's name, for each name in a file of users that its part doesn't have.
pub fn warn_of_entries(lines: &mut String, alloc: Global, source: &Source) {
    let Some(file) = &source.users else {
        return;
    };
    let Ok(document) = toml::table_from_slice(alloc, source.users_text()) else {
        return;
    };
    let mut found = String::new(alloc);
    warn_of_names(&mut found, &document);
    for line in found.lines() {
        if let Some(warning) = line.strip_prefix(MARK) {
            push_warning(lines, format_args!("{}: {warning}", file.name));
        }
    }
}

/// Whether a table has the name that the key `users` has at the top. It names no file of users.
pub fn is_table_of_users(scope: Scope, name: &str, is_table: bool) -> bool {
    is_table && matches!(scope, Scope::Part(Part::Top)) && name == Key::Users.name()
}
