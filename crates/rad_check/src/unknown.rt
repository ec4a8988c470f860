//! Names of a document that their table doesn't have.

use crate::known::{LISTS, Scope, has_reply, is_known, is_of_entry, is_of_reply, is_of_top};
use crate::lines::push_warning;
use crate::near::near_name;
use crate::users_file::is_table_of_users;
use rad_config_fault::{Key, Part};
use std::fmt;
use toml::{Table, Value};

/// A table of a document.
#[derive(Clone, Copy)]
pub struct Site {
    pub scope: Scope,
    /// The entry, from 1; 0 at the top.
    pub index: usize,
    /// The attribute's place in the entry's reply, from 1; 0 outside a reply.
    pub place: usize,
}

impl fmt::Display for Site {
    fn fmt<W: fmt::Write>(&self, f: &mut fmt::Formatter<W>) -> fmt::Result {
        let Site {
            scope,
            index,
            place,
        } = self;
        match scope {
            Scope::Part(part) => write!(f, "{part} {index}"),
            Scope::Reply(part) => write!(f, "{part} {index} reply {place}"),
        }
    }
}

/// A name that its table doesn't have.
#[derive(Clone, Copy)]
pub struct Unknown<'a> {
    pub site: Site,
    pub name: &'a str,
    /// Whether it is a table, or an array of tables.
    pub is_table: bool,
}

impl<'a> fmt::Display for Unknown<'a> {
    fn fmt<W: fmt::Write>(&self, f: &mut fmt::Formatter<W>) -> fmt::Result {
        let Unknown {
            site,
            name,
            is_table,
        } = self;
        // A name is any text: escaped, it neither ends the line nor speaks to a terminal.
        let name = name.escape_default();
        match site.scope {
            Scope::Part(Part::Top) if *is_table => write!(f, "unknown table '{name}'")?,
            Scope::Part(Part::Top) => write!(f, "unknown key '{name}' at the top")?,
            _ => write!(f, "unknown key '{name}' in {site}")?,
        }
        self.write_hint(f)
    }
}

impl<'a> Unknown<'a> {
    // Where the key belongs, or which name may be meant.
    fn write_hint<W: fmt::Write>(&self, f: &mut fmt::Formatter<W>) -> fmt::Result {
        let (scope, name) = (self.site.scope, self.name);
        let (Scope::Part(part) | Scope::Reply(part)) = scope;
        if is_of_top(scope, name) {
            return f.write_str(": it belongs at the top, before the first [[..]]");
        }
        if is_of_entry(scope, name) {
            return write!(f, ": it belongs in the {part}, outside its reply");
        }
        if is_of_reply(scope, name) {
            return f.write_str(": it belongs in a table of reply");
        }
        if is_table_of_users(scope, name, self.is_table) {
            return write!(f, ": did you mean '{}'?", Part::User.name());
        }
        match near_name(scope, name) {
            Some(known) => write!(f, ": did you mean '{}'?", known.name()),
            None => Ok(()),
        }
    }
}

/// Appends a warning for each name of a document that its table doesn't have.
pub fn warn_of_names(lines: &mut String, document: &Table) {
    let top = Site {
        scope: Scope::Part(Part::Top),
        index: 0,
        place: 0,
    };
    warn_of_table(lines, top, document);
    for part in LISTS.iter() {
        warn_of_list(lines, *part, document);
    }
}

fn warn_of_list(lines: &mut String, part: Part, document: &Table) {
    let Some(Value::Array(items)) = document.get(part.name()) else {
        return;
    };
    for (item_place, item) in items.iter().enumerate() {
        if let Value::Table(entry) = item {
            warn_of_entry(lines, part, item_place + 1, entry);
        }
    }
}

fn warn_of_entry(lines: &mut String, part: Part, index: usize, entry: &Table) {
    let site = Site {
        scope: Scope::Part(part),
        index,
        place: 0,
    };
    warn_of_table(lines, site, entry);
    if has_reply(part) {
        warn_of_reply(lines, part, index, entry);
    }
}

fn warn_of_reply(lines: &mut String, part: Part, index: usize, entry: &Table) {
    let Some(Value::Array(items)) = entry.get(Key::Reply.name()) else {
        return;
    };
    for (item_place, item) in items.iter().enumerate() {
        if let Value::Table(attribute) = item {
            let site = Site {
                scope: Scope::Reply(part),
                index,
                place: item_place + 1,
            };
            warn_of_table(lines, site, attribute);
        }
    }
}

fn warn_of_table(lines: &mut String, site: Site, table: &Table) {
    for (name, value) in table.iter() {
        let is_table = is_table(value);
        if !is_known(site.scope, name) || is_table_of_users(site.scope, name, is_table) {
            let unknown = Unknown {
                site,
                name,
                is_table,
            };
            push_warning(lines, unknown);
        }
    }
}

// Whether a value is a table, or an array of tables.
fn is_table(value: &Value) -> bool {
    match value {
        Value::Table(_) => true,
        Value::Array(items) => !items.is_empty() && items.iter().all(|item| item.is_table()),
        _ => false,
    }
}
