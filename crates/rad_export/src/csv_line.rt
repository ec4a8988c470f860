//! A row as a line of CSV, and the line of the columns' names.
ghost use Rattle.std.specs.Prelude.{◌≡◌, ◌++◌, ◌∷◌, [], IfOk, OnOk, List, ℕ, Option, option_copied, map};
ghost use Rattle.csv.specs.Records.{fields_of, partial_of};
ghost use Rattle.csv.specs.Writing.{default_writer, row_text};
ghost use Rattle.rad_export.specs.Lines.{csv_head, csv_line, field};
ghost use Rattle.rad_export.specs.Seen.{name_of, seen, shown_of};

use crate::columns::{COLUMNS, Column, GENERATION};
use crate::shown::{Shown, show, time_text};
use csv::{ByteRecord, Writer};
use sqlite_value::row::Row;
use std::alloc::{AllocError, Global};

/// The names of the columns.
pub(crate) fn csv_head(alloc: Global) -> Result<Vec<u8>, AllocError>
    ensures { IfOk result (λ line. line.items ≡ csv_head) }
{
    let mut fields = ByteRecord::new(alloc);
    fields.push_field(GENERATION.as_bytes())?;
    push_names(&mut fields, COLUMNS)?;
    line_of(alloc, &fields)
}

fn push_names(fields: &mut ByteRecord, columns: &[Column]) -> Result<(), AllocError>
    requires { partial_of fields.old ≡ [] }
    ensures { OnOk result (fields_of fields.new ≡ fields_of fields.old ++ map name_of columns.now) }
{
    for Column(_, name, _) in columns {
        fields.push_field(name.as_bytes())?;
    }
    Ok(())
}

/// What the columns show, in fields. One that shows nothing is empty.
pub(crate) fn csv_line(alloc: Global, generation: u32, row: &Row) -> Result<Vec<u8>, AllocError>
    ensures { IfOk result (λ line. (time : Option (List ℕ))
        × (line.items ≡ csv_line time generation row.now)) }
{
    let time = time_text(alloc, row)?;
    let mut fields = ByteRecord::new(alloc);
    fields.push_field(format!(in alloc; "{generation}")?.as_bytes())?;
    push_columns(&mut fields, alloc, time.as_deref(), row, COLUMNS)?;
    line_of(alloc, &fields)
}

// What these columns show of a row whose time has this text.
fn push_columns(
    fields: &mut ByteRecord,
    alloc: Global,
    time: Option<&str>,
    row: &Row,
    columns: &[Column],
) -> Result<(), AllocError>
    requires { partial_of fields.old ≡ [] }
    ensures { OnOk result (fields_of fields.new ≡ fields_of fields.old
        ++ map (λ c. field (shown_of (option_copied time.entry) row.now c)) columns.now) }
{
    for Column(at, _, kind) in columns {
        let shown = show(alloc, time, *kind, row.get(*at))?;
        push_shown(fields, alloc, &shown)?;
    }
    Ok(())
}

fn push_shown(fields: &mut ByteRecord, alloc: Global, shown: &Shown) -> Result<(), AllocError>
    requires { partial_of fields.old ≡ [] }
    ensures fields { OnOk result (fields_of fields.new
        ≡ fields_of fields.old ++ field (seen shown.now) ∷ []) }
    ensures whole { OnOk result (partial_of fields.new ≡ []) }
{
    match shown {
        Shown::Nothing => fields.push_field(b""),
        Shown::Number(number) => fields.push_field(format!(in alloc; "{number}")?.as_bytes()),
        Shown::Text(text) => fields.push_field(text.as_bytes()),
        Shown::Made(text) => fields.push_field(text.as_bytes()),
        Shown::Octets(octets) => {
            let digits = hex::encode(alloc, *octets)?;
            fields.push_field(format!(in alloc; "\\x{digits}")?.as_bytes())
        }
    }
}

// The fields with commas between them and a line feed after them, in quotes where they need it.
fn line_of(alloc: Global, fields: &ByteRecord) -> Result<Vec<u8>, AllocError>
    ensures { IfOk result (λ line. line.items ≡ row_text default_writer (fields_of fields.now)) }
{
    let mut writer = Writer::from_writer(Vec::new(alloc));
    writer.write_byte_record(fields).map_err(|_| AllocError)?;
    writer.into_inner().map_err(|_| AllocError)
}
