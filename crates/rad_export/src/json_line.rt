//! A row as a line of JSON.
ghost use Rattle.std.specs.Prelude.{◌≡◌, ◌++◌, ◌∷◌, [], IfOk, OnOk, List, ℕ, Option, option_copied, flat_map};
ghost use Rattle.json.specs.Token.{key, string};
ghost use Rattle.rad_export.specs.Lines.{json_line, member};
ghost use Rattle.rad_export.specs.Seen.{name_of, seen, shown_of};

use crate::columns::{COLUMNS, Column, GENERATION};
use crate::shown::{Shown, show, time_text};
use json::Writer;
use sqlite_value::row::Row;
use std::alloc::{AllocError, Global};

/// How much memory a line has from the start, in octets.
const LINE_ROOM: usize = 1024;

/// An object whose members are what the columns show. A column that shows nothing is left out.
pub(crate) fn json_line(alloc: Global, generation: u32, row: &Row) -> Result<Vec<u8>, AllocError>
    ensures { IfOk result (λ line. (time : Option (List ℕ))
        × (line.items ≡ json_line time generation row.now)) }
{
    let time = time_text(alloc, row)?;
    let mut out = Writer::new(Vec::with_capacity(alloc, LINE_ROOM)?);
    out.begin_object()?;
    out.key(GENERATION)?;
    out.u64(u64::from(generation))?;
    write_members(&mut out, alloc, time.as_deref(), row, COLUMNS)?;
    out.end_object()?;
    let mut line = out.into_inner();
    line.push(b'\n')?;
    Ok(line)
}

// What these columns show of a row whose time has this text.
fn write_members(
    out: &mut Writer,
    alloc: Global,
    time: Option<&str>,
    row: &Row,
    columns: &[Column],
) -> Result<(), AllocError>
    ensures tokens { OnOk result (out.new.tokens ≡ out.old.tokens ++ flat_map
        (λ c. member (name_of c) (shown_of (option_copied time.entry) row.now c)) columns.now) }
    ensures before { OnOk result (out.new.before ≡ out.old.before) }
{
    for Column(at, name, kind) in columns {
        let shown = show(alloc, time, *kind, row.get(*at))?;
        write_member(out, alloc, name, &shown)?;
    }
    Ok(())
}

fn write_member(
    out: &mut Writer,
    alloc: Global,
    name: &str,
    shown: &Shown,
) -> Result<(), AllocError>
    ensures tokens { OnOk result (out.new.tokens
        ≡ out.old.tokens ++ member name.now (seen shown.now)) }
    ensures before { OnOk result (out.new.before ≡ out.old.before) }
{
    match shown {
        Shown::Nothing => Ok(()),
        Shown::Number(number) => {
            out.key(name)?;
            out.i64(*number)
        }
        Shown::Text(text) => write_text(out, name, text),
        Shown::Made(text) => write_text(out, name, text),
        Shown::Octets(octets) => {
            let name = format!(in alloc; "{name}:hex")?;
            write_text(out, &name, &hex::encode(alloc, *octets)?)
        }
    }
}

fn write_text(out: &mut Writer, name: &str, text: &str) -> Result<(), AllocError>
    ensures tokens { OnOk result (out.new.tokens
        ≡ out.old.tokens ++ key name.now ∷ string text.now ∷ []) }
    ensures before { OnOk result (out.new.before ≡ out.old.before) }
{
    out.key(name)?;
    out.string(text)
}
