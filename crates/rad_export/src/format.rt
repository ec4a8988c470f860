//! The two formats of lines.
ghost use Rattle.std.specs.Prelude.{◌≡◌, ◌++◌, OnOk, OnErr};
ghost use Rattle.rad_export.specs.Lines.{AppendsLine, format_named, head_text};

use crate::csv_line::{csv_head, csv_line};
use crate::json_line::json_line;
use sqlite_value::row::Row;
use std::alloc::AllocError;

/// A format of lines.
#[derive(Clone, Copy, Debug, PartialEq, Eq)]
pub enum Format {
    /// An object on each line.
    Json,
    /// Fields between commas, with a line of their names before all others.
    Csv,
}

impl Format {
    /// The format with this name, `json` or `csv`.
    pub fn named(name: &str) -> Option<Format>
        ensures { result ≡ format_named name.now }
    {
        match name {
            "json" => Some(Format::Json),
            "csv" => Some(Format::Csv),
            _ => None,
        }
    }

    /// Appends the line that stands before all others, if the format has one.
    ///
    /// Without memory the text is unchanged.
    pub fn push_head(self, text: &mut Vec<u8>) -> Result<(), AllocError>
        ensures appended { OnOk result (text.new.items ≡ text.old.items ++ head_text self) }
        ensures unchanged { OnErr result (text.new.items ≡ text.old.items) }
    {
        match self {
            Format::Json => Ok(()),
            Format::Csv => text.extend_from_slice(&csv_head(*text.allocator())?),
        }
    }

    /// Appends the line of a row, which is from this generation.
    ///
    /// What a column can't hold is taken for NULL. Without memory the text is unchanged.
    pub fn push_line(self, text: &mut Vec<u8>, generation: u32, row: &Row) -> Result<(), AllocError>
        ensures appended { OnOk result
            (AppendsLine self generation row.now text.old.items text.new.items) }
        ensures unchanged { OnErr result (text.new.items ≡ text.old.items) }
    {
        let alloc = *text.allocator();
        let line = match self {
            Format::Json => json_line(alloc, generation, row)?,
            Format::Csv => csv_line(alloc, generation, row)?,
        };
        text.extend_from_slice(&line)
    }
}
