//! Options with a value, as rows of a table.

use clap::builder::ValueParser;
use clap::{Arg, Command};
use std::alloc::{AllocError, Global};

/// Any text.
pub const TEXT: ValueParser<'static> = ValueParser::String;

/// A number from 0 to 255.
pub const OCTET: ValueParser<'static> = ValueParser::Signed(0, 255);

/// A number from 0 to 65535.
pub const PORT: ValueParser<'static> = ValueParser::Signed(0, 65_535);

/// A number from 0 to 4294967295.
pub const WORD: ValueParser<'static> = ValueParser::Signed(0, 4_294_967_295);

/// What holds where an option isn't given.
#[derive(Clone, Copy)]
pub enum Absent {
    /// It must be given.
    Fault,
    /// It has no value.
    Nothing,
    /// It has this value, which help shows unless it is empty.
    Value(&'static str),
}

/// An option with a value.
#[derive(Clone, Copy)]
pub struct Valued {
    pub name: &'static str,
    /// What help calls the value.
    pub value: &'static str,
    pub help: &'static str,
    pub absent: Absent,
    pub parser: ValueParser<'static>,
}

impl Valued {
    fn arg<'a>(self, alloc: Global) -> Arg<'a> {
        let arg = Arg::new(alloc, self.name)
            .long(self.name)
            .value_name(self.value)
            .help(self.help)
            .value_parser(self.parser);
        match self.absent {
            Absent::Fault => arg.required(true),
            Absent::Nothing => arg,
            Absent::Value(value) => arg
                .default_value(value)
                .hide_default_value(value.is_empty()),
        }
    }
}

/// A copy of a text, if one is given.
pub fn text_of(alloc: Global, text: Option<&str>) -> Result<Option<String>, AllocError> {
    match text {
        Some(text) => Ok(Some(text.to_string(alloc)?)),
        None => Ok(None),
    }
}

/// The command with these options, in their order.
pub fn with_options<'a>(
    alloc: Global,
    command: Command<'a>,
    options: &[Valued],
) -> Result<Command<'a>, AllocError> {
    let mut command = command;
    for option in options.iter() {
        command = command.arg(option.arg(alloc))?;
    }
    Ok(command)
}
