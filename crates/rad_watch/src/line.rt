//! Lines of a log: `key=value` fields in a fixed order.
ghost use Rattle.std.specs.Prelude.{◌≡◌, ◌++◌, OnOk, codes, decimal, option_copied};
ghost use Rattle.std.specs.Option.{option_map_or};
ghost use Rattle.rad_replay.specs.DatagramTexts.{address_text};
ghost use Rattle.rad_watch.specs.Events.{seen};
ghost use Rattle.rad_watch.specs.LogLines.{field, line_head, log_line, origin_fields, origin_text, place_text, repeat_fields};
ghost use Rattle.rad_watch.specs.LogLines.{session_fields, source_text};
ghost use Rattle.rad_watch.specs.Shown.{quoted};

use crate::event::{Event, Origin};
use crate::shown::push_shown;
use rad_replay::{door_name, push_decimal};
use std::io;

/// Appends the line of an event, after the text of the time. A field of which nothing is known is left out.
pub(crate) fn write_line(text: &mut Vec<u8>, time: &[u8], event: &Event) -> io::Result<()>
    ensures { OnOk result
        (text.new.items ≡ text.old.items ++ log_line time.now (seen event.now)) }
{
    write_head(text, time, event)?;
    write_origin(text, event)?;
    write_session(text, event)?;
    write_repeat(text, event)?;
    push_octets(text, b"\n")
}

fn write_head(text: &mut Vec<u8>, time: &[u8], event: &Event) -> io::Result<()>
    ensures { OnOk result
        (text.new.items ≡ text.old.items ++ line_head time.now (seen event.now)) }
{
    push_octets(text, b"time=")?;
    push_octets(text, time)?;
    push_octets(text, b" event=")?;
    push_octets(text, event.kind.name().as_bytes())?;
    push_text(text, b" reason=", event.reason)
}

fn write_origin(text: &mut Vec<u8>, event: &Event) -> io::Result<()>
    ensures { OnOk result
        (text.new.items ≡ text.old.items ++ origin_fields (seen event.now)) }
{
    push_client(text, event.client)?;
    push_origin(text, event.origin)
}

fn write_session(text: &mut Vec<u8>, event: &Event) -> io::Result<()>
    ensures { OnOk result
        (text.new.items ≡ text.old.items ++ session_fields (seen event.now)) }
{
    push_text(text, b" user=", event.user)?;
    push_session_address(text, event.address)?;
    push_number(text, b" session=", event.session)?;
    push_text(text, b" session_user=", event.owner)
}

fn write_repeat(text: &mut Vec<u8>, event: &Event) -> io::Result<()>
    ensures { OnOk result
        (text.new.items ≡ text.old.items ++ repeat_fields (seen event.now)) }
{
    if event.is_repeat {
        push_octets(text, b" repeat=1")?;
    }
    push_number(text, b" count=", event.count)
}

// The client, by its place counted from 1.
fn push_client(text: &mut Vec<u8>, client: Option<u32>) -> io::Result<()>
    ensures { OnOk result (text.new.items ≡
        text.old.items ++ field (codes " client=") place_text client) }
{
    let Some(client) = client else {
        return Ok(());
    };
    push_octets(text, b" client=")?;
    Ok(push_decimal(text, u64::from(client) + 1)?)
}

// Where the datagram came from, and to.
fn push_origin(text: &mut Vec<u8>, origin: Option<Origin>) -> io::Result<()>
    ensures { OnOk result (text.new.items ≡
        text.old.items ++ field (codes " source=") origin_text origin) }
{
    let Some(origin) = origin else {
        return Ok(());
    };
    push_octets(text, b" source=")?;
    push_source(text, origin)?;
    push_octets(text, b" port=")?;
    push_octets(text, door_name(origin.door))
}

// The address and the port that a datagram came from.
fn push_source(text: &mut Vec<u8>, origin: Origin) -> io::Result<()>
    ensures { OnOk result (text.new.items ≡ text.old.items ++ source_text origin) }
{
    rad_replay::push_address(text, origin.source)?;
    push_octets(text, b":")?;
    Ok(push_decimal(text, u64::from(origin.port))?)
}

// The address of the session.
fn push_session_address(text: &mut Vec<u8>, address: Option<u32>) -> io::Result<()>
    ensures { OnOk result (text.new.items ≡
        text.old.items ++ field (codes " address=") address_text address) }
{
    let Some(address) = address else {
        return Ok(());
    };
    push_octets(text, b" address=")?;
    Ok(rad_replay::push_address(text, address)?)
}

/// Appends an IPv4 address, most significant octet first, or `-`.
pub(crate) fn push_address(text: &mut Vec<u8>, address: Option<u32>) -> io::Result<()>
    ensures { OnOk result (text.new.items ≡
        text.old.items ++ option_map_or address_text address (codes "-")) }
{
    match address {
        Some(address) => Ok(rad_replay::push_address(text, address)?),
        None => push_octets(text, b"-"),
    }
}

/// Appends octets as they are.
pub(crate) fn push_octets(text: &mut Vec<u8>, octets: &[u8]) -> io::Result<()>
    ensures { OnOk result (text.new.items ≡ text.old.items ++ octets.now) }
{
    Ok(text.extend_from_slice(octets)?)
}

fn push_number(text: &mut Vec<u8>, key: &[u8], number: Option<u64>) -> io::Result<()>
    ensures { OnOk result (text.new.items ≡ text.old.items ++ field key.now decimal number) }
{
    let Some(number) = number else {
        return Ok(());
    };
    push_octets(text, key)?;
    Ok(push_decimal(text, number)?)
}

fn push_text(text: &mut Vec<u8>, key: &[u8], octets: Option<&[u8]>) -> io::Result<()>
    ensures { OnOk result (text.new.items ≡
        text.old.items ++ field key.now quoted (option_copied octets.entry)) }
{
    let Some(octets) = octets else {
        return Ok(());
    };
    push_octets(text, key)?;
    push_quoted(text, octets)
}

/// Appends octets that others may have chosen, between quotes: none of them can end the quotes or a line.
pub fn push_quoted(text: &mut Vec<u8>, octets: &[u8]) -> io::Result<()>
    ensures { OnOk result (text.new.items ≡ text.old.items ++ quoted octets.now) }
{
    push_octets(text, b"\"")?;
    push_shown(text, octets)?;
    push_octets(text, b"\"")
}
