//! The rows of records.
ghost use Rattle.std.specs.Prelude.{◌≡◌, ◌++◌, ◌∷◌, [], pos, OnOk, option_copied};
ghost use Rattle.sqlite_value.specs.Value.{owned};
ghost use Rattle.sqlite_value.specs.declared.value.Value.TheVariants.{Int, Null};
ghost use Rattle.rad_accounting.specs.Records.{grant_row, number_of, number_value, octets_of, octets_value, report_row};
ghost use Rattle.rad_accounting.specs.Records.{session_value, text_of, text_value};

use crate::firsts::Firsts;
use crate::kinds::{
    ACCT_DELAY_TIME, ACCT_INPUT_GIGAWORDS, ACCT_INPUT_OCTETS, ACCT_INPUT_PACKETS,
    ACCT_MULTI_SESSION_ID, ACCT_OUTPUT_GIGAWORDS, ACCT_OUTPUT_OCTETS, ACCT_OUTPUT_PACKETS,
    ACCT_SESSION_ID, ACCT_SESSION_TIME, ACCT_TERMINATE_CAUSE, CALLED_STATION_ID,
    CALLING_STATION_ID, NAS_IDENTIFIER, NAS_PORT_ID,
};
use crate::occasion::Occasion;
use rad_packet::Packet;
use rad_packet::attribute::{
    ACCT_STATUS_TYPE, FRAMED_IP_ADDRESS, NAS_IP_ADDRESS, NAS_PORT, USER_NAME,
};
use sqlite_value::row::Row;
use sqlite_value::value::ValueRef;
use std::alloc::AllocError;
use std::str;

/// Makes the row of what is recorded of an Accounting-Request.
///
/// Its columns: entry, which is the rowid and stored as NULL, time, client, source, user, session, status, acct_session_id,
/// acct_multi_session_id, address, nas_address, nas_identifier, nas_port, nas_port_id, calling_station_id, called_station_id,
/// session_time, octets_in, octets_out, packets_in, packets_out, terminate_cause, delay. Addresses have their most significant
/// octet first. Octets have their Gigawords in them. A text is a blob where it is no UTF-8. Source: RFC 2866, section 5, and RFC
/// 2869, section 5.
pub fn fill(row: &mut Row, occasion: &Occasion, packet: &Packet) -> Result<(), AllocError>
    ensures { OnOk result (row.new ≡ report_row occasion.now packet.now.attributes) }
{
    let firsts = Firsts::of(packet);
    begin(row, occasion, firsts.value(USER_NAME))?;
    push_number(row, &firsts, ACCT_STATUS_TYPE)?;
    push_text(row, &firsts, ACCT_SESSION_ID)?;
    push_text(row, &firsts, ACCT_MULTI_SESSION_ID)?;
    push_number(row, &firsts, FRAMED_IP_ADDRESS)?;
    push_number(row, &firsts, NAS_IP_ADDRESS)?;
    push_text(row, &firsts, NAS_IDENTIFIER)?;
    push_number(row, &firsts, NAS_PORT)?;
    push_text(row, &firsts, NAS_PORT_ID)?;
    push_text(row, &firsts, CALLING_STATION_ID)?;
    push_text(row, &firsts, CALLED_STATION_ID)?;
    push_number(row, &firsts, ACCT_SESSION_TIME)?;
    push_octets(row, &firsts, ACCT_INPUT_OCTETS, ACCT_INPUT_GIGAWORDS)?;
    push_octets(row, &firsts, ACCT_OUTPUT_OCTETS, ACCT_OUTPUT_GIGAWORDS)?;
    push_number(row, &firsts, ACCT_INPUT_PACKETS)?;
    push_number(row, &firsts, ACCT_OUTPUT_PACKETS)?;
    push_number(row, &firsts, ACCT_TERMINATE_CAUSE)?;
    push_number(row, &firsts, ACCT_DELAY_TIME)?;
    Ok(())
}

/// Makes the row of what is recorded of an Access-Request that is granted a session, with the address that it is granted, if any.
///
/// Its columns: entry, which is the rowid and stored as NULL, time, client, source, user, session, address, calling_station_id.
/// Source: RFC 2865, section 5.
pub fn fill_grant(
    row: &mut Row,
    occasion: &Occasion,
    address: Option<u32>,
    packet: &Packet,
) -> Result<(), AllocError>
    ensures { OnOk result (row.new ≡ grant_row occasion.now address packet.now.attributes) }
{
    begin(row, occasion, packet.first(USER_NAME))?;
    row.push(number(address))?;
    row.push(text(packet.first(CALLING_STATION_ID)))?;
    Ok(())
}

// Makes the columns with which each row begins: when and from whom the request came, its User-Name, and the session.
fn begin(row: &mut Row, occasion: &Occasion, user: Option<&[u8]>) -> Result<(), AllocError>
    ensures { OnOk result (row.new ≡ Int (pos occasion.now.entry)
        ∷ Null
        ∷ Int occasion.now.time
        ∷ Int (pos occasion.now.client)
        ∷ Int (pos occasion.now.source)
        ∷ text_value (option_copied user.entry)
        ∷ session_value occasion.now.session
        ∷ []) }
{
    row.clear();
    row.push(ValueRef::Int(i64::from(occasion.entry)))?;
    // The column of the rowid itself.
    row.push(ValueRef::Null)?;
    row.push(ValueRef::Int(occasion.time))?;
    row.push(ValueRef::Int(i64::from(occasion.client)))?;
    row.push(ValueRef::Int(i64::from(occasion.source)))?;
    row.push(text(user))?;
    row.push(session(occasion.session))?;
    Ok(())
}

// Appends the text of the first attribute of a Type.
fn push_text(row: &mut Row, firsts: &Firsts, kind: u8) -> Result<(), AllocError>
    ensures { OnOk result (row.new
        ≡ row.old ++ text_of kind firsts.now.packet.now.attributes ∷ []) }
{
    row.push(text(firsts.value(kind)))
}

// Appends the number that the first attribute of a Type is.
fn push_number(row: &mut Row, firsts: &Firsts, kind: u8) -> Result<(), AllocError>
    ensures { OnOk result (row.new
        ≡ row.old ++ number_of kind firsts.now.packet.now.attributes ∷ []) }
{
    row.push(number(firsts.integer(kind)))
}

// Appends the octets that attributes of two Types count.
fn push_octets(row: &mut Row, firsts: &Firsts, low: u8, gigawords: u8) -> Result<(), AllocError>
    ensures { OnOk result (row.new
        ≡ row.old ++ octets_of low gigawords firsts.now.packet.now.attributes ∷ []) }
{
    row.push(octets(firsts.integer(low), firsts.integer(gigawords)))
}

// A text, or what is no text.
fn text(octets: Option<&[u8]>) -> ValueRef<'_>
    ensures { owned result ≡ text_value (option_copied octets.entry) }
{
    let Some(octets) = octets else {
        return ValueRef::Null;
    };
    match str::from_utf8(octets) {
        Ok(_) => ValueRef::Text(octets),
        Err(_) => ValueRef::Blob(octets),
    }
}

// A number.
fn number(number: Option<u32>) -> ValueRef<'static>
    ensures { owned result ≡ number_value number }
{
    match number {
        Some(number) => ValueRef::Int(i64::from(number)),
        None => ValueRef::Null,
    }
}

// The number of a session.
fn session(number: Option<i64>) -> ValueRef<'static>
    ensures { owned result ≡ session_value number }
{
    match number {
        Some(number) => ValueRef::Int(number),
        None => ValueRef::Null,
    }
}

// A count of octets, which wrapped around so many times.
fn octets(low: Option<u32>, gigawords: Option<u32>) -> ValueRef<'static>
    ensures { owned result ≡ octets_value low gigawords }
{
    let Some(low) = low else {
        return ValueRef::Null;
    };
    let all = u64::from(gigawords.unwrap_or(0)) * 0x1_0000_0000 + u64::from(low);
    match i64::try_from(all) {
        Ok(all) => ValueRef::Int(all),
        Err(_) => ValueRef::Null,
    }
}
