//! The verdict on one datagram, as the table of discards has it: check after check, with plain digests.

use super::{Client, Verdict};
use md5::{Digest, Md5};
use rad_auth::Discard::{
    BadAttributes, BadAuthenticator, BadLength, BadMessageAuthenticator, NoMessageAuthenticator,
    NoStatusType, ProxyStateTooLong, Short, Truncated, UnknownClient, WrongCode,
};
use rad_auth::{Discard, Door};
use rad_packet::attribute::{ACCT_STATUS_TYPE, EAP_MESSAGE, MESSAGE_AUTHENTICATOR, PROXY_STATE};
use rad_packet::code::{ACCESS_REQUEST, ACCOUNTING_REQUEST, STATUS_SERVER};

/// The verdict on a datagram. Secrets have at most 64 octets here.
pub(super) fn plain_verdict(
    clients: &[Client],
    source: u32,
    door: Door,
    datagram: &[u8],
) -> Verdict {
    let mut place: u32 = 0;
    for client in clients.iter() {
        if client.0 == source {
            let identifier = identifier_of(client, door, datagram)?;
            return Ok((place, identifier));
        }
        place = place.saturating_add(1);
    }
    Err(UnknownClient)
}

// The Identifier of a client's request, or the first discard.
fn identifier_of(client: &Client, door: Door, datagram: &[u8]) -> Result<u8, Discard> {
    let packet = packet_in(datagram)?;
    let found = found_in(packet.attributes).ok_or(BadAttributes)?;
    match discard_of(client, door, &packet, &found) {
        None => Ok(packet.identifier),
        Some(discard) => Err(discard),
    }
}

// A packet's parts. The header is Code, Identifier and Length.
#[derive(Clone, Copy)]
struct Parts<'a> {
    code: u8,
    identifier: u8,
    header: &'a [u8],
    authenticator: &'a [u8],
    attributes: &'a [u8],
}

fn packet_in(datagram: &[u8]) -> Result<Parts<'_>, Discard> {
    if datagram.len() < 20 {
        return Err(Short);
    }
    let len = u16::from_be_bytes([datagram[2], datagram[3]]) as usize;
    if len < 20 || 4096 < len {
        return Err(BadLength);
    }
    if datagram.len() < len {
        return Err(Truncated);
    }
    Ok(Parts {
        code: datagram[0],
        identifier: datagram[1],
        header: &datagram[..4],
        authenticator: &datagram[4..20],
        attributes: &datagram[20..len],
    })
}

// What is found in attributes: Message-Authenticators, of which the last has this Value and these octets after it, whether an
// EAP-Message and an Acct-Status-Type of 4 octets, and how many octets of Proxy-States.
#[derive(Clone, Copy)]
struct Found<'a> {
    signatures: usize,
    signature: &'a [u8],
    after: &'a [u8],
    has_eap_message: bool,
    has_status_type: bool,
    proxy_states: usize,
}

const NOTHING: Found<'static> = Found {
    signatures: 0,
    signature: &[],
    after: &[],
    has_eap_message: false,
    has_status_type: false,
    proxy_states: 0,
};

// Nothing is found in octets that aren't whole attributes.
fn found_in(attributes: &[u8]) -> Option<Found<'_>> {
    let mut found = NOTHING;
    let mut rest = attributes;
    for _ in 0..attributes.len() {
        if rest.is_empty() {
            return Some(found);
        }
        let (kind, value, after) = split_first(rest)?;
        found = with(found, kind, value, after);
        rest = after;
    }
    Some(found)
}

// The first attribute's Type and Value, and the octets after it.
fn split_first(octets: &[u8]) -> Option<(u8, &[u8], &[u8])> {
    let [kind, len, ..] = octets else {
        return None;
    };
    let (attribute, after) = octets.split_at_checked(*len as usize)?;
    let value = attribute.get(2..)?;
    Some((*kind, value, after))
}

fn with<'a>(found: Found<'a>, kind: u8, value: &'a [u8], after: &'a [u8]) -> Found<'a> {
    let mut found = found;
    match kind {
        MESSAGE_AUTHENTICATOR => {
            found.signatures = found.signatures.saturating_add(1);
            found.signature = value;
            found.after = after;
        }
        EAP_MESSAGE => found.has_eap_message = true,
        ACCT_STATUS_TYPE => found.has_status_type = found.has_status_type || value.len() == 4,
        PROXY_STATE => {
            found.proxy_states = found
                .proxy_states
                .saturating_add(value.len())
                .saturating_add(2);
        }
        _ => {}
    }
    found
}

// The first discard that applies to a packet.
fn discard_of(client: &Client, door: Door, packet: &Parts, found: &Found) -> Option<Discard> {
    let (_, secret, is_strict) = *client;
    let is_accounting = packet.code == ACCOUNTING_REQUEST;
    let is_access = packet.code == ACCESS_REQUEST;
    let has_signature = found.signatures > 0;
    if !is_taken(door, packet.code) {
        Some(WrongCode)
    } else if is_accounting && !has_digest(packet, secret) {
        Some(BadAuthenticator)
    } else if !is_accounting && has_signature && !is_signed(packet, found, secret) {
        Some(BadMessageAuthenticator)
    } else if !is_accounting
        && !has_signature
        && (!is_access || found.has_eap_message || is_strict)
    {
        Some(NoMessageAuthenticator)
    } else if is_accounting && !found.has_status_type {
        Some(NoStatusType)
    } else if found.proxy_states > 3584 {
        Some(ProxyStateTooLong)
    } else {
        None
    }
}

fn is_taken(door: Door, code: u8) -> bool {
    match door {
        Door::Auth => code == ACCESS_REQUEST || code == STATUS_SERVER,
        Door::Acct => code == ACCOUNTING_REQUEST || code == STATUS_SERVER,
    }
}

// RFC 2866, section 3.
fn has_digest(packet: &Parts, secret: &[u8]) -> bool {
    let zeros = [0; 16];
    let mut hasher = Md5::new();
    hasher.update(packet.header);
    hasher.update(zeros.as_slice());
    hasher.update(packet.attributes);
    hasher.update(secret);
    packet.authenticator == hasher.finalize().as_slice()
}

// RFC 3579, section 3.2.
fn is_signed(packet: &Parts, found: &Found, secret: &[u8]) -> bool {
    match before_signature(packet, found) {
        None => false,
        Some(before) => {
            let hmac = hmac_of(packet, before, found.after, secret);
            found.signatures == 1 && found.signature == hmac.as_slice()
        }
    }
}

// The attributes up to the Value of the Message-Authenticator.
fn before_signature<'a>(packet: &Parts<'a>, found: &Found) -> Option<&'a [u8]> {
    packet
        .attributes
        .strip_suffix(found.after)?
        .strip_suffix(found.signature)
}

// RFC 2104, section 2. The Message-Authenticator is of zeros.
fn hmac_of(packet: &Parts, before: &[u8], after: &[u8], secret: &[u8]) -> [u8; 16] {
    let (inner, zeros) = (padded(secret, 0x36), [0; 16]);
    let mut hasher = Md5::new();
    hasher.update(inner.as_slice());
    hasher.update(packet.header);
    hasher.update(packet.authenticator);
    hasher.update(before);
    hasher.update(zeros.as_slice());
    hasher.update(after);
    outer_digest(secret, &hasher.finalize())
}

fn outer_digest(secret: &[u8], digest: &[u8; 16]) -> [u8; 16] {
    let outer = padded(secret, 0x5c);
    let mut hasher = Md5::new();
    hasher.update(outer.as_slice());
    hasher.update(digest.as_slice());
    hasher.finalize()
}

fn padded(key: &[u8], octet: u8) -> [u8; 64] {
    let mut padded = [octet; 64];
    for place in 0..key.len().min(64) {
        padded[place] ^= key[place];
    }
    padded
}
