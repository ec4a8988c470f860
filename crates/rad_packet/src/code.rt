//! The Code of a packet.

/// RFC 2865, section 4.1.
pub const ACCESS_REQUEST: u8 = 1;

/// RFC 2865, section 4.2.
pub const ACCESS_ACCEPT: u8 = 2;

/// RFC 2865, section 4.3.
pub const ACCESS_REJECT: u8 = 3;

/// RFC 2866, section 4.1.
pub const ACCOUNTING_REQUEST: u8 = 4;

/// RFC 2866, section 4.2.
pub const ACCOUNTING_RESPONSE: u8 = 5;

/// RFC 2865, section 4.4.
pub const ACCESS_CHALLENGE: u8 = 11;

/// RFC 5997, section 3.
pub const STATUS_SERVER: u8 = 12;
