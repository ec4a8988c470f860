//! Types of attributes that only a record has.

/// RFC 2865, section 5.30.
pub(crate) const CALLED_STATION_ID: u8 = 30;

/// RFC 2865, section 5.31.
pub(crate) const CALLING_STATION_ID: u8 = 31;

/// RFC 2865, section 5.32.
pub(crate) const NAS_IDENTIFIER: u8 = 32;

/// RFC 2866, section 5.2.
pub(crate) const ACCT_DELAY_TIME: u8 = 41;

/// RFC 2866, section 5.3.
pub(crate) const ACCT_INPUT_OCTETS: u8 = 42;

/// RFC 2866, section 5.4.
pub(crate) const ACCT_OUTPUT_OCTETS: u8 = 43;

/// RFC 2866, section 5.5.
pub(crate) const ACCT_SESSION_ID: u8 = 44;

/// RFC 2866, section 5.7.
pub(crate) const ACCT_SESSION_TIME: u8 = 46;

/// RFC 2866, section 5.8.
pub(crate) const ACCT_INPUT_PACKETS: u8 = 47;

/// RFC 2866, section 5.9.
pub(crate) const ACCT_OUTPUT_PACKETS: u8 = 48;

/// RFC 2866, section 5.10.
pub(crate) const ACCT_TERMINATE_CAUSE: u8 = 49;

/// RFC 2866, section 5.11.
pub(crate) const ACCT_MULTI_SESSION_ID: u8 = 50;

/// RFC 2869, section 5.1.
pub(crate) const ACCT_INPUT_GIGAWORDS: u8 = 52;

/// RFC 2869, section 5.2.
pub(crate) const ACCT_OUTPUT_GIGAWORDS: u8 = 53;

/// RFC 2869, section 5.17.
pub(crate) const NAS_PORT_ID: u8 = 87;
