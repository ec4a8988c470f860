//! Clients, and what they send.

/// The address of the first client, 192.168.1.16.
pub const CLIENT: u32 = 0xC0A8_0110;

/// The address of the second client, 192.168.1.20.
pub const SECOND_CLIENT: u32 = 0xC0A8_0114;

/// 192.168.1.17, which is no client's.
pub const STRANGER: u32 = 0xC0A8_0111;

/// The port that requests come from where it doesn't matter.
pub const PORT: u16 = 1645;

/// The secret of the first client: that of the RFCs' examples.
pub const SECRET: &[u8; 9] = b"xyzzy5461";

/// A secret of more than 64 octets, so that a key is its digest.
pub const OTHER_SECRET: &[u8; 77] =
    b"a secret of more than sixty-four octets, which is digested before it is a key";

/// The Request Authenticator of RFC 2865, section 7.1.
pub const REQUEST_AUTHENTICATOR: &[u8; 16] =
    b"\x0f\x40\x3f\x94\x73\x97\x80\x57\xbd\x83\xd5\xcb\x98\xf4\x22\x7a";

/// The Access-Request of RFC 2865, section 7.1: nemo's.
pub const RFC_REQUEST: &[u8; 56] = b"\
    \x01\x00\x00\x38\
    \x0f\x40\x3f\x94\x73\x97\x80\x57\xbd\x83\xd5\xcb\x98\xf4\x22\x7a\
    \x01\x06nemo\
    \x02\x12\x0d\xbe\x70\x8d\x93\xd4\x13\xce\x31\x96\xe4\x3f\x78\x2a\x0a\xee\
    \x04\x06\xc0\xa8\x01\x10\
    \x05\x06\x00\x00\x00\x03";

/// A Status-Server with Identifier 0 and an Authenticator of zeros. Its HMAC was made with Python's `hmac`.
pub const STATUS_SERVER: &[u8; 38] = b"\
    \x0c\x00\x00\x26\
    \x00\x00\x00\x00\x00\x00\x00\x00\x00\x00\x00\x00\x00\x00\x00\x00\
    \x50\x12\x1b\x46\xac\x6e\x2d\x06\x9e\x88\x1c\x85\xe2\x2b\x93\x5d\x46\x55";

/// The draw of a step where it doesn't matter.
pub const DRAW: &[u8; 16] = b"\0\0\0\0\0\0\0\0\0\0\0\0\0\0\0\x01";
