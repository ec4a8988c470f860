//! The columns of a row, in the order in which a line has them.

/// Where a row has its time, in milliseconds since 1970.
pub(crate) const TIME: usize = 2;

/// Where a row has the User-Name.
pub(crate) const USER: usize = 5;

/// Where a row has the Framed-IP-Address, most significant octet first.
pub(crate) const ADDRESS: usize = 10;

/// The name of what stands before the columns: the generation that a row is from.
pub(crate) const GENERATION: &str = "generation";

/// What a column's values are.
#[derive(Clone, Copy, Debug)]
pub(crate) enum Kind {
    Number,
    /// Milliseconds since 1970.
    Time,
    /// An IPv4 address, most significant octet first.
    Address,
    Text,
    /// An Acct-Status-Type.
    Status,
    /// An Acct-Terminate-Cause.
    Cause,
}

/// A column of a row: where the row has it, counted from 0, its name, and what its values are.
#[derive(Clone, Copy, Debug)]
pub(crate) struct Column(pub usize, pub &'static str, pub Kind);

/// The columns: first what is known of a request beside its attributes, and then these, by their names in RFC 2865, 2866 and 2869.
pub(crate) const COLUMNS: &[Column] = &[
    Column(0, "entry", Kind::Number),
    Column(TIME, "time", Kind::Time),
    Column(3, "client", Kind::Number),
    Column(4, "source", Kind::Address),
    Column(6, "session", Kind::Number),
    Column(USER, "User-Name", Kind::Text),
    Column(7, "Acct-Status-Type", Kind::Status),
    Column(8, "Acct-Session-Id", Kind::Text),
    Column(9, "Acct-Multi-Session-Id", Kind::Text),
    Column(ADDRESS, "Framed-IP-Address", Kind::Address),
    Column(11, "NAS-IP-Address", Kind::Address),
    Column(12, "NAS-Identifier", Kind::Text),
    Column(13, "NAS-Port", Kind::Number),
    Column(14, "NAS-Port-Id", Kind::Text),
    Column(15, "Calling-Station-Id", Kind::Text),
    Column(16, "Called-Station-Id", Kind::Text),
    Column(17, "Acct-Session-Time", Kind::Number),
    Column(18, "Acct-Input-Octets", Kind::Number),
    Column(19, "Acct-Output-Octets", Kind::Number),
    Column(20, "Acct-Input-Packets", Kind::Number),
    Column(21, "Acct-Output-Packets", Kind::Number),
    Column(22, "Acct-Terminate-Cause", Kind::Cause),
    Column(23, "Acct-Delay-Time", Kind::Number),
];
