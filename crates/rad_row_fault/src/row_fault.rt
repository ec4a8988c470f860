//! The rules that a row which is put back may break.
use thiserror::Error;

/// The first rule that a row breaks, or `NoMemory`.
///
/// Each kind of row has its rules in an order of its own. `NoMemory` is reported only where the row breaks none.
#[derive(Clone, Copy, Debug, PartialEq, Eq, Error)]
pub enum RowFault {
    /// The number isn't above those that were given; or, of a last number, a greater one was given.
    #[error("the number was given before")]
    Number = 1,
    /// The client is no place of the configuration.
    #[error("there is no such client")]
    Client = 2,
    /// The reply doesn't take the share of its source's client.
    #[error("the source isn't the client's")]
    Owner = 3,
    /// The user is no place of the configuration.
    #[error("there is no such user")]
    User = 4,
    /// The row was made or seen after the clock, or a session was seen before it was made.
    #[error("its moments don't fit the clock")]
    Moments = 5,
    /// The session's address isn't in its user's pool.
    #[error("the address isn't in the user's pool")]
    AddressOutside = 6,
    /// Another session has the address.
    #[error("another session has the address")]
    AddressHeld = 7,
    /// The user has as many sessions, open ones or any, as the configuration allows.
    #[error("the user has as many sessions as allowed")]
    SessionLimit = 8,
    /// A reply to a request with the same source, port, door and Identifier is kept.
    #[error("another reply with this key is kept")]
    Key = 9,
    /// The reply is none that can be sealed.
    #[error("the reply can't be sent")]
    Body = 10,
    /// The request is a Status-Server, whose replies aren't kept.
    #[error("no reply to a Status-Server is kept")]
    Request = 11,
    /// No session has the address that the reply gives, the number of its Class and its moment.
    #[error("the reply's session isn't there")]
    Session = 12,
    /// The challenge's user has no answer in the configuration.
    #[error("the user has no answer")]
    Answer = 13,
    /// The client, or the challenge's user, has as many rows as the configuration allows.
    #[error("the client or the user has as many as allowed")]
    Share = 14,
    /// The table has as many rows as it may have.
    #[error("the table is full")]
    Full = 15,
    /// An allocation failed.
    #[error("out of memory")]
    NoMemory = 16,
}
