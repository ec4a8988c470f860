//! Why a command ended without having done all that was asked.

use rad_config::ConfigFault;
use thiserror::Error;

/// Why a command ended early. A replay reports the first four in this order, before any datagram is answered; `make` reports
/// only `Write` and `NoMemory`.
#[derive(Clone, Copy, Debug, PartialEq, Eq, Error)]
pub enum RunFault {
    /// The reader failed. Nothing was written.
    #[error("read failed")]
    Read,
    /// The input has more than 16,777,216 octets. Nothing was written.
    #[error("input too long")]
    TooLong,
    /// No line is `---`. Nothing was written.
    #[error("no divider")]
    NoDivider,
    /// The configuration has a fault. Nothing was written.
    #[error(transparent)]
    Config(ConfigFault),
    /// The datagram line with this number, counted from 1, is malformed. The lines of the datagrams before it were written.
    #[error("datagram {0} is malformed")]
    BadLine(u64),
    /// The writer failed, or took no octet. A front of the lines of some first datagrams was written.
    #[error("write failed")]
    Write,
    /// Memory was refused. Nothing was written.
    #[error("out of memory")]
    NoMemory,
}
