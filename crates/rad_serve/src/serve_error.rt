//! Why serving ended early, or never began.

use crate::held::HeldFault;
use crate::udp_ports::BindFault;
use crate::unbound::Unbound;
use rad_config::ConfigFault;
use rad_journal::RestoreFault;
use rad_shell::ServeFault;
use rad_state::OpenFault;
use rad_watch::FailedPort;
use std::alloc::AllocError;
use thiserror::Error;

/// Why `serve` ended before its last round. Those before `Rounds` are reported before anything is served, and in this order, but
/// that refused memory is reported where it happens.
#[derive(Clone, Copy, Debug, Error)]
pub enum ServeError {
    /// Memory was refused before the first turn.
    #[error("out of memory")]
    NoMemory,
    /// The boot's id or its clock can't be read.
    #[error("the boot's id or its clock can't be read")]
    Clocks,
    /// The state can't be opened, gone on from or begun.
    #[error(transparent)]
    State(OpenFault),
    /// The configuration under which the state was kept isn't one of this program.
    #[error("the state's own configuration: {0}")]
    OtherConfig(ConfigFault),
    /// The journal of the state doesn't lead to a server.
    #[error(transparent)]
    Restore(RestoreFault),
    /// A port can't be bound.
    #[error("bind failed")]
    Bind(Unbound),
    /// The sockets that the process was given can't be served.
    #[error(transparent)]
    Held(HeldFault),
    /// The rounds ended with a fault. If a port failed, which one and why.
    #[error("{0}")]
    Rounds(ServeFault, Option<FailedPort>),
}

impl From<AllocError> for ServeError {
    fn from(_error: AllocError) -> ServeError {
        ServeError::NoMemory
    }
}

impl From<OpenFault> for ServeError {
    fn from(fault: OpenFault) -> ServeError {
        ServeError::State(fault)
    }
}

impl From<RestoreFault> for ServeError {
    fn from(fault: RestoreFault) -> ServeError {
        ServeError::Restore(fault)
    }
}

impl From<BindFault> for ServeError {
    fn from(fault: BindFault) -> ServeError {
        match fault {
            BindFault::NoMemory => ServeError::NoMemory,
            BindFault::Bind(unbound) => ServeError::Bind(unbound),
            BindFault::Held(fault) => ServeError::Held(fault),
        }
    }
}
