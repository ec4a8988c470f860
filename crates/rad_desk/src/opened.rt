//! Which ledger a desk counts in, and how it opened.
ghost use Rattle.rad_server.specs.Servers.{Server};

use std::marker::Brand;
use std::sync::ledger::Ledger;

/// A ledger, and the server that its desk began as: configuration and state. Contracts alone see both.
pub trait Opened: Ledger {
    ghost opening: { Server };
}

impl Opened for Brand {
    ghost use Rattle.rad_desk.specs.Desks.{some_server};

    ghost opening = { some_server };
}
