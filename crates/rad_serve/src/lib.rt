//! Serving over UDP: the two sockets of a server, and the command that answers what comes to them.
//!
//! `UdpPorts` are the only sockets of this repository. They decide only which of them is asked next (`Asking`): what is answered is
//! `rad_shell`'s `Turns`. What a failed call on a socket means is a table for those that receive and one for those that send.
//! `serve` reads its files, takes its memory, binds the ports or takes over those that it was given, and makes the turns. Where an
//! operator is to be told of them, a `Reporter` watches the turns, and two threads write what it hands over, so that no file or
//! terminal can hold up a reply.
//!
//! No contract can say what a socket, a clock or a file gives.
#![tactic(auto)]

mod asking;
mod calls;
mod closing;
mod excess;
mod failure;
mod given;
mod given_fault;
mod held;
mod input;
mod life;
mod listening;
mod lives;
mod moments;
mod noting_reader;
mod options;
mod previewing;
mod progress;
mod receive_buffer;
mod recording;
mod reporter;
mod restored;
mod serve_error;
mod serving;
mod udp_ports;
mod unbound;
mod unreadable;
mod warner;
mod watched_generations;
mod watched_journal;
mod writer;

pub use closing::close_state;
pub use excess::{Excess, excess_of};
pub use failure::{Failure, receive_failure, send_failure};
pub use given::Given;
pub use given_fault::GivenFault;
pub use held::{Expected, HeldFault};
pub use input::open_source;
pub use lives::{Lives, live, lives_are_one_run, nothing_is_one_run};
pub use moments::Moments;
pub use options::{Options, Reports, Sockets, Workers};
pub use previewing::preview;
pub use rad_watch::{FailedPort, Level};
pub use serve_error::ServeError;
pub use serving::{serve, serve_with_state};
pub use udp_ports::{BindFault, UdpPorts};
pub use unbound::Unbound;
pub use unreadable::{FileFault, GivenFile, Unreadable};
