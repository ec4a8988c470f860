//! Transcripts of datagrams: `run_replay` answers one, `Make` makes the requests for one.
//!
//! A transcript has a configuration, a line `---`, and a line for each datagram. A replay admits each datagram by `rad_auth`,
//! lets the step answer it, and seals the reply. The programs above hand in a reader, a writer and options.
//!
//! Others rest on this: what `run_replay` writes is what `specs/Transcripts.antt` says of what it reads, and the datagram
//! line that `push_datagram_text` writes is read as that datagram.
#![tactic(auto)]

mod answering;
mod datagram_line;
mod datagram_text;
mod make;
mod output_line;
mod replay;
mod run_fault;

pub use datagram_line::{DatagramLine, read_datagram_line};
pub use datagram_text::{
    datagram_texts_are_read, door_name, draw_needed, push_address, push_datagram_text, push_decimal,
};
pub use make::{KINDS, Kind, Make, MakeFault};
pub use replay::run_replay;
pub use run_fault::RunFault;
