//! `radpool`: a RADIUS server. Its commands are `serve`, which answers over UDP, `check`, which checks a configuration, `replay`,
//! which answers the datagrams of a transcript, `make`, which makes such datagrams, `accounting`, which prints what a state has
//! recorded, and `state`, which closes a state.
#![tactic(auto)]

mod accounting_command;
mod advice;
mod check_command;
mod command;
mod fault;
mod generation_names;
mod held;
mod listed;
mod numbers;
mod options;
mod serve_command;
mod state_command;
mod state_copies;
mod state_files;
mod state_folder;
mod transcript_command;

use command::Next;
use std::convert::AsStr;
use std::process::ExitCode;

fn main(rt: HostRuntime) -> ExitCode {
    match command::run(&rt, rt.process()) {
        Next::End(status) => status,
        Next::Check(checking) => check_command::run_check(&rt, &rt, &checking),
        Next::Transcript(path) => transcript_command::run_transcript(&rt, &rt, path),
        Next::Serve(serving) => serve_command::run_server(&rt, &rt, &serving),
        Next::Print(printing) => accounting_command::run_accounting(&rt, &rt, &printing),
        Next::Close(folder) => state_command::run_close(&rt, &rt, folder.as_str()),
    }
}
