//! An editor for images of littlefs.
#![tactic(auto)]

mod cli;
mod explaining;
mod json_word;
mod tips;
mod usage_line;
mod way;

use crate::cli::{USAGE, cli as run_words};
use crate::json_word::asks_for_json;
use crate::usage_line::UsageLine;
use lfs_command::Refusal;
use lfs_exchange::report;
use lfs_host::Host;
use lfs_request::Fault;
use lfs_system::Terminal;
use std::env::Env;
use std::io::ErrorKind;
use std::process::ExitCode;
use std::{env, io};

/// The word that asks for JSON.
const JSON: &[u8; 6] = b"--json";

fn main(rt: HostRuntime) -> ExitCode {
    ExitCode::from(status(&rt))
}

/// Hands the program's arguments on, and answers the status to end with.
fn status(rt: &HostRuntime) -> u8 {
    match words(rt) {
        Ok(words) => {
            let mut terminal = Terminal::new(rt, asks_for_json(&words));
            run_words(rt.alloc(), &mut terminal, words)
        }
        Err(error) => without_words(&mut Terminal::new(rt, is_json_asked(rt)), error),
    }
}

/// Tells why the arguments can't be had, and answers the status.
fn without_words(terminal: &mut Terminal<'_>, error: io::Error) -> u8 {
    if error.kind() == ErrorKind::OutOfMemory {
        return report(terminal, Fault::Refused(Refusal::Memory));
    }
    terminal.report(UsageLine {
        text: "lfsed: an argument is not UTF-8\n",
    });
    USAGE
}

/// Whether the word after the program's name asks for JSON, if other words can't be read.
fn is_json_asked(rt: &HostRuntime) -> bool {
    let mut word = [0; JSON.len()];
    match rt.arg(1, &mut word) {
        Ok(len) => &word[..len] == JSON.as_slice(),
        Err(_) => false,
    }
}

/// The program's arguments.
fn words(rt: &HostRuntime) -> io::Result<Vec<String>> {
    Ok(env::args(rt)?.collect(rt.alloc())?)
}
