//! Standard input, output and error that are closed.

use std::fs::File;
use std::io::{self, ErrorKind};
use std::os::fd::AsRawFd;

/// The folder that takes the descriptors: it is always there, and is neither read nor written as a file.
const FOLDER: &str = "/";

/// What takes the descriptors of standard input, output and error where these are closed, so that no other file of the program
/// gets one of them.
#[derive(Drop)]
pub struct Closed {
    input: Option<File>,
    output: Option<File>,
    error: Option<File>,
}

/// What is said of one that is closed.
pub fn is_closed() -> io::Error {
    io::Error::new(ErrorKind::NotConnected, "it is closed")
}

impl Closed {
    /// Takes the descriptors of those that are closed. The caller opens no file before it.
    pub fn new(rt: &HostRuntime) -> Closed {
        let mut closed = Closed {
            input: None,
            output: None,
            error: None,
        };
        for _ in 0..3 {
            let is_taken = match File::open(rt, FOLDER) {
                Ok(file) => closed.take(file),
                Err(_) => false,
            };
            if !is_taken {
                return closed;
            }
        }
        closed
    }

    /// Keeps a file that got one of these descriptors; answers whether it did.
    fn take(&mut self, file: File) -> bool {
        match file.as_raw_fd() {
            0 => self.input = Some(file),
            1 => self.output = Some(file),
            2 => self.error = Some(file),
            _ => return false,
        }
        true
    }

    /// Whether standard input is closed. What is printed where standard output is closed fails by itself.
    pub fn is_input(&self) -> bool {
        self.input.is_some()
    }
}
