//! Lines of which at most a hundred are told.

use std::alloc::{AllocError, Global};

/// How many are told.
const MOST: usize = 100;

/// Lines, of which at most a hundred are told.
#[derive(Drop)]
pub struct Lines {
    /// Those that are told.
    pub told: Vec<String>,
    /// How many more there are.
    more: usize,
}

impl Lines {
    ghost use Rattle.std.specs.Prelude.{◌≡◌, length, nat_lt};
    ghost use Rattle.lfs_survey.specs.Told.{counted, more_lines, most_lines};

    /// No lines.
    pub fn new(alloc: Global) -> Lines {
        Lines {
            told: Vec::new(alloc),
            more: 0,
        }
    }

    /// Whether there is room for one more; else it is counted.
    pub fn takes_one(&mut self) -> bool
        ensures room { result ≡ nat_lt (length self.old.told.items) most_lines }
        ensures told { self.new.told ≡ self.old.told }
        ensures counted { more_lines self.new ≡ counted result (more_lines self.old) }
    {
        if self.told.len() < MOST {
            return true;
        }
        self.more = self.more.saturating_add(1);
        false
    }

    /// Adds a line, where there is one. Takes memory.
    pub fn add(&mut self, line: Option<String>) -> Result<(), AllocError> {
        if let Some(line) = line {
            self.told.push(line)?;
        }
        Ok(())
    }

    /// The lines, and behind them how many more there are, and what is said of these. Takes memory.
    pub fn ended(self, alloc: Global, words: &str) -> Result<Vec<String>, AllocError> {
        let Lines { mut told, more } = self;
        if more > 0 {
            told.push(format!(in alloc; "{more} more {words}")?)?;
        }
        Ok(told)
    }
}
