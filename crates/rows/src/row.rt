//! A row: its input, and how it is run.

use crate::fault::Fault;
use crate::line::{Part, Run};
use crate::run::run_input;
use std::alloc::Global;
use std::io::Write;
use std::sync::Wait;
use std::thread::Threads;

/// A row of which some lines were read.
#[derive(Debug, Drop)]
pub struct Row {
    input: Vec<u8>,
    /// Its last run.
    last: Option<Run>,
}

impl Row {
    /// A row without input.
    pub fn new(alloc: Global) -> Row {
        Row {
            input: Vec::new(alloc),
            last: None,
        }
    }

    /// Whether it was run.
    pub fn was_run(&self) -> bool {
        self.last.is_some()
    }

    /// Adds a part to its input.
    pub fn add(&mut self, part: &Part) -> Result<(), Fault> {
        part.add_to(&mut self.input)
    }

    /// Runs it, and writes what it gives.
    pub fn run<R: Threads + Wait + Sync, W: Write>(
        &mut self,
        rt: &R,
        alloc: Global,
        run: Run,
        out: &mut W,
    ) -> Result<(), Fault> {
        run_input(rt, alloc, self.input.as_slice(), &run, out)?;
        self.last = Some(run);
        Ok(())
    }

    /// Repeats its last run with a part behind its input, which stays as it was, and writes what it gives.
    pub fn run_with<R: Threads + Wait + Sync, W: Write>(
        &self,
        rt: &R,
        alloc: Global,
        part: &Part,
        out: &mut W,
    ) -> Result<(), Fault> {
        let Some(run) = &self.last else {
            return Err(Fault::NoRun);
        };
        let mut input = Vec::from_slice(alloc, self.input.as_slice())?;
        part.add_to(&mut input)?;
        run_input(rt, alloc, input.as_slice(), run, out)
    }
}
