//! The rows of a text, one after the other.

use crate::fault::{BadLine, Fault};
use crate::line::{Line, read_line};
use crate::row::Row;
use std::alloc::Global;
use std::io::Write;
use std::sync::Wait;
use std::thread::Threads;

/// Runs the rows of a text, and writes what each run gives. Ends at the first line that has no form or is out of place.
pub fn run_rows<R: Threads + Wait + Sync + AllocGlobal, W: Write>(
    rt: &R,
    text: &str,
    out: &mut W,
) -> Result<(), BadLine> {
    let mut row = None;
    let mut line = 0;
    for (line_text, number) in text.split('\n').zip(1u64..) {
        line = number;
        row = match run_line(rt, rt.alloc(), row, line_text, out) {
            Ok(row) => row,
            Err(fault) => return Err(BadLine { line, fault }),
        };
    }
    match end_row(&row).and_then(|()| Ok(out.flush()?)) {
        Ok(()) => Ok(()),
        Err(fault) => Err(BadLine { line, fault }),
    }
}

/// Does what a line says, and returns the row that the next line belongs to.
fn run_line<R: Threads + Wait + Sync, W: Write>(
    rt: &R,
    alloc: Global,
    row: Option<Row>,
    line: &str,
    out: &mut W,
) -> Result<Option<Row>, Fault> {
    match (read_line(alloc, line)?, row) {
        (Line::Passed, row) => Ok(row),
        (Line::Row(name), row) => {
            end_row(&row)?;
            if row.is_some() {
                writeln!(out)?;
            }
            writeln!(out, "row {name}")?;
            Ok(Some(Row::new(alloc)))
        }
        (Line::Input(part), Some(mut row)) => {
            row.add(&part)?;
            Ok(Some(row))
        }
        (Line::Run(run), Some(mut row)) => {
            writeln!(out, "{line}")?;
            row.run(rt, alloc, run, out)?;
            Ok(Some(row))
        }
        (Line::With(part), Some(row)) => {
            writeln!(out, "{line}")?;
            row.run_with(rt, alloc, &part, out)?;
            Ok(Some(row))
        }
        (_, None) => Err(Fault::NoRow),
    }
}

/// Ends a row, where there is one. It was run by then.
fn end_row(row: &Option<Row>) -> Result<(), Fault> {
    match row {
        Some(row) if !row.was_run() => Err(Fault::NoRun),
        _ => Ok(()),
    }
}
