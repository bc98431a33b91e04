//! Tests as data: rows of words, files and the expected outcome of a run, which are run over files and streams in memory,
//! or on the system. For each file of rows that is named it prints the rows that do not hold, and how many do. The head of `data/runs.rows` says how a row is written.
//! For the word `library` it prints what the examples of the page on the crates as a library give.
#![tactic(auto)]

mod fault;
mod judging;
mod library;
mod outcome;
mod pattern;
mod row;

use crate::fault::Fault;
use crate::judging::judge;
use crate::row::{Row, is_comment};
use dcv_io::{RealFiles, read_all};
use std::env;
use std::process::ExitCode;

// The longest file of rows, in bytes.
const MOST_BYTES: u64 = 16_777_216;

// How many rows there were, and how many of them held.
#[derive(Clone, Copy)]
struct Tally {
    rows: u64,
    held: u64,
}

fn main(rt: HostRuntime) -> ExitCode {
    let Ok(arguments) = env::args(&rt) else {
        return ExitCode::FAILURE;
    };
    for name in arguments.skip(1) {
        let done = match name.as_str() {
            "library" => print_library(&rt),
            name => judge_file(&rt, name),
        };
        if let Err(fault) = done {
            // If this cannot be written either, the status alone says it.
            let _ = println!(rt; "{}: {fault}", name.as_str());
            return ExitCode::FAILURE;
        }
    }
    ExitCode::SUCCESS
}

// Prints what the examples of the library give.
fn print_library(rt: &HostRuntime) -> Result<(), Fault> {
    library::print_examples(rt).map_err(Fault::Library)
}

// Judges the rows of the file of this name.
fn judge_file(rt: &HostRuntime, name: &str) -> Result<(), Fault> {
    let bytes = read_all(rt.alloc(), &mut RealFiles::new(rt), name, MOST_BYTES)?;
    let Ok(text) = str::from_utf8(&bytes) else {
        return Err(Fault::NotUtf8);
    };
    let tally = judge_rows(rt, text)?;
    println!(rt; "{name}: {} of {} rows hold", tally.held, tally.rows)?;
    Ok(())
}

// Judges the rows of a text. Before the first row only comments may stand.
fn judge_rows(rt: &HostRuntime, text: &str) -> Result<Tally, Fault> {
    let mut tally = Tally { rows: 0, held: 0 };
    let mut row: Option<Row> = None;
    for line in text.lines() {
        if let Some(title) = line.strip_prefix("## ") {
            tally = judge_last(rt, tally, row)?;
            row = Some(Row::new(rt.alloc(), title)?);
        } else if let Some(row) = &mut row {
            row.add_line(line)?;
        } else if !is_comment(line) {
            let mut stray = Row::new(rt.alloc(), "before the first row")?;
            stray.refuse(line)?;
            row = Some(stray);
        }
    }
    judge_last(rt, tally, row)
}

// Judges the row, if there is one, and counts it.
fn judge_last(rt: &HostRuntime, tally: Tally, row: Option<Row>) -> Result<Tally, Fault> {
    let Some(row) = row else {
        return Ok(tally);
    };
    let held = judge(rt, &row)?;
    Ok(Tally {
        rows: tally.rows.saturating_add(1),
        held: tally.held.saturating_add(u64::from(held)),
    })
}
