// Solves the blocks of a pass: reads commands from the file that the argument names, or from standard input, and prints the answer
// to each. With two files it solves both passes and compares what they publish.
#![tactic(auto)]

mod blocks;
mod comparing;
mod input;
mod questions;
mod solving;

use crate::comparing::compare_passes;
use crate::input::{read_file, read_input};
use crate::solving::solve_pass;
use anyhow::ensure;
use std::env;
use std::process::ExitCode;

fn main(rt: HostRuntime) -> ExitCode {
    match run(&rt) {
        Ok(status) => status,
        Err(error) => {
            let _ = eprintln!(rt; "recover: {error}");
            ExitCode::FAILURE
        }
    }
}

// A success where the text fits, or where the two passes agree; a failure's reason is printed.
fn run(rt: &HostRuntime) -> anyhow::Result<ExitCode> {
    let mut arguments = env::args(rt)?.skip(1);
    let first = arguments.next();
    let second = arguments.next();
    ensure!(
        arguments.next().is_none(),
        "expected at most two arguments, files with the text of a pass"
    );
    match (first, second) {
        (Some(first), Some(second)) => {
            return compare_passes(rt, first.as_str(), second.as_str());
        }
        (Some(path), None) => solve_pass(rt, &read_file(rt, path.as_str())?)?,
        _ => solve_pass(rt, &read_input(rt)?)?,
    }
    Ok(ExitCode::SUCCESS)
}
