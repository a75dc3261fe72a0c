// Multiplies matrices: reads requests from the file that the argument names, or from standard input, and prints the reply to each.
#![tactic(auto)]

use anyhow::{anyhow, ensure};
use replies::answering::answer;
use replies::rendering::render;
use requests::reading::parse;
use requests::request::Request;
use std::io::Read;
use std::process::ExitCode;
use std::{env, fs};

// Where the status is 1, the reason was printed.
fn main(rt: HostRuntime) -> ExitCode {
    match run(&rt) {
        Ok(()) => ExitCode::SUCCESS,
        Err(error) => {
            let _ = eprintln!(rt; "matrix: {error}");
            ExitCode::FAILURE
        }
    }
}

// Prints the replies to the requests before the first fault, which is the error: it holds 120 bytes of text, and no message of a
// fault is longer.
fn run(rt: &HostRuntime) -> anyhow::Result<()> {
    let text = read_text(rt)?;
    let parsed = parse(rt.alloc(), &text)?;
    for request in parsed.requests {
        print_reply(rt, request)?;
    }
    match parsed.fault {
        None => Ok(()),
        Some(fault) => Err(anyhow!("{fault}")),
    }
}

fn print_reply(rt: &HostRuntime, request: Request) -> anyhow::Result<()> {
    let reply = answer(rt.alloc(), request)?;
    let text = render(rt.alloc(), &reply)?;
    print!(rt; "{text}")?;
    Ok(())
}

// The whole file, or the whole standard input where no file is named.
fn read_text(rt: &HostRuntime) -> anyhow::Result<Vec<u8>> {
    let mut arguments = env::args(rt)?.skip(1);
    let path = arguments.next();
    ensure!(
        arguments.next().is_none(),
        "expected at most one argument, the file with the requests"
    );
    match path {
        Some(path) => read_file(rt, path),
        None => {
            let mut text = Vec::new(rt.alloc());
            rt.stdin().read_to_end(&mut text)?;
            Ok(text)
        }
    }
}

// As in `recover`: a crate for both would promise nothing that a contract can say.
fn read_file(rt: &HostRuntime, path: String) -> anyhow::Result<Vec<u8>> {
    fs::read(rt, path.as_str()).map_err(|error| anyhow!("cannot read {path}: {error}"))
}
