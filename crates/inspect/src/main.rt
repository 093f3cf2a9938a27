#![tactic(auto)]

mod explain;
mod report;

use report::{print_refusal, print_sheet};
use sheet::limits::MOST_BYTES;
use sheet::sheet::Sheet;
use std::io::Read;
use std::process::ExitCode;

// One byte more than the longest sheet, so that a longer text is seen to be too long.
const MOST_READ: u64 = MOST_BYTES as u64 + 1;

fn run(rt: &HostRuntime) -> anyhow::Result<ExitCode> {
    let mut text = Vec::new(rt.alloc());
    rt.stdin().take(MOST_READ).read_to_end(&mut text)?;
    match Sheet::load(text.as_slice()) {
        Ok(sheet) => {
            print_sheet(rt, &sheet)?;
            Ok(ExitCode::SUCCESS)
        }
        Err(fault) => {
            print_refusal(rt, fault)?;
            Ok(ExitCode::FAILURE)
        }
    }
}

// Reads a sheet from standard input and prints what it holds, or why it is refused (status 1).
fn main(rt: HostRuntime) -> anyhow::Result<ExitCode> {
    run(&rt)
}
