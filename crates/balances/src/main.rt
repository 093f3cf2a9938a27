#![tactic(auto)]

use listing::{MOST_WRITTEN, answer_text};
use sheet::limits::MOST_BYTES;
use std::io::{Read, Write};
use std::process::ExitCode;

// One byte more than the longest sheet, so that a longer text is seen to be too long.
const MOST_READ: u64 = MOST_BYTES as u64 + 1;

fn run(rt: &HostRuntime) -> anyhow::Result<ExitCode> {
    let mut text = Vec::new(rt.alloc());
    rt.stdin().take(MOST_READ).read_to_end(&mut text)?;
    let mut page = [0; MOST_WRITTEN];
    let answer = answer_text(text.as_slice(), &mut page)?;
    rt.stdout().write_all(&page[..answer.length])?;
    Ok(if answer.accepted {
        ExitCode::SUCCESS
    } else {
        ExitCode::FAILURE
    })
}

// Reads a sheet from standard input and prints the list of its balances in whole numbers, or the refusal line (status 1).
fn main(rt: HostRuntime) -> anyhow::Result<ExitCode> {
    run(&rt)
}
