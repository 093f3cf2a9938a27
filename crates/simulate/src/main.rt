#![tactic(auto)]

mod balance;
mod report;
mod rings;
mod totals;
mod watch;

use crate::rings::Rings;
use crate::watch::Watch;
use anyhow::bail;
use line::line::Line;
use sheet::limits::MOST_BELTS;
use sheet::sheet::Sheet;
use std::process::ExitCode;
use std::{env, fs};

// The sensor bytes of a row: 0 and 1 for those characters, and what a tick refuses for any other.
fn read_row(row: &str, sensors: &mut Vec<u8>) -> anyhow::Result<()> {
    sensors.clear();
    for byte in row.as_bytes() {
        sensors.push(byte.wrapping_sub(b'0'))?;
    }
    Ok(())
}

// A tick for each row on standard input, each reported.
fn simulate(rt: &HostRuntime, sheet: &Sheet, places: u8) -> anyhow::Result<()> {
    let mut line = Line::new(Rings::new(rt.alloc(), sheet.belts(), places)?);
    line.mount(sheet)?;
    let mut watch = Watch::over(rt.alloc(), sheet)?;
    watch.print_head(rt)?;
    let mut sensors = Vec::new(rt.alloc());
    for row in rt.lines(rt.alloc()) {
        read_row(row?.as_str(), &mut sensors)?;
        let mut events = [0; 2 * MOST_BELTS];
        match line.tick(&sensors, &mut events) {
            Ok(pair) => watch.took(rt, &line, &events, pair)?,
            Err(fault) => watch.refused(rt, fault)?,
        }
    }
    watch.print_end(rt)
}

fn run(rt: &HostRuntime) -> anyhow::Result<()> {
    let mut words = env::args(rt)?.skip(1);
    let (Some(board), Some(places)) = (words.next(), words.next()) else {
        bail!("two words are wanted: a sheet's file, and how many places its belts have");
    };
    let places = places.as_str().parse::<u8>()?;
    if !(1..=16).contains(&places) {
        bail!("a belt has 1 to 16 places");
    }
    let text = fs::read(rt, board.as_str())?;
    let sheet = Sheet::load(&text)?;
    simulate(rt, &sheet, places)
}

// Runs a sheet over rings that are empty at first, a tick for each row of sensors on standard input.
fn main(rt: HostRuntime) -> anyhow::Result<ExitCode> {
    match run(&rt) {
        Ok(()) => Ok(ExitCode::SUCCESS),
        Err(error) => {
            println!(rt; "{error}")?;
            Ok(ExitCode::FAILURE)
        }
    }
}
