// The six-lane board over two banks, ticked side by side with a plain model of it; and, as tests, each refusal of a line's calls on both
// sides of its limit, and a list of calls with its reports.
#![tactic(auto)]

mod plain;
#[cfg(test)]
mod tests;

use crate::plain::{Plain, Watch};
use banks::bank::Bank;
use banks::beside::Beside;
use banks::lanes::six_lanes;
use banks::single::Single;
use belts::ring::Ring;
use line::line::Line;
use runs::calls::MOST_EVENTS;
use sheet::sheet::Sheet;
use std::alloc::Global;
use std::fs;

// How many ticks the lines make.
const TICKS: usize = 400;

// A ring of sixteen words, four bits wide, as a bank; and two, and seven of them.
type One = Single<Ring>;

type Two = Beside<One, One>;

type Rings = Beside<Beside<Two, Two>, Beside<Two, One>>;

fn one() -> One {
    Single::new(Ring::new(16, 4))
}

fn two() -> Two {
    Beside::new(one(), one())
}

fn rings() -> Rings {
    Beside::new(Beside::new(two(), two()), Beside::new(two(), one()))
}

// The first tick, if any, in which a line over the bank and a plain model of the board differ, or a balance is off.
fn first_difference<B: Bank + Drop>(
    heap: Global,
    bank: B,
    sheet: &Sheet,
) -> anyhow::Result<Option<usize>> {
    let watch = Watch::over(heap, sheet)?;
    let mut plain = Plain::new(heap, sheet.nodes(), 16)?;
    let mut line = Line::new(bank);
    line.mount(sheet)?;
    for tick in 0..TICKS {
        let sensors = watch.sensors(heap, tick)?;
        let mut events = [0; MOST_EVENTS];
        let pair = line.tick(&sensors, &mut events)?;
        let expected = plain.tick(heap, sheet.nodes(), &sensors)?;
        if !watch.agrees(&line, &plain)
            || !events.starts_with(&expected)
            || pair != watch.pair(&expected)
        {
            return Ok(Some(tick));
        }
    }
    Ok(None)
}

// Tells whether a line over a bank did what the plain model did.
fn tell(rt: &HostRuntime, bank: &str, difference: Option<usize>) -> anyhow::Result<()> {
    match difference {
        None => println!(rt; "{bank}: {TICKS} ticks as in the plain model")?,
        Some(tick) => println!(rt; "{bank}: another tick {tick} than in the plain model")?,
    }
    Ok(())
}

fn main(rt: HostRuntime) -> anyhow::Result<()> {
    let text = fs::read(&rt, "six-lanes.sheet")?;
    let sheet = Sheet::load(text.as_slice())?;
    tell(
        &rt,
        "the six-lane bank",
        first_difference(rt.alloc(), six_lanes(), &sheet)?,
    )?;
    tell(
        &rt,
        "seven rings",
        first_difference(rt.alloc(), rings(), &sheet)?,
    )
}
