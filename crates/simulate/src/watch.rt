ghost use Rattle.std.specs.Prelude.{◌≡◌, map, unwrap_or, IfOk};
ghost use Rattle.line.specs.Lines.{read};
ghost use Rattle.line.specs.Views.{view};
ghost use Rattle.simulate.specs.Sums.{counts_of, sum_of};

use crate::balance::{Balance, Kind, balances_of};
use crate::report::{gap, print_numbers, print_weights};
use crate::totals::Totals;
use banks::bank::Bank;
use line::line::Line;
use sheet::fault::Fault;
use sheet::sheet::Sheet;
use std::alloc::{AllocError, Global};

// What is watched of a line: the balances of its sheet, and the totals of what its ticks told.
#[derive(Drop)]
pub(crate) struct Watch {
    belts: usize,
    balances: Vec<Balance>,
    totals: Totals,
}

// How many words a belt holds, 0 where the line tells no count.
fn count_of<B: Bank>(line: &Line<B>, belt: usize) -> u16
    ensures { result ≡ unwrap_or (read (view B.belts line.now) belt) 0 }
{
    line.count(belt).unwrap_or(0)
}

// How many words each belt holds.
fn counts_of<B: Bank>(heap: Global, line: &Line<B>, belts: usize) -> Result<Vec<u16>, AllocError>
    ensures { IfOk result (λ v. v.items ≡ counts_of (view B.belts line.now) belts) }
{
    let mut counts = Vec::new(heap);
    for b in 0..belts {
        counts.push(count_of(line, b))?;
    }
    Ok(counts)
}

// What each balance comes to over the counts.
fn sums_of(heap: Global, balances: &[Balance], counts: &[u16]) -> Result<Vec<i128>, AllocError>
    ensures { IfOk result (λ v. v.items ≡ map (λ b. sum_of b counts.now) balances.now) }
{
    let mut sums = Vec::new(heap);
    for balance in balances {
        sums.push(balance.sum(counts))?;
    }
    Ok(sums)
}

impl Watch {
    pub(crate) fn over(heap: Global, sheet: &Sheet) -> anyhow::Result<Self> {
        let mut balances = balances_of(heap, sheet, Kind::Whole)?;
        balances.append(&mut balances_of(heap, sheet, Kind::Parity)?)?;
        Ok(Watch {
            belts: sheet.belts(),
            balances,
            totals: Totals::new(),
        })
    }

    // The names of the belts, and a line for each balance.
    pub(crate) fn print_head(&self, rt: &HostRuntime) -> anyhow::Result<()> {
        for b in 0..self.belts {
            print!(rt; "{}B{b}", gap(b))?;
        }
        println!(rt)?;
        for balance in &self.balances {
            print_weights(rt, balance)?;
            println!(rt)?;
        }
        Ok(())
    }

    // A row that the line took: the bytes that the tick wrote, the counts after it, and what each balance comes to over them.
    pub(crate) fn took<B: Bank>(
        &mut self,
        rt: &HostRuntime,
        line: &Line<B>,
        events: &[u8],
        pair: (usize, usize),
    ) -> anyhow::Result<()> {
        self.totals.add_tick(pair);
        let counts = counts_of(rt.alloc(), line, self.belts)?;
        print!(rt; "tick {}: events", self.totals.ticks)?;
        for event in events.chunks_exact(2).take(self.belts) {
            print!(rt; " {}{}", event[0], event[1])?;
        }
        print_numbers(rt, ", counts", &counts)?;
        self.print_sums(rt, &counts)
    }

    // What each balance comes to over the counts, and a line's end.
    fn print_sums(&mut self, rt: &HostRuntime, counts: &[u16]) -> anyhow::Result<()> {
        let sums = sums_of(rt.alloc(), &self.balances, counts)?;
        for (balance, sum) in self.balances.iter_mut().zip(&sums) {
            balance.look(self.totals.ticks, *sum);
        }
        print_numbers(rt, ", sums", &sums)?;
        println!(rt)?;
        Ok(())
    }

    // A row that the line refused.
    pub(crate) fn refused(&mut self, rt: &HostRuntime, fault: Fault) -> anyhow::Result<()> {
        self.totals.add_refusal();
        println!(rt; "{fault}")?;
        Ok(())
    }

    // What was made of the rows, and whether each balance held after every tick.
    pub(crate) fn print_end(&self, rt: &HostRuntime) -> anyhow::Result<()> {
        println!(rt;
            "ticks {}, rows refused {}, words in {}, words out {}",
            self.totals.ticks, self.totals.refused, self.totals.entered, self.totals.left
        )?;
        for balance in &self.balances {
            print_weights(rt, balance)?;
            match balance.off {
                None => println!(rt; ": held")?,
                Some(tick) => println!(rt; ": off after tick {tick}")?,
            }
        }
        Ok(())
    }
}
