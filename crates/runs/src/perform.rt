ghost use Rattle.std.specs.Prelude.{◌≡◌, []};
ghost use Rattle.line.specs.Lines.{mount, tick};
ghost use Rattle.line.specs.Views.{view};
ghost use Rattle.runs.specs.declared.calls.Answer.TheVariants.{Done, Ticked, Counted};
ghost use Rattle.runs.specs.Runs.{sheet_at, blank, filled, answer_of, turn, performed};

use crate::calls::{Answer, Call, MOST_EVENTS, Report};
use banks::bank::Bank;
use line::line::Line;
use sheet::fault::Fault;
use sheet::sheet::Sheet;

// An event memory that nothing was written into.
const BLANK: [u8; MOST_EVENTS] = [0; MOST_EVENTS];

// The report of a call that has no event memory.
fn report(answer: Answer) -> Report
    ensures { result ≡ record { answer = answer; bytes = filled [] } }
{
    Report {
        answer,
        bytes: BLANK,
    }
}

// The answer of a mounting or a clearing.
impl From<Result<(), Fault>> for Answer {
    ghost from_gives = { λ r a. a ≡ answer_of (λ u. Done) r };

    fn from(answer: Result<(), Fault>) -> Self {
        match answer {
            Ok(()) => Answer::Done,
            Err(fault) => Answer::Refused(fault),
        }
    }
}

// The answer of a tick.
impl From<Result<(usize, usize), Fault>> for Answer {
    ghost from_gives = { λ r a. a ≡ answer_of (λ p. Ticked p.0 p.1) r };

    fn from(answer: Result<(usize, usize), Fault>) -> Self {
        match answer {
            Ok((entered, left)) => Answer::Ticked(entered, left),
            Err(fault) => Answer::Refused(fault),
        }
    }
}

// Mounts sheet `k` of those handed over; past their end, the unfilled sheet.
fn mount_at<B: Bank>(line: &mut Line<B>, sheets: &[Sheet], k: usize) -> Result<(), Fault>
    ensures { record { answer = result; memory = []; after = view B.belts line.new } ≡ mount (view B.belts line.old) (sheet_at sheets.now k) }
{
    match sheets.get(k) {
        Some(sheet) => line.mount(sheet),
        None => line.mount(&Sheet::unfilled()),
    }
}

// A tick with an event memory of `memory` zero bytes, at most 64, reported.
fn perform_tick<B: Bank>(line: &mut Line<B>, sensors: &[u8], memory: usize) -> Report
    ensures { record { report = result; after = view B.belts line.new } ≡ turn (λ p. Ticked p.0 p.1) (tick (view B.belts line.old) sensors.now (blank memory)) }
{
    let mut bytes = BLANK;
    let n = memory.min(MOST_EVENTS);
    let answer = Answer::from(line.tick(sensors, &mut bytes[..n]));
    Report { answer, bytes }
}

// Makes one call, and reports what it answered and what it left in its event memory.
pub fn perform<B: Bank>(line: &mut Line<B>, sheets: &[Sheet], call: Call) -> Report
    ensures { record { report = result; after = view B.belts line.new } ≡ performed sheets.now (view B.belts line.old) call.entry }
{
    match call {
        Call::Mount(k) => report(Answer::from(mount_at(line, sheets, k))),
        Call::Tick { sensors, memory } => perform_tick(line, sensors, memory),
        Call::Clear => report(Answer::from(line.clear())),
        Call::Count(belt) => report(Answer::Counted(line.count(belt))),
    }
}
