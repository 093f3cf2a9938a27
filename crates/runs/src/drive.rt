ghost use Rattle.std.specs.Prelude.{◌≡◌, ◌≤◌, min, ◌++◌, length, take, drop};
ghost use Rattle.line.specs.Lines.{new_line};
ghost use Rattle.line.specs.Views.{view};
ghost use Rattle.runs.specs.Runs.{afterwards, reports};
ghost use Rattle.runs.specs.Laws.{Kept};

use crate::calls::{Call, Report};
use crate::perform::perform;
use banks::bank::Bank;
use line::line::Line;
use sheet::sheet::Sheet;

// Makes the calls and logs the report of each. Of a newly made line the law holds then.
fn log_calls<B: Bank>(line: &mut Line<B>, sheets: &[Sheet], calls: &[Call], log: &mut [Report])
    requires { length calls.now ≤ length log.old }
    ensures log { log.new ≡ reports sheets.now (view B.belts line.old) calls.now ++ drop (length calls.now) log.old }
    ensures line { view B.belts line.new ≡ afterwards sheets.now (view B.belts line.old) calls.now }
    ensures law { view B.belts line.old ≡ new_line (view B.belts line.old).bank → Kept (view B.belts line.new) (take (length calls.now) log.new) }
{
    for (i, call) in calls.iter().enumerate() {
        log[i] = perform(line, sheets, *call);
    }
}

// Makes the calls in order, as many as the log has places for, logs the report of each, and tells how many they were.
// Later places of the log stay. Of a line that was newly made the law over runs holds then.
pub fn drive<B: Bank>(
    line: &mut Line<B>,
    sheets: &[Sheet],
    calls: &[Call],
    log: &mut [Report],
) -> usize
    ensures many { result ≡ min (length calls.now) (length log.old) }
    ensures log { log.new ≡ reports sheets.now (view B.belts line.old) (take result calls.now) ++ drop result log.old }
    ensures line { view B.belts line.new ≡ afterwards sheets.now (view B.belts line.old) (take result calls.now) }
    ensures law { view B.belts line.old ≡ new_line (view B.belts line.old).bank → Kept (view B.belts line.new) (take result log.new) }
{
    let done = calls.len().min(log.len());
    let (calls, _) = calls.split_at(done);
    log_calls(line, sheets, calls, log);
    done
}

// Makes a line over the bank and drives it. Whatever the bank holds and whatever the calls are: each report and the line
// are what the definitions say; each belt's count is the length of its list and equals its enterings less its leavings,
// summed from the log; and each derived balance comes to zero over the counts, each parity balance to an even number.
pub fn run<B: Bank>(
    bank: B,
    sheets: &[Sheet],
    calls: &[Call],
    log: &mut [Report],
) -> (Line<B>, usize)
    ensures many { result.1 ≡ min (length calls.now) (length log.old) }
    ensures log { log.new ≡ reports sheets.now (new_line (B.belts bank)) (take result.1 calls.now) ++ drop result.1 log.old }
    ensures line { view B.belts result.0 ≡ afterwards sheets.now (new_line (B.belts bank)) (take result.1 calls.now) }
    ensures law { Kept (view B.belts result.0) (take result.1 log.new) }
{
    let mut line = Line::new(bank);
    let done = drive(&mut line, sheets, calls, log);
    (line, done)
}
