ghost use Rattle.std.specs.Prelude.{◌≡◌, ◌≤◌, min, true, false, ◌++◌, length, take, drop};
ghost use Rattle.line.specs.Lines.{new_line};
ghost use Rattle.line.specs.Views.{view};
ghost use Rattle.runs.specs.Runs.{afterwards};
ghost use Rattle.runs.specs.Pairs.{calls_for, obeyed, report_of, woven, Alone};

use crate::calls::{Order, Report};
use crate::perform::perform;
use banks::bank::Bank;
use line::line::Line;
use sheet::sheet::Sheet;

// Carries out one order, on the line that it is for.
fn obey<A: Bank, C: Bank>(
    one: &mut Line<A>,
    two: &mut Line<C>,
    sheets: &[Sheet],
    order: Order,
) -> Report
    ensures report { result ≡ report_of sheets.now (view A.belts one.old) (view C.belts two.old) order.entry }
    ensures first { view A.belts one.new ≡ obeyed false sheets.now (view A.belts one.old) order.entry }
    ensures second { view C.belts two.new ≡ obeyed true sheets.now (view C.belts two.old) order.entry }
{
    match order {
        Order::First(call) => perform(one, sheets, call),
        Order::Second(call) => perform(two, sheets, call),
    }
}

// Carries out the orders and logs the report of each.
fn log_orders<A: Bank, C: Bank>(
    one: &mut Line<A>,
    two: &mut Line<C>,
    sheets: &[Sheet],
    orders: &[Order],
    log: &mut [Report],
)
    requires { length orders.now ≤ length log.old }
    ensures log { log.new ≡ woven sheets.now (view A.belts one.old) (view C.belts two.old) orders.now ++ drop (length orders.now) log.old }
    ensures first { view A.belts one.new ≡ afterwards sheets.now (view A.belts one.old) (calls_for false orders.now) }
    ensures second { view C.belts two.new ≡ afterwards sheets.now (view C.belts two.old) (calls_for true orders.now) }
{
    for (i, order) in orders.iter().enumerate() {
        log[i] = obey(one, two, sheets, *order);
    }
}

// Makes two lines, each over a bank of its own, and carries out the orders one after another, as many as the log has
// places for; tells how many they were. Later places of the log stay. Each line ends and reports as by its own calls
// alone, and the law over runs holds of each, from its own reports in the log.
pub fn run_two<A: Bank, C: Bank>(
    one: A,
    two: C,
    sheets: &[Sheet],
    orders: &[Order],
    log: &mut [Report],
) -> ((Line<A>, Line<C>), usize)
    ensures many { result.1 ≡ min (length orders.now) (length log.old) }
    ensures log { log.new ≡ woven sheets.now (new_line (A.belts one)) (new_line (C.belts two)) (take result.1 orders.now) ++ drop result.1 log.old }
    ensures first { Alone sheets.now (new_line (A.belts one)) false (take result.1 orders.now) (take result.1 log.new) (view A.belts result.0.0) }
    ensures second { Alone sheets.now (new_line (C.belts two)) true (take result.1 orders.now) (take result.1 log.new) (view C.belts result.0.1) }
{
    let mut first = Line::new(one);
    let mut second = Line::new(two);
    let done = orders.len().min(log.len());
    let (orders, _) = orders.split_at(done);
    log_orders(&mut first, &mut second, sheets, orders, log);
    ((first, second), done)
}
