//! What the contracts of `Line` give a caller, for any bank: each function here is proved from them alone.
ghost use Rattle.std.specs.Prelude.{◌≡◌, Err, IfErr};
ghost use Rattle.sheet.specs.Refusals.{fault, IsOneOf, tick_numbers};
ghost use Rattle.sheet.specs.Views.{nodes_in};
ghost use Rattle.sheet.specs.declared.fault.Refusal.TheVariants.{NoSheet};
ghost use Rattle.line.specs.Lines.{new_line, mount, tick, clear, read};
ghost use Rattle.line.specs.Views.{view};

use crate::line::Line;
use banks::bank::Bank;
use sheet::fault::Fault;
use sheet::sheet::Sheet;

/// A newly made line does not tick: it has no sheet, the memory keeps its bytes, and the bank its words.
pub fn tick_new<B: Bank>(
    bank: B,
    sensors: &[u8],
    events: &mut [u8],
) -> (Line<B>, Result<(usize, usize), Fault>)
    ensures answer { result.1 ≡ Err (fault NoSheet 0) }
    ensures numbers { IfErr result.1 (IsOneOf tick_numbers) }
    ensures memory { events.new ≡ events.old }
    ensures after { view B.belts result.0 ≡ new_line (B.belts bank) }
{
    let mut line = Line::new(bank);
    let answer = line.tick(sensors, events);
    (line, answer)
}

/// Mounts a sheet, ticks, reads the count of a belt and clears: each call starts from the line that the one before left.
pub fn try_sheet<B: Bank>(
    line: &mut Line<B>,
    sheet: &Sheet,
    sensors: &[u8],
    events: &mut [u8],
    belt: usize,
) -> (Result<(usize, usize), Fault>, Option<u16>)
    ensures answer { let mounted = (mount (view B.belts line.old) (nodes_in sheet.now)).after in
        result.0 ≡ (tick mounted sensors.now events.old).answer }
    ensures memory { let mounted = (mount (view B.belts line.old) (nodes_in sheet.now)).after in
        events.new ≡ (tick mounted sensors.now events.old).memory }
    ensures count { let mounted = (mount (view B.belts line.old) (nodes_in sheet.now)).after in
        result.1 ≡ read (tick mounted sensors.now events.old).after belt }
    ensures after { let mounted = (mount (view B.belts line.old) (nodes_in sheet.now)).after in
        view B.belts line.new ≡ (clear (tick mounted sensors.now events.old).after).after }
    ensures numbers { IfErr result.0 (IsOneOf tick_numbers) }
{
    let _ = line.mount(sheet);
    let answer = line.tick(sensors, events);
    let count = line.count(belt);
    let _ = line.clear();
    (answer, count)
}
