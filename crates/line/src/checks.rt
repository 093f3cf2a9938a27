ghost use Rattle.std.specs.Prelude.{◌≡◌, not, ◌||◌, length, ◌==◌, nat_lt, IfErr};
ghost use Rattle.sheet.specs.Nodes.{count_of};
ghost use Rattle.sheet.specs.Refusals.{IsOneOf, mount_numbers};
ghost use Rattle.sheet.specs.Views.{nodes_in};
ghost use Rattle.sheet.specs.declared.class.Class.TheVariants as Of;
ghost use Rattle.std.specs.List.{list_any};
ghost use Rattle.line.specs.Lines.{narrow, laden, mount_test};

use crate::numbers::Numbers;
use banks::bank::Bank;
use sheet::fault::{Fault, Refusal};
use sheet::sheet::Sheet;

// Whether a sensor byte is neither 0 nor 1.
fn above_one(sensors: &[u8]) -> bool
    ensures { result ≡ list_any (nat_lt 1) sensors.now }
{
    for byte in sensors {
        if *byte > 1 {
            return true;
        }
    }
    false
}

// Whether the sensor bytes differ in number from the sheet's sensors, or one is neither 0 nor 1.
pub(crate) fn are_wrong(sheet: &Sheet, sensors: &[u8]) -> bool
    ensures { result ≡ (not (length sensors.now == count_of Of.Sensor (nodes_in sheet.now))
        || list_any (nat_lt 1) sensors.now) }
{
    sensors.len() != sheet.sensors() || above_one(sensors)
}

// The lowest belt whose width is below its number of bit lines.
fn narrow_belt<B: Bank>(bank: &B, sheet: &Sheet) -> Option<u16>
    ensures { result ≡ narrow (nodes_in sheet.now) (B.belts bank.now) }
{
    let numbers = Numbers::all(sheet);
    (0..bank.size() as u16).find(|b| {
        let b = usize::from(*b);
        usize::from(bank.width(b)) < numbers.bits_of(b)
    })
}

// The lowest belt that holds a word.
fn laden_belt<B: Bank>(bank: &B) -> Option<u16>
    ensures { result ≡ laden (B.belts bank.now) }
{
    (0..bank.size() as u16).find(|b| bank.head(usize::from(*b)).is_some())
}

// Whether the sheet may be mounted over the bank.
pub(crate) fn check_mount<B: Bank>(bank: &B, sheet: &Sheet) -> Result<(), Fault>
    ensures exact { result ≡ mount_test (B.belts bank.now) (nodes_in sheet.now) }
    ensures numbers { IfErr result (IsOneOf mount_numbers) }
{
    if bank.size() != sheet.belts() {
        return Err(Refusal::BeltsDiffer.into());
    }
    if let Some(place) = narrow_belt(bank, sheet) {
        return Err(Refusal::NarrowBelt.at(place));
    }
    if let Some(place) = laden_belt(bank) {
        return Err(Refusal::LadenBelt.at(place));
    }
    Ok(())
}
