ghost use Rattle.std.specs.Prelude.{◌≡◌, ◌*◌, ◌≤◌, [], length, take, sum, Ok, OnOk, IfOk, IfErr};
ghost use Rattle.sheet.specs.Refusals.{IsOneOf, tick_numbers};
ghost use Rattle.sheet.specs.Views.{nodes_in};
ghost use Rattle.line.specs.Lines as lines;
ghost use Rattle.line.specs.Lines.{low, tick_test, tick_step, wires_now};
ghost use Rattle.line.specs.Events.{entered_in, left_in};
ghost use Rattle.line.specs.Moving.{moved_by};
ghost use Rattle.line.specs.Parts.{belt_count};
ghost use Rattle.line.specs.Views.{running, flops_of};

use crate::board::Board;
use crate::checks::are_wrong;
use crate::events::report;
use crate::moves::{advance, low_flops, next_flops, words};
use crate::wires::{Inputs, Wires};
use banks::bank::Bank;
use sheet::fault::{Fault, Refusal};
use sheet::sheet::Sheet;

impl Board {
    // A copy of a sheet, with the flops low.
    pub(crate) fn new(sheet: &Sheet) -> Board
        ensures sheet { nodes_in result.sheet ≡ nodes_in sheet.now }
        ensures low { flops_of result ≡ low (nodes_in sheet.now) }
    {
        Board {
            sheet: *sheet,
            flops: low_flops(sheet),
        }
    }

    // Takes another sheet, with the flops low.
    pub(crate) fn mount(&mut self, sheet: &Sheet)
        ensures sheet { nodes_in self.new.sheet ≡ nodes_in sheet.now }
        ensures low { flops_of self.new ≡ low (nodes_in sheet.now) }
    {
        self.sheet = *sheet;
        self.reset();
    }

    // How many belts there are.
    pub(crate) fn belts(&self) -> usize
        ensures { result ≡ belt_count (nodes_in self.now.sheet) }
    {
        self.sheet.belts()
    }

    // Sets the flops low.
    pub(crate) fn reset(&mut self)
        ensures sheet { nodes_in self.new.sheet ≡ nodes_in self.old.sheet }
        ensures low { flops_of self.new ≡ low (nodes_in self.old.sheet) }
    {
        self.flops = low_flops(&self.sheet);
    }

    // Whether the board may tick with these sensor bytes and with event memory of `room` bytes.
    fn check_tick(&self, sensors: &[u8], room: usize) -> Result<(), Fault>
        ensures exact { result ≡ tick_test (running [] self.now) sensors.now room }
        ensures enough { OnOk result (2 * belt_count (nodes_in self.now.sheet) ≤ room) }
        ensures numbers { IfErr result (IsOneOf tick_numbers) }
    {
        if are_wrong(&self.sheet, sensors) {
            return Err(Refusal::WrongSensors.into());
        }
        if room < 2 * self.belts() {
            return Err(Refusal::ShortEvents.into());
        }
        Ok(())
    }

    // The value of every line in this tick, before anything moves.
    fn settle<B: Bank>(&self, bank: &B, sensors: &[u8]) -> Wires
        ensures { take (length (nodes_in self.now.sheet)) result
            ≡ wires_now (running (B.belts bank.now) self.now) sensors.now }
    {
        let count = self.sheet.flops();
        let inputs = Inputs {
            bank,
            flops: &self.flops[..count],
            sensors,
        };
        inputs.settle(&self.sheet)
    }

    // Moves the belts, in number order, by the event bytes and the words of the entering wires; then the flops take their
    // driving wires' values.
    fn move_all<B: Bank>(&mut self, bank: &mut B, wires: &[bool], events: &[u8])
        requires { 2 * belt_count (nodes_in self.old.sheet) ≤ length events.now }
        ensures { running (B.belts bank.new) self.new
            ≡ moved_by (running (B.belts bank.old) self.old) wires.now events.now }
    {
        let entering = words(&self.sheet, wires);
        advance(bank, self.belts(), &entering, events);
        self.flops = next_flops(&self.sheet, wires);
    }

    // What an accepted tick does. All wires and events are settled before anything moves.
    fn perform<B: Bank>(
        &mut self,
        bank: &mut B,
        sensors: &[u8],
        events: &mut [u8],
    ) -> (usize, usize)
        requires { 2 * belt_count (nodes_in self.old.sheet) ≤ length events.old }
        ensures exact { let after = running (B.belts bank.new) self.new in
            record { answer = Ok result; memory = events.new; after = after }
            ≡ tick_step (running (B.belts bank.old) self.old) sensors.now events.old }
        ensures pair { let n = belt_count (nodes_in self.old.sheet) in
            result ≡ (sum (entered_in n events.new), sum (left_in n events.new)) }
    {
        let lines = self.sheet.len();
        let settled = self.settle(bank, sensors);
        let wires = &settled[..lines];
        let pair = report(bank, &self.sheet, wires, events);
        self.move_all(bank, wires, events);
        pair
    }

    // One tick, which is tested first.
    pub(crate) fn tick<B: Bank>(
        &mut self,
        bank: &mut B,
        sensors: &[u8],
        events: &mut [u8],
    ) -> Result<(usize, usize), Fault>
        ensures exact { let after = running (B.belts bank.new) self.new in
            record { answer = result; memory = events.new; after = after }
            ≡ lines.tick (running (B.belts bank.old) self.old) sensors.now events.old }
        ensures pair { let n = belt_count (nodes_in self.old.sheet) in
            IfOk result (λ p. p ≡ (sum (entered_in n events.new), sum (left_in n events.new))) }
        ensures numbers { IfErr result (IsOneOf tick_numbers) }
    {
        self.check_tick(sensors, events.len())?;
        Ok(self.perform(bank, sensors, events))
    }
}
