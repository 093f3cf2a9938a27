ghost use Rattle.std.specs.Prelude.{◌≡◌, [], sum, IfOk, IfErr};
ghost use Rattle.sheet.specs.Refusals.{IsOneOf, mount_numbers, tick_numbers, clear_numbers};
ghost use Rattle.sheet.specs.Views.{nodes_in};
ghost use Rattle.line.specs.Lines as lines;
ghost use Rattle.line.specs.Lines.{new_line, read};
ghost use Rattle.line.specs.Events.{entered_in, left_in};
ghost use Rattle.line.specs.Parts.{belt_count};
ghost use Rattle.line.specs.Views.{view};

use crate::board::Board;
use crate::checks::check_mount;
use crate::line::Line;
use crate::moves::empty;
use banks::bank::Bank;
use sheet::fault::{Fault, Refusal};
use sheet::sheet::Sheet;

impl<B: Bank> Line<B> {
    /// A line over a bank, without a sheet.
    pub fn new(bank: B) -> Self
        ensures { view B.belts result ≡ new_line (B.belts bank) }
    {
        Line { bank, board: None }
    }

    /// Copies a sheet into the line and sets the flops low. The bank must have a belt for each belt of the sheet, as wide
    /// as the sheet has bit lines for it, and without a word.
    pub fn mount(&mut self, sheet: &Sheet) -> Result<(), Fault>
        ensures exact { record { answer = result; memory = []; after = view B.belts self.new }
            ≡ lines.mount (view B.belts self.old) (nodes_in sheet.now) }
        ensures numbers { IfErr result (IsOneOf mount_numbers) }
    {
        check_mount(&self.bank, sheet)?;
        match self.board.as_mut() {
            Some(board) => board.mount(sheet),
            None => self.board = Some(Board::new(sheet)),
        }
        Ok(())
    }

    /// One tick, with one byte of 0 or 1 for each sensor, in line order. Writes two bytes for each belt, entered and left,
    /// in belt order, and answers how many belts took a word in and how many gave one up.
    pub fn tick(&mut self, sensors: &[u8], events: &mut [u8]) -> Result<(usize, usize), Fault>
        ensures exact { let after = view B.belts self.new in
            record { answer = result; memory = events.new; after = after }
            ≡ lines.tick (view B.belts self.old) sensors.now events.old }
        ensures pair { let n = belt_count (view B.belts self.old).sheet in
            IfOk result (λ p. p ≡ (sum (entered_in n events.new), sum (left_in n events.new))) }
        ensures numbers { IfErr result (IsOneOf tick_numbers) }
    {
        let board = self.board.as_mut().ok_or(Refusal::NoSheet)?;
        board.tick(&mut self.bank, sensors, events)
    }

    /// Empties the belts and sets the flops low; the sheet stays.
    pub fn clear(&mut self) -> Result<(), Fault>
        ensures exact { record { answer = result; memory = []; after = view B.belts self.new }
            ≡ lines.clear (view B.belts self.old) }
        ensures numbers { IfErr result (IsOneOf clear_numbers) }
    {
        let board = self.board.as_mut().ok_or(Refusal::NoSheet)?;
        empty(&mut self.bank);
        board.reset();
        Ok(())
    }

    /// How many words a belt holds; absent without a sheet and past the last belt.
    pub fn count(&self, belt: usize) -> Option<u16>
        ensures { result ≡ read (view B.belts self.now) belt }
    {
        let board = self.board.as_ref()?;
        (belt < board.belts()).then(|| self.bank.count(belt))
    }
}
