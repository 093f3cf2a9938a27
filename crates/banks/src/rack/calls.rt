ghost use Rattle.std.specs.Prelude.{◌≡◌, ◌≤◌, replicate, MatchOption, slice_set};
ghost use Rattle.belts.specs.Layouts.{row_of};
ghost use Rattle.banks.specs.Banks.{numbered, racked};
ghost use Rattle.banks.specs.Racks.{rack_of};
ghost use Rattle.banks.specs.Sides.{Past};
ghost use Rattle.std.proofs.Common.{arith};
ghost use Rattle.banks.specs.Rows.{length_rack, each_belt};
ghost use Rattle.std.proofs.Math.ListN;

use super::Rack;
use crate::bank::{Bank, MOST};
use belts::belt::Belt;
use belts::row::PackedRow;

impl Rack {
    /// Empty rows alike in places and width. A figure outside 1 to 32 belts, 1 to 16 places or 0 to 4 bits counts as the nearer end.
    pub fn new(belts: usize, places: u8, width: u8) -> Self
        ensures { rack_of result ≡ racked belts places width }
    {
        Rack::alike(PackedRow::new(places, width), belts.clamp(1, MOST))
    }

    // A row, as many times as told.
    fn alike(row: PackedRow, size: usize) -> Self
        requires { (1 ≤ size) × (size ≤ 32) }
        ensures { rack_of result ≡ replicate size (row_of row) }
    {
        Rack {
            rows: [row; MOST],
            size,
        }
    }

    // The row of a number, absent past the end.
    fn row(&self, i: usize) -> Option<PackedRow>
        ensures { MatchOption result (Past (rack_of self.now) i) (λ row. numbered (rack_of self.now) i ≡ row_of row) }
    {
        self.rows[0..self.size].get(i).copied()
    }

    // Another row under a number; past the end nothing changes.
    fn store(&mut self, i: usize, row: PackedRow)
        ensures { rack_of self.new ≡ slice_set (rack_of self.old) i (row_of row) }
    {
        if i < self.size {
            self.rows[i] = row;
        }
    }
}

impl Bank for Rack {
    ghost belts = { rack_of };

    ghost sized = { λ b. let n = length_rack b in (omega arith, omega arith) };

    ghost small = { λ b i. each_belt row_of (λ m. (m.places ≤ 65535) × (m.width ≤ 4)) (omega arith, omega arith) (λ r. (omega arith, omega arith)) (ListN.take b.size b.rows) i };

    fn size(&self) -> usize {
        self.size
    }

    fn places(&self, i: usize) -> u16 {
        self.row(i).map_or(0, |row| row.places())
    }

    fn width(&self, i: usize) -> u8 {
        self.row(i).map_or(0, |row| row.width())
    }

    fn count(&self, i: usize) -> u16 {
        self.row(i).map_or(0, |row| row.count())
    }

    fn head(&self, i: usize) -> Option<u8> {
        self.row(i)?.head()
    }

    fn put(&mut self, i: usize, word: u8) -> bool {
        let Some(mut row) = self.row(i) else {
            return false;
        };
        let said = row.put(word);
        self.store(i, row);
        said
    }

    fn take(&mut self, i: usize) -> Option<u8> {
        let mut row = self.row(i)?;
        let word = row.take();
        self.store(i, row);
        word
    }

    fn clear(&mut self, i: usize) {
        if let Some(mut row) = self.row(i) {
            row.clear();
            self.store(i, row);
        }
    }
}
