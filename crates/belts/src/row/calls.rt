ghost use Rattle.std.specs.Prelude.{◌≡◌};
ghost use Rattle.belts.specs.Belts.{made};
ghost use Rattle.belts.specs.Layouts.{row_of};
ghost use Rattle.std.proofs.Common.{rules};

use super::PackedRow;
use crate::store::{Store, nearest};

impl PackedRow {
    // An empty row. A figure outside 1 to 16 places or 0 to 4 bits counts as the nearer end.
    pub fn new(places: u8, width: u8) -> Self
        ensures { row_of result ≡ made places width }
    {
        let (places, width) = nearest(places, width);
        PackedRow {
            bits: 0,
            count: 0,
            places,
            width,
        }
    }
}

impl Store for PackedRow {
    ghost stored = { row_of };

    ghost within = { Prim.search rules };

    fn capacity(&self) -> u8 {
        self.places
    }

    fn word_width(&self) -> u8 {
        self.width
    }

    fn held(&self) -> u8 {
        self.count
    }

    // The word in the lowest bits.
    fn oldest(&self) -> Option<u8> {
        (self.count > 0).then_some((self.bits & 0xf) as u8)
    }

    // Writes above all others.
    fn append(&mut self, word: u8) {
        self.bits |= u64::from(word) << (4 * self.count);
        self.count += 1;
    }

    // Shifts the lowest word out.
    fn advance(&mut self) {
        self.bits >>= 4;
        self.count -= 1;
    }

    // No bits are left.
    fn empty(&mut self) {
        self.bits = 0;
        self.count = 0;
    }
}
