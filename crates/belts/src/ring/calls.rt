ghost use Rattle.std.specs.Prelude.{◌≡◌, ◌≤◌};
ghost use Rattle.belts.specs.Belts.{made};
ghost use Rattle.belts.specs.Layouts.{ring_of, after};
ghost use Rattle.std.proofs.Common.{rules};

use super::Ring;
use crate::store::{Store, nearest};

// The place after one, going round.
fn after_place(places: u8, at: u8) -> u8
    requires { at ≤ 16 }
    ensures { result ≡ after places at }
{
    if at + 1 == places { 0 } else { at + 1 }
}

impl Ring {
    // An empty ring. A figure outside 1 to 16 places or 0 to 4 bits counts as the nearer end.
    pub fn new(places: u8, width: u8) -> Self
        ensures { ring_of result ≡ made places width }
    {
        let (places, width) = nearest(places, width);
        Ring {
            cells: [0; 16],
            places,
            width,
            enter: 0,
            leave: 0,
            full: false,
        }
    }
}

impl Store for Ring {
    ghost stored = { ring_of };

    ghost within = { Prim.search rules };

    fn capacity(&self) -> u8 {
        self.places
    }

    fn word_width(&self) -> u8 {
        self.width
    }

    fn held(&self) -> u8 {
        if self.full {
            self.places
        } else if self.leave <= self.enter {
            self.enter - self.leave
        } else {
            self.enter + self.places - self.leave
        }
    }

    // The word at the exit place.
    fn oldest(&self) -> Option<u8> {
        (self.held() > 0).then_some(self.cells[usize::from(self.leave)])
    }

    // Writes at the entry place and goes on to the next.
    fn append(&mut self, word: u8) {
        self.cells[usize::from(self.enter)] = word;
        self.enter = after_place(self.places, self.enter);
        self.full = self.enter == self.leave;
    }

    // Leaves the exit place for the next.
    fn advance(&mut self) {
        self.leave = after_place(self.places, self.leave);
        self.full = false;
    }

    // The entry place is the exit place again.
    fn empty(&mut self) {
        self.enter = self.leave;
        self.full = false;
    }
}
