ghost use Rattle.std.specs.Prelude.{◌≡◌, ◌≤◌};
ghost use Rattle.banks.specs.Banks.{beside};
ghost use Rattle.banks.specs.Sides.{StandsAt};
ghost use Rattle.std.proofs.Common.{arith, length-take, length-append};
ghost use Rattle.banks.specs.Standing.{beside_each};

use crate::bank::{Bank, MOST};

/// Two banks side by side: the second's belts are numbered after the first's, and the first 32 are shown.
#[derive(Clone, Copy, Debug, Drop)]
pub struct Beside<X, Y> {
    first: X,
    second: Y,
}

// Which of the two banks has a belt, and under which number of its own.
#[derive(Clone, Copy)]
pub(crate) enum Side {
    First(usize),
    Second(usize),
}

impl<X: Bank, Y: Bank> Beside<X, Y> {
    /// The two banks with the words they hold.
    pub fn new(first: X, second: Y) -> Self
        ensures { (result.first ≡ first) × (result.second ≡ second) }
    {
        Beside { first, second }
    }

    // Where the belt of a number stands, absent past the end.
    fn side(&self, i: usize) -> Option<Side>
        ensures { StandsAt (X.belts self.now.first) (Y.belts self.now.second) i result }
    {
        if i >= MOST {
            return None;
        }
        let n = self.first.size();
        if i < n {
            Some(Side::First(i))
        } else {
            Some(Side::Second(i - n))
        }
    }
}

impl<X: Bank, Y: Bank> Bank for Beside<X, Y> {
    ghost belts = { λ s. beside (X.belts s.first) (Y.belts s.second) };

    ghost sized = { λ b.
        let p = X.sized b.first in
        (simp (length-take, length-append) (omega arith), simp (length-take, length-append) (omega arith)) };

    ghost small = { λ b i. beside_each (λ m. (m.places ≤ 65535) × (m.width ≤ 4)) _ _ (X.sized b.first).1 (omega arith, omega arith) (X.small b.first) (Y.small b.second) i };

    fn size(&self) -> usize {
        (self.first.size() + self.second.size()).min(MOST)
    }

    fn places(&self, i: usize) -> u16 {
        match self.side(i) {
            Some(Side::First(k)) => self.first.places(k),
            Some(Side::Second(k)) => self.second.places(k),
            None => 0,
        }
    }

    fn width(&self, i: usize) -> u8 {
        match self.side(i) {
            Some(Side::First(k)) => self.first.width(k),
            Some(Side::Second(k)) => self.second.width(k),
            None => 0,
        }
    }

    fn count(&self, i: usize) -> u16 {
        match self.side(i) {
            Some(Side::First(k)) => self.first.count(k),
            Some(Side::Second(k)) => self.second.count(k),
            None => 0,
        }
    }

    fn head(&self, i: usize) -> Option<u8> {
        match self.side(i)? {
            Side::First(k) => self.first.head(k),
            Side::Second(k) => self.second.head(k),
        }
    }

    fn put(&mut self, i: usize, word: u8) -> bool {
        match self.side(i) {
            Some(Side::First(k)) => self.first.put(k, word),
            Some(Side::Second(k)) => self.second.put(k, word),
            None => false,
        }
    }

    fn take(&mut self, i: usize) -> Option<u8> {
        match self.side(i)? {
            Side::First(k) => self.first.take(k),
            Side::Second(k) => self.second.take(k),
        }
    }

    fn clear(&mut self, i: usize) {
        match self.side(i) {
            Some(Side::First(k)) => self.first.clear(k),
            Some(Side::Second(k)) => self.second.clear(k),
            None => {}
        }
    }
}
