ghost use Rattle.std.specs.Prelude.{◌≡◌, [], ◌∷◌};
ghost use Rattle.std.proofs.Common.{rules};

use crate::bank::Bank;
use belts::belt::Belt;

/// One belt as a bank.
#[derive(Clone, Copy, Debug, Drop)]
pub struct Single<B> {
    belt: B,
}

impl<B: Belt> Single<B> {
    /// The belt with the words it holds.
    pub fn new(belt: B) -> Self
        ensures { result.belt ≡ belt }
    {
        Single { belt }
    }
}

impl<B: Belt> Bank for Single<B> {
    ghost belts = { λ s. B.model s.belt ∷ [] };

    ghost sized = { Prim.search rules };

    ghost small = { Prim.search rules };

    fn size(&self) -> usize {
        1
    }

    fn places(&self, i: usize) -> u16 {
        if i == 0 { self.belt.places() } else { 0 }
    }

    fn width(&self, i: usize) -> u8 {
        if i == 0 { self.belt.width() } else { 0 }
    }

    fn count(&self, i: usize) -> u16 {
        if i == 0 { self.belt.count() } else { 0 }
    }

    fn head(&self, i: usize) -> Option<u8> {
        if i == 0 { self.belt.head() } else { None }
    }

    fn put(&mut self, i: usize, word: u8) -> bool {
        i == 0 && self.belt.put(word)
    }

    fn take(&mut self, i: usize) -> Option<u8> {
        if i == 0 { self.belt.take() } else { None }
    }

    fn clear(&mut self, i: usize) {
        if i == 0 {
            self.belt.clear();
        }
    }
}
