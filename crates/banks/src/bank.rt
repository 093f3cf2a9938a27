ghost use Rattle.std.specs.Prelude.{◌≡◌, ℕ, ◌≤◌, List, length};
ghost use Rattle.belts.specs.Belts.{Model, counted, roomy, head_of, putting, taking, clearing};
ghost use Rattle.banks.specs.Banks.{numbered, altered};

// How many belts a bank has at most.
pub(crate) const MOST: usize = 32;

/// A bank: 1 to 32 belts, numbered from 0. Each call is a belt's call with a number, and alters that belt alone.
/// A number past the end gets 0, no or absent, and alters no belt.
///
/// Whoever brings a bank of their own writes `belts`, which gives for each of its states the list of its belts' models,
/// and shows that the list has 1 to 32 belts within the limits of a belt (the two laws), that each question answers from
/// the list, and that each call that alters answers from the list as it was and leaves it with that one belt altered.
/// All that is built on a bank is proved from `belts` alone, and so holds of that bank too.
pub trait Bank {
    ghost belts: { Self → List Model };

    /// How many belts there are, always the same.
    fn size(&self) -> usize
        ensures { result ≡ length (belts self.now) };

    fn places(&self, i: usize) -> u16
        ensures { result ≡ (numbered (belts self.now) i).places };

    fn width(&self, i: usize) -> u8
        ensures { result ≡ (numbered (belts self.now) i).width };

    fn count(&self, i: usize) -> u16
        ensures { result ≡ counted (numbered (belts self.now) i) };

    fn room(&self, i: usize) -> bool
        ensures { result ≡ roomy (numbered (belts self.now) i) }
    {
        self.count(i) < self.places(i)
    }

    fn head(&self, i: usize) -> Option<u8>
        ensures { result ≡ head_of (numbered (belts self.now) i) };

    fn put(&mut self, i: usize, word: u8) -> bool
        ensures said { result ≡ roomy (numbered (belts self.old) i) }
        ensures kept { belts self.new ≡ altered (putting word) i (belts self.old) };

    fn take(&mut self, i: usize) -> Option<u8>
        ensures said { result ≡ head_of (numbered (belts self.old) i) }
        ensures kept { belts self.new ≡ altered taking i (belts self.old) };

    fn clear(&mut self, i: usize)
        ensures { belts self.new ≡ altered clearing i (belts self.old) };

    ghost sized: { (b : Self) → (1 ≤ length (belts b)) × (length (belts b) ≤ 32) };

    ghost small: { (b : Self) (i : ℕ) → ((numbered (belts b) i).places ≤ 65535) × ((numbered (belts b) i).width ≤ 4) };
}
