ghost use Rattle.std.specs.Prelude.{◌≡◌, ◌<◌, ◌≤◌};
ghost use Rattle.belts.specs.Belts.{Model, cut, counted, roomy, head_of, putting, taking, clearing};

// A belt: a bounded queue of words, first in, first out. All that is promised of it is said of its model.
pub trait Belt {
    ghost model: { Self → Model };

    // How many words it has place for, always the same.
    fn places(&self) -> u16
        ensures { result ≡ (model self.now).places };

    // How many bits a word has, always the same.
    fn width(&self) -> u8
        ensures { result ≡ (model self.now).width };

    // How many words it holds, or 65,535 where they are more.
    fn count(&self) -> u16
        ensures { result ≡ counted (model self.now) };

    // Whether the next put will say yes.
    fn room(&self) -> bool
        ensures { result ≡ roomy (model self.now) }
    {
        self.count() < self.places()
    }

    // The oldest word, which stays.
    fn head(&self) -> Option<u8>
        ensures { result ≡ head_of (model self.now) };

    // Appends the word, cut to the width, and says yes; without room it says no and changes nothing.
    fn put(&mut self, word: u8) -> bool
        ensures said { result ≡ roomy (model self.old) }
        ensures kept { model self.new ≡ putting word (model self.old) };

    // Removes the oldest word and answers it.
    fn take(&mut self) -> Option<u8>
        ensures said { result ≡ head_of (model self.old) }
        ensures kept { model self.new ≡ taking (model self.old) };

    // Removes every word.
    fn clear(&mut self)
        ensures { model self.new ≡ clearing (model self.old) };

    ghost small: { (b : Self) → ((model b).places ≤ 65535) × ((model b).width ≤ 4) };
}

// The low bits of a word, as many as the width says.
pub(crate) fn cut_to(width: u8, word: u8) -> u8
    ensures low { result ≡ cut width word }
    ensures small { width ≤ 4 → result < 16 }
{
    if width < 8 { word % (1 << width) } else { word }
}
