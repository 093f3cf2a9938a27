ghost use Rattle.std.specs.Prelude.{◌≡◌, ◌<◌, ◌≤◌, true, [], ◌∷◌, ◌++◌};
ghost use Rattle.belts.specs.Belts.{Model, holding, counted, roomy, head_of, taking, clearing, nearer};

use crate::belt::{Belt, cut_to};

// What differs between a ring and a packed row: how words of four bits are kept. What a belt does with them is said once, below.
pub(crate) trait Store {
    ghost stored: { Self → Model };

    // How many words there is place for.
    fn capacity(&self) -> u8
        ensures { result ≡ (stored self.now).places };

    // How many bits a word has.
    fn word_width(&self) -> u8
        ensures { result ≡ (stored self.now).width };

    // How many words there are.
    fn held(&self) -> u8
        ensures { result ≡ counted (stored self.now) };

    // The word that leaves next.
    fn oldest(&self) -> Option<u8>
        ensures { result ≡ head_of (stored self.now) };

    // Keeps a word behind all others.
    fn append(&mut self, word: u8)
        requires { (roomy (stored self.old) ≡ true) × (word < 16) }
        ensures { stored self.new ≡ holding (stored self.old) ((stored self.old).words ++ (word ∷ [])) };

    // Lets the oldest word go.
    fn advance(&mut self)
        requires { 0 < counted (stored self.old) }
        ensures { stored self.new ≡ taking (stored self.old) };

    // Lets every word go.
    fn empty(&mut self)
        ensures { stored self.new ≡ clearing (stored self.old) };

    ghost within: { (s : Self) → ((stored s).places ≤ 65535) × ((stored s).width ≤ 4) };
}

// The figures of a new store. One outside 1 to 16 places or 0 to 4 bits counts as the nearer end.
pub(crate) fn nearest(places: u8, width: u8) -> (u8, u8)
    ensures { result ≡ (nearer 1 16 places, nearer 0 4 width) }
{
    (places.clamp(1, 16), width.min(4))
}

impl<S: Store> Belt for S {
    ghost model = { S.stored };

    ghost small = { S.within };

    fn places(&self) -> u16 {
        u16::from(self.capacity())
    }

    fn width(&self) -> u8 {
        self.word_width()
    }

    fn count(&self) -> u16 {
        u16::from(self.held())
    }

    fn head(&self) -> Option<u8> {
        self.oldest()
    }

    fn put(&mut self, word: u8) -> bool {
        if !self.room() {
            return false;
        }
        let width = self.word_width();
        self.append(cut_to(width, word));
        true
    }

    fn take(&mut self) -> Option<u8> {
        let word = self.oldest()?;
        self.advance();
        Some(word)
    }

    fn clear(&mut self) {
        self.empty();
    }
}
