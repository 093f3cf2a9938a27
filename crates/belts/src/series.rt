ghost use Rattle.std.specs.Prelude.{◌≡◌, true, []};
ghost use Rattle.belts.specs.Belts.{roomy, joining, in_series};
ghost use Rattle.std.proofs.Common.{rules};

use crate::belt::{Belt, cut_to};

// Two belts as one, whatever they hold: the front has the older words, which leave first.
#[derive(Clone, Copy, Debug, Drop)]
pub struct Series<F, R> {
    front: F,
    rear: R,
}

impl<F: Belt, R: Belt> Series<F, R> {
    // The two belts with the words they hold.
    pub fn new(front: F, rear: R) -> Self
        ensures { (result.front ≡ front) × (result.rear ≡ rear) }
    {
        Series { front, rear }
    }

    // Moves words up from the rear while the front has room.
    fn move_up(&mut self)
        ensures same { in_series (F.model self.new.front) (R.model self.new.rear) ≡ in_series (F.model self.old.front) (R.model self.old.rear) }
        ensures settled { roomy (F.model self.new.front) ≡ true → (R.model self.new.rear).words ≡ [] }
    {
        while self.front.room() {
            let Some(word) = self.rear.take() else {
                return;
            };
            self.front.put(word);
        }
    }

    // Puts a word behind all others: into the front where nothing stands in the rear, else into the rear.
    fn append(&mut self, word: u8) -> bool
        requires { roomy (in_series (F.model self.old.front) (R.model self.old.rear)) ≡ true }
        ensures said { result ≡ true }
        ensures joined { in_series (F.model self.new.front) (R.model self.new.rear) ≡ joining word (in_series (F.model self.old.front) (R.model self.old.rear)) }
    {
        self.move_up();
        self.front.put(word) || self.rear.put(word)
    }
}

impl<F: Belt, R: Belt> Belt for Series<F, R> {
    ghost model = { λ s. in_series (F.model s.front) (R.model s.rear) };

    ghost small = { Prim.search rules };

    fn places(&self) -> u16 {
        self.front.places().saturating_add(self.rear.places())
    }

    fn width(&self) -> u8 {
        self.front.width().min(self.rear.width())
    }

    fn count(&self) -> u16 {
        self.front.count().saturating_add(self.rear.count())
    }

    fn head(&self) -> Option<u8> {
        let width = self.width();
        let word = self.front.head().or_else(|| self.rear.head());
        word.map(|word| cut_to(width, word))
    }

    fn put(&mut self, word: u8) -> bool {
        self.room() && self.append(word)
    }

    fn take(&mut self) -> Option<u8> {
        let width = self.width();
        if let Some(word) = self.front.take() {
            return Some(cut_to(width, word));
        }
        self.rear.take().map(|word| cut_to(width, word))
    }

    fn clear(&mut self) {
        self.front.clear();
        self.rear.clear();
    }
}
