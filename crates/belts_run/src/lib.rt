#![tactic(auto)]

ghost use Rattle.std.specs.Prelude.{[]};
ghost use Rattle.std.proofs.Common.{rules};

use belts::belt::Belt;

// A belt without places: it never takes a word in. The tests set it between two others.
#[derive(Drop)]
pub struct Closed;

impl Belt for Closed {
    ghost model = { λ _. record { places = 0; width = 4; words = [] } };

    ghost small = { Prim.search rules };

    fn places(&self) -> u16 {
        0
    }

    fn width(&self) -> u8 {
        4
    }

    fn count(&self) -> u16 {
        0
    }

    fn head(&self) -> Option<u8> {
        None
    }

    fn put(&mut self, _word: u8) -> bool {
        false
    }

    fn take(&mut self) -> Option<u8> {
        None
    }

    fn clear(&mut self) {}
}

#[cfg(test)]
mod tests {
    use super::*;
    use banks::bank::Bank;
    use banks::beside::Beside;
    use banks::lanes::six_lanes;
    use banks::rack::Rack;
    use banks::single::Single;
    use belts::drive::{Answer, Call, drive};
    use belts::ring::Ring;
    use belts::row::PackedRow;
    use belts::series::Series;
    use std::alloc::Global;
    use std::process::Abort;
    use std::test::Fail;

    // How many calls a script makes.
    const CALLS: u32 = 2000;

    // A word that lies on a belt.
    #[derive(Clone, Copy)]
    struct Lying {
        belt: usize,
        word: u8,
    }

    // The figures that every belt of a bank has.
    #[derive(Clone, Copy)]
    struct Figures {
        belts: u8,
        places: u16,
        width: u8,
    }

    // How many words of a plain list lie on a belt.
    fn count_of(list: &[Lying], belt: usize) -> u16 {
        let n = list.iter().filter(|item| item.belt == belt).count();
        u16::try_from(n).unwrap_or(u16::MAX)
    }

    // The first word of a plain list that lies on a belt.
    fn head_of(list: &[Lying], belt: usize) -> Option<u8> {
        let item = list.iter().find(|item| item.belt == belt)?;
        Some(item.word)
    }

    // The bits of a word that a width keeps.
    fn kept_bits(width: u8) -> u8 {
        match width {
            0 => 0,
            1 => 1,
            2 => 3,
            3 => 7,
            _ => 15,
        }
    }

    // The next number of a linear congruential sequence.
    fn next(seed: u32) -> u32 {
        seed.wrapping_mul(1664525).wrapping_add(1013904223)
    }

    // A bank, and the plain list that it is set against.
    #[derive(Drop)]
    struct Beheld<B> {
        bank: B,
        list: Vec<Lying>,
        figures: Figures,
    }

    impl<B: Bank + Drop> Beheld<B> {
        // A bank without words.
        fn empty(heap: Global, bank: B, figures: Figures) -> Self {
            Beheld {
                bank,
                list: Vec::new(heap),
                figures,
            }
        }

        // How many places a belt of a number has.
        fn places(&self, i: usize) -> u16 {
            if i < usize::from(self.figures.belts) {
                self.figures.places
            } else {
                0
            }
        }

        // Every question about one belt, against the list.
        fn look(&self, rt: &impl Abort, i: usize) {
            let there = i < usize::from(self.figures.belts);
            let count = count_of(&self.list, i);
            assert_eq!(rt; self.bank.size(), usize::from(self.figures.belts));
            assert_eq!(rt; self.bank.places(i), self.places(i));
            assert_eq!(rt;
                self.bank.width(i),
                if there { self.figures.width } else { 0 }
            );
            assert_eq!(rt; self.bank.count(i), count);
            assert_eq!(rt; self.bank.room(i), count < self.places(i));
            assert_eq!(rt; self.bank.head(i), head_of(&self.list, i));
        }

        // One call, made on the bank and on the list.
        fn step(&mut self, rt: &impl Abort, i: usize, drawn: u32) -> Result<(), Fail> {
            match (drawn >> 8) % 64 {
                0 => {
                    self.bank.clear(i);
                    self.list.retain(|item| item.belt != i);
                }
                1..=38 => {
                    let word = (drawn >> 24) as u8;
                    let fits = count_of(&self.list, i) < self.places(i);
                    assert_eq!(rt; self.bank.put(i, word), fits);
                    if fits {
                        let word = word & kept_bits(self.figures.width);
                        self.list.push(Lying { belt: i, word })?;
                    }
                }
                _ => {
                    assert_eq!(rt; self.bank.take(i), head_of(&self.list, i));
                    if let Some(k) = self.list.iter().position(|item| item.belt == i) {
                        self.list.remove(k);
                    }
                }
            }
            Ok(())
        }

        // A long script of calls, one number past the bank's end among them; every belt is looked at after each call.
        fn run(mut self, rt: &impl Abort) -> Result<(), Fail> {
            let numbers = usize::from(self.figures.belts) + 1;
            let mut drawn: u32 = 2024;
            for _ in 0..CALLS {
                drawn = next(drawn);
                let i = (drawn >> 16) as usize % numbers;
                self.step(rt, i, next(drawn))?;
                for k in 0..numbers {
                    self.look(rt, k);
                }
            }
            Ok(())
        }
    }

    impl<B: Belt + Drop> Beheld<Single<B>> {
        // One belt without words.
        fn single(heap: Global, belt: B, places: u16, width: u8) -> Self {
            let figures = Figures {
                belts: 1,
                places,
                width,
            };
            Beheld::empty(heap, Single::new(belt), figures)
        }
    }

    #[test]
    fn rings(rt: HostRuntime) -> Result<(), Fail> {
        Beheld::single(rt.alloc(), Ring::new(16, 4), 16, 4).run(&rt)?;
        Beheld::single(rt.alloc(), Ring::new(5, 3), 5, 3).run(&rt)?;
        Beheld::single(rt.alloc(), Ring::new(0, 200), 1, 4).run(&rt)
    }

    #[test]
    fn packed_rows(rt: HostRuntime) -> Result<(), Fail> {
        Beheld::single(rt.alloc(), PackedRow::new(16, 4), 16, 4).run(&rt)?;
        Beheld::single(rt.alloc(), PackedRow::new(7, 1), 7, 1).run(&rt)?;
        Beheld::single(rt.alloc(), PackedRow::new(99, 0), 16, 0).run(&rt)
    }

    // Rows with the same words, places and width are equal, and a copy goes its own way.
    #[test]
    fn equal_rows(rt: HostRuntime) {
        let mut row = PackedRow::new(0, 9);
        assert_eq!(rt; row, PackedRow::new(1, 4));
        let before = row;
        assert!(rt; row.put(3));
        assert_ne!(rt; row, before);
        assert_eq!(rt; row.take(), Some(3));
        assert_eq!(rt; row, before);
    }

    // A series whose middle belt has no places.
    #[test]
    fn series_closed_between(rt: HostRuntime) -> Result<(), Fail> {
        let front = Series::new(Ring::new(2, 2), Closed);
        Beheld::single(rt.alloc(), Series::new(front, PackedRow::new(2, 4)), 4, 2).run(&rt)
    }

    // The front's words are wider than the rear's, and both hold some before they are joined.
    #[test]
    fn series_joined_late(rt: HostRuntime) -> Result<(), Fail> {
        let mut front = Ring::new(3, 4);
        let mut rear = PackedRow::new(4, 3);
        assert!(rt; front.put(15));
        assert!(rt; rear.put(6));
        let mut beheld = Beheld::single(rt.alloc(), Series::new(front, rear), 7, 3);
        beheld.list.push(Lying { belt: 0, word: 7 })?;
        beheld.list.push(Lying { belt: 0, word: 6 })?;
        beheld.run(&rt)
    }

    #[test]
    fn lanes(rt: HostRuntime) -> Result<(), Fail> {
        let figures = Figures {
            belts: 7,
            places: 16,
            width: 4,
        };
        Beheld::empty(rt.alloc(), six_lanes(), figures).run(&rt)
    }

    // Of twenty belts beside twenty, 32 are shown.
    #[test]
    fn racks_beside(rt: HostRuntime) -> Result<(), Fail> {
        let bank = Beside::new(Rack::new(20, 2, 3), Rack::new(20, 2, 3));
        let figures = Figures {
            belts: 32,
            places: 2,
            width: 3,
        };
        Beheld::empty(rt.alloc(), bank, figures).run(&rt)
    }

    // A copy of a bank keeps its words, whatever becomes of the other.
    #[test]
    fn copied_bank(rt: HostRuntime) {
        let mut bank = six_lanes();
        assert!(rt; bank.put(6, 9));
        let before = bank;
        assert_eq!(rt; bank.take(6), Some(9));
        assert!(rt; bank.put(2, 5));
        assert_eq!(rt; before.head(6), Some(9));
        assert_eq!(rt; before.count(2), 0);
    }

    // A bank tells what it holds.
    #[test]
    fn told_bank(rt: HostRuntime) -> Result<(), Fail> {
        let mut bank = Single::new(PackedRow::new(2, 3));
        assert!(rt; bank.put(0, 13));
        assert_eq!(rt;
            format!(in rt.alloc(); "{bank:?}")?.as_str(),
            "Single { belt: PackedRow { bits: 5, count: 1, places: 2, width: 3 } }"
        );
        Ok(())
    }

    // Five answers for seven calls: the calls stop there, and the place after the fifth stays.
    #[test]
    fn driven(rt: HostRuntime) {
        let calls = [
            Call::Put(9),
            Call::Put(20),
            Call::Put(1),
            Call::Take,
            Call::Take,
            Call::Take,
            Call::Put(2),
        ];
        let mut log = [Answer::Said(false); 6];
        let mut belt = Ring::new(2, 4);
        assert_eq!(rt; drive(&mut belt, &calls, &mut log[0..5]), 5);
        let answers = [
            Answer::Said(true),
            Answer::Said(true),
            Answer::Said(false),
            Answer::Gave(Some(9)),
            Answer::Gave(Some(4)),
            Answer::Said(false),
        ];
        assert_eq!(rt; log, answers);
        assert_eq!(rt; belt.count(), 0);
    }
}
