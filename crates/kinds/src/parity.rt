ghost use Rattle.kinds.specs.Kinds.{parities};
ghost use Rattle.kinds.specs.Parities.{parities_lawful, parity_within};

use crate::Number;

/// A remainder by 2: odd is 1. Products and sums of remainders are remainders again.
#[derive(Clone, Copy, PartialEq, Eq, Debug)]
pub struct Parity {
    pub odd: bool,
}

impl Number for Parity {
    type Product = Parity;

    type Sum = Parity;

    ghost kind = { parities };

    ghost value = { λ x. x.odd };

    ghost product = { λ x. x.odd };

    ghost sum = { λ x. x.odd };

    ghost lawful = { parities_lawful };

    ghost within = { λ x. parity_within x.odd };

    fn zero() -> Parity {
        Parity { odd: false }
    }

    fn one() -> Parity {
        Parity { odd: true }
    }

    fn is_zero(self) -> bool {
        !self.odd
    }

    fn is_below_zero(self) -> bool {
        false
    }

    fn negated(self) -> Parity {
        self
    }

    fn times(self, x: Parity) -> Parity {
        Parity {
            odd: self.odd & x.odd,
        }
    }

    fn plus(p: Parity, q: Parity) -> Parity {
        Parity { odd: p.odd ^ q.odd }
    }

    fn counted(n: i64) -> Option<Parity> {
        Some(Parity {
            odd: n.unsigned_abs() % 2 == 1,
        })
    }

    fn written(self) -> i32 {
        i32::from(self.odd)
    }

    fn lowest(c: Parity, p: Parity) -> (Parity, Parity) {
        (c, p)
    }

    fn zero_sum() -> Parity {
        Parity { odd: false }
    }

    fn divisor(a: Parity, b: Parity) -> Parity {
        Parity { odd: true }
    }

    fn quotient(a: Parity, d: Parity) -> Parity {
        a
    }

    fn narrowed(a: Parity) -> Option<Parity> {
        Some(a)
    }
}
