ghost use Rattle.std.specs.Prelude.{◌≡◌, ◌*◌, ◌≤◌, true, MatchOption, unsigned_abs};
ghost use Rattle.kinds.specs.Kinds.{wholes, past};
ghost use Rattle.kinds.specs.Wholes.{wholes_lawful};
ghost use Rattle.std.proofs.Common.{rules};

use crate::Number;
use crate::divisor::gcd;

// The limit of whole numbers, either way.
const LIMIT: u64 = 1000000;

/// A whole number within the limit.
#[derive(Clone, Copy, PartialEq, Eq, Debug)]
pub struct Whole {
    n: i32,
    ghost small: { unsigned_abs n ≤ wholes.limit },
}

/// A product of two whole numbers within the limit.
#[derive(Clone, Copy, PartialEq, Eq, Debug)]
pub struct WholeProduct {
    n: i64,
    ghost small: { unsigned_abs n ≤ wholes.limit * wholes.limit },
}

/// A sum of two such products, or what division makes of one.
#[derive(Clone, Copy, PartialEq, Eq, Debug)]
pub struct WholeSum {
    n: i64,
    ghost small: { unsigned_abs n ≤ 2 * (wholes.limit * wholes.limit) },
}

// The number, or nothing past the limit.
fn within_limit(n: i64) -> Option<Whole>
    ensures { MatchOption result (past wholes n ≡ true) (λ x. x.n ≡ n) }
{
    if n.unsigned_abs() <= LIMIT {
        Some(Whole { n: n as i32 })
    } else {
        None
    }
}

impl Number for Whole {
    type Product = WholeProduct;

    type Sum = WholeSum;

    ghost kind = { wholes };

    ghost value = { λ x. x.n };

    ghost product = { λ x. x.n };

    ghost sum = { λ x. x.n };

    ghost lawful = { wholes_lawful };

    ghost within = { Prim.search rules };

    fn zero() -> Whole {
        Whole { n: 0 }
    }

    fn one() -> Whole {
        Whole { n: 1 }
    }

    fn is_zero(self) -> bool {
        self.n == 0
    }

    fn is_below_zero(self) -> bool {
        self.n < 0
    }

    fn negated(self) -> Whole {
        Whole { n: -self.n }
    }

    fn times(self, x: Whole) -> WholeProduct {
        WholeProduct {
            n: i64::from(self.n) * i64::from(x.n),
        }
    }

    fn plus(p: WholeProduct, q: WholeProduct) -> WholeSum {
        WholeSum { n: p.n + q.n }
    }

    fn counted(n: i64) -> Option<Whole> {
        within_limit(n)
    }

    fn written(self) -> i32 {
        self.n
    }

    fn lowest(c: Whole, p: Whole) -> (Whole, Whole) {
        let g = gcd(u64::from(c.n.unsigned_abs()), u64::from(p.n.unsigned_abs())) as i32;
        if g == 0 {
            (c, p)
        } else {
            (Whole { n: c.n / g }, Whole { n: p.n / g })
        }
    }

    fn zero_sum() -> WholeSum {
        WholeSum { n: 0 }
    }

    fn divisor(a: WholeSum, b: WholeSum) -> WholeSum {
        WholeSum {
            n: gcd(a.n.unsigned_abs(), b.n.unsigned_abs()) as i64,
        }
    }

    fn quotient(a: WholeSum, d: WholeSum) -> WholeSum {
        if d.n == 0 {
            WholeSum { n: 0 }
        } else {
            WholeSum { n: a.n / d.n }
        }
    }

    fn narrowed(a: WholeSum) -> Option<Whole> {
        within_limit(a.n)
    }
}
