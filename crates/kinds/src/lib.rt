//! Kinds of number, and what elimination over them gives.
#![tactic(auto)]

ghost use Rattle.std.specs.Prelude.{◌≡◌, true, false, MatchOption};
ghost use Rattle.kinds.specs.Kinds.{Kind, Lawful, past, wholes, parities};
ghost use Rattle.kinds.specs.Completeness.{Sound, Exactly, Shaped, Signed, StepsClear};
ghost use Rattle.kinds.specs.LowestTerms.{EndsInState, KeptByLowest, StepsAtLowest, EndsWithoutTerms};

mod divisor;
mod parity;
mod whole;

pub use divisor::gcd;
pub use parity::Parity;
pub use whole::{Whole, WholeProduct, WholeSum};

/// A kind of number, by what its values mean. Values are within the kind's limit; a product of two values is exact, and
/// so is a sum of two such products: each equals the kind's own operation.
pub trait Number: Copy {
    /// A product of two numbers.
    type Product: Copy;

    /// A sum of two products, or what division makes of one.
    type Sum: Copy;

    ghost kind: { Kind };

    ghost value: { Self → kind.Num };

    ghost product: { Self.Product → kind.Num };

    ghost sum: { Self.Sum → kind.Num };

    /// Zero.
    fn zero() -> Self
        ensures { value result ≡ kind.zero };

    /// One.
    fn one() -> Self
        ensures { value result ≡ kind.one };

    /// Whether it is zero.
    fn is_zero(self) -> bool
        ensures { result ≡ kind.is_zero (value self) };

    /// Whether it is below zero.
    fn is_below_zero(self) -> bool
        ensures { result ≡ kind.below (value self) };

    /// Its negative.
    fn negated(self) -> Self
        ensures { value result ≡ kind.neg (value self) };

    /// The product with another number.
    fn times(self, x: Self) -> Self::Product
        ensures { product result ≡ kind.mul (value self) (value x) };

    /// The sum of two products.
    fn plus(p: Self::Product, q: Self::Product) -> Self::Sum
        ensures { sum result ≡ kind.add (product p) (product q) };

    /// The number that a whole number counts as, or nothing past the limit.
    fn counted(n: i64) -> Option<Self>
        ensures { MatchOption result (past kind (kind.counts n) ≡ true)
            (λ x. value x ≡ kind.counts n) };

    /// The whole number as which a number is written.
    fn written(self) -> i32
        ensures { result ≡ kind.writes (value self) };

    /// Both numbers over their divisor.
    fn lowest(c: Self, p: Self) -> (Self, Self)
        ensures first { value result.0
            ≡ kind.quotient (value c) (kind.divisor (value c) (value p)) }
        ensures second { value result.1
            ≡ kind.quotient (value p) (kind.divisor (value c) (value p)) };

    /// Zero, as a sum.
    fn zero_sum() -> Self::Sum
        ensures { sum result ≡ kind.zero };

    /// The divisor of two sums.
    fn divisor(a: Self::Sum, b: Self::Sum) -> Self::Sum
        ensures { sum result ≡ kind.divisor (sum a) (sum b) };

    /// A sum over another.
    fn quotient(a: Self::Sum, d: Self::Sum) -> Self::Sum
        ensures { sum result ≡ kind.quotient (sum a) (sum d) };

    /// The same number, or nothing past the limit.
    fn narrowed(a: Self::Sum) -> Option<Self>
        ensures { MatchOption result (past kind (sum a) ≡ true) (λ x. value x ≡ sum a) };

    ghost lawful: { Lawful kind };

    ghost within: { (x : Self) → past kind (value x) ≡ false };
}

/// Of every kind of number: each balance comes to zero in every column; a weighting does so exactly when a nonzero
/// multiple of it is a sum of multiples of the balances; balances are no more than rows, each within the limit, with
/// their first nonzero weight above zero. A kept row has its lowest term in its column, above zero; a row is stepped
/// against the kept row that has the same lowest term, kept where none has it, and a balance where it has no terms.
/// A step clears its column. The call is there for what it says.
pub fn balances_are_exact<T: Number>()
    ensures sound { Sound T.kind }
    ensures exactly { Exactly T.kind }
    ensures shaped { Shaped T.kind }
    ensures signed { Signed T.kind }
    ensures states { EndsInState T.kind }
    ensures kept { KeptByLowest T.kind }
    ensures steps { StepsAtLowest T.kind }
    ensures ends { EndsWithoutTerms T.kind }
    ensures clear { StepsClear T.kind }
{}

/// Whole numbers and parities keep the laws of a kind of number. The call is there for what it says.
pub fn kinds_are_lawful()
    ensures wholes { Lawful wholes }
    ensures parities { Lawful parities }
{}
