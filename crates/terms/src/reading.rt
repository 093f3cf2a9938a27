ghost use Rattle.std.specs.Prelude.{◌≡◌, ◌&&◌, pos, ◌-ℤ◌, ◌↔◌, if◌then◌else◌, IsTrue, ◌==◌, unsigned_abs};
ghost use Rattle.terms.specs.Sets.{number_of};
ghost use Rattle.terms.specs.Forms.{Rising, high, value, same};
ghost use Rattle.terms.specs.Laws.{Alike};
ghost use Rattle.terms.specs.Records.{form_in};

use super::sets::{Set, all_high, number};
use super::term::Term;

/// What a form comes to in a row of free wire values, given as the set of the high wires.
pub fn value(form: &[Term], row: &Set) -> i128
    ensures { result ≡ value (form_in form.now) (number_of row.now) }
{
    let mut sum: i128 = 0;
    for t in form {
        sum += i128::from(share(t, row));
    }
    sum
}

// What a term adds: its coefficient where its wires are all high.
fn share(t: &Term, row: &Set) -> i64
    ensures { result
        ≡ (if high (number_of t.now.set) (number_of row.now) then t.now.coefficient else pos 0) }
{
    if all_high(&t.set, row) {
        t.coefficient
    } else {
        0
    }
}

/// Whether two forms have the same terms with the same coefficients; of rising forms, whether they come to the same in every row.
#[tactic(auto, using(crate::proofs::Canon::same_equal, crate::proofs::Canon::same_alike))]
pub fn same(one: &[Term], other: &[Term]) -> bool
    ensures exact { result ≡ same (form_in one.now) (form_in other.now) }
    ensures equal { IsTrue result ↔ (form_in one.now ≡ form_in other.now) }
    ensures alike { Rising 0 (form_in one.now) → Rising 0 (form_in other.now) →
        (IsTrue result ↔ Alike (form_in one.now) (form_in other.now)) }
{
    matching(one, other)
}

// Term by term.
fn matching(one: &[Term], other: &[Term]) -> bool
    ensures { result ≡ same (form_in one.now) (form_in other.now) }
{
    if one.len() != other.len() {
        return false;
    }
    one.iter().zip(other).all(|(t, u)| same_term(*t, *u))
}

fn same_term(one: Term, other: Term) -> bool
    ensures { result
        ≡ (number_of one.set == number_of other.set
        && unsigned_abs (one.coefficient -ℤ other.coefficient) == 0) }
{
    one == other
}
