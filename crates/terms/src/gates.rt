ghost use Rattle.std.specs.Prelude.{◌≡◌, ◌+◌, ◌≤◌, true, not, ◌&&◌, ◌||◌, length, negsuc, unsigned_abs};
ghost use Rattle.terms.specs.Forms.{add_all, add_product, not_form, and_form, or_form, xor_form};
ghost use Rattle.terms.specs.Laws.{differ};
ghost use Rattle.terms.specs.Records.{form_in, gate_fits, product_room, sum_room, Held, WorkedOut};
ghost use Rattle.terms.specs.Editing.{InFront};

use super::addends::{Multiple, Product};
use super::blanking::blank_behind;
use super::merging::put_form;
use super::room::{and_fits, not_fits, or_fits};
use super::sets::EMPTY;
use super::term::Term;

/// Works NOT of a form out in the first records of `work`, and answers how many terms it has. The records behind it that it might have
/// used are blank then.
#[tactic(auto, using(crate::proofs::Gating::formed, crate::proofs::Blanked::settled, crate::proofs::Gating::not_gated))]
pub fn not_form(form: &[Term], work: &mut [Term]) -> Option<usize>
    ensures { WorkedOut (length form.now + 1) (λ p q. not_form p) (λ a b. not a) form.now form.now
        work.old work.new result }
{
    if !not_fits(work, form) {
        return None;
    }
    let len = negation(form, work);
    blank_behind(work, len, form.len() + 1);
    Some(len)
}

/// Works AND of two forms out in the first records of `work`, and answers how many terms it has. The records behind it that it might have
/// used are blank then.
#[tactic(auto, using(crate::proofs::Gating::formed, crate::proofs::Blanked::settled, crate::proofs::Gating::and_gated))]
pub fn and_form(one: &[Term], other: &[Term], work: &mut [Term]) -> Option<usize>
    ensures { WorkedOut (product_room one.now other.now) and_form (λ a b. a && b) one.now other.now
        work.old work.new result }
{
    if !and_fits(work, one, other) {
        return None;
    }
    let len = conjunction(one, other, work);
    blank_behind(work, len, one.len() * other.len());
    Some(len)
}

/// Works OR of two forms out in the first records of `work`, and answers how many terms it has. The records behind it that it might have
/// used are blank then.
pub fn or_form(one: &[Term], other: &[Term], work: &mut [Term]) -> Option<usize>
    ensures { WorkedOut (sum_room one.now other.now) or_form (λ a b. a || b) one.now other.now
        work.old work.new result }
{
    sum_less(-1, one, other, work)
}

/// Works XOR of two forms out in the first records of `work`, and answers how many terms it has. The records behind it that it might have
/// used are blank then.
pub fn xor_form(one: &[Term], other: &[Term], work: &mut [Term]) -> Option<usize>
    ensures { WorkedOut (sum_room one.now other.now) xor_form differ one.now other.now
        work.old work.new result }
{
    sum_less(-2, one, other, work)
}

fn negation(form: &[Term], work: &mut [Term]) -> usize
    requires { gate_fits (length form.now + 1) work.old form.now form.now ≡ true }
    ensures { InFront (length form.now + 1) (not_form (form_in form.now))
        work.old work.new result }
{
    work[0] = Term {
        set: EMPTY,
        coefficient: 1,
    };
    let less = Multiple {
        set: &EMPTY,
        factor: -1,
        form,
    };
    less.put_into(work, 1)
}

fn conjunction(one: &[Term], other: &[Term], work: &mut [Term]) -> usize
    requires { gate_fits (product_room one.now other.now) work.old one.now other.now ≡ true }
    ensures { InFront (product_room one.now other.now)
        (and_form (form_in one.now) (form_in other.now)) work.old work.new result }
{
    let product = Product {
        factor: 1,
        one,
        other,
    };
    product.put_into(work, 0)
}

// Works the sum of two forms and `factor` times their product out: OR is the sum less the product, XOR the sum less twice the product.
fn sum_less(factor: i64, one: &[Term], other: &[Term], work: &mut [Term]) -> Option<usize>
    requires { unsigned_abs factor ≤ 2 }
    ensures or { factor ≡ negsuc 0 →
        WorkedOut (sum_room one.now other.now) or_form (λ a b. a || b) one.now other.now
        work.old work.new result }
    ensures xor { factor ≡ negsuc 1 →
        WorkedOut (sum_room one.now other.now) xor_form differ one.now other.now
        work.old work.new result }
{
    if !or_fits(work, one, other) {
        return None;
    }
    Some(sum_and_product(factor, one, other, work))
}

// The sum of two forms and `factor` times their product.
fn sum_and_product(factor: i64, one: &[Term], other: &[Term], work: &mut [Term]) -> usize
    requires fits { gate_fits (sum_room one.now other.now) work.old one.now other.now ≡ true }
    requires few { unsigned_abs factor ≤ 2 }
    ensures { Held (sum_room one.now other.now)
        (add_product factor (add_all (form_in one.now) (form_in other.now))
        (form_in one.now) (form_in other.now))
        work.old work.new result }
{
    let copied = put_form(work, one);
    let second = Multiple {
        set: &EMPTY,
        factor: 1,
        form: other,
    };
    let used = second.put_into(work, copied);
    let len = Product { factor, one, other }.put_into(work, used);
    blank_behind(work, len, one.len() + other.len() + one.len() * other.len());
    len
}
