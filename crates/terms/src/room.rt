ghost use Rattle.std.specs.Prelude.{◌≡◌, ◌+◌, ◌*◌, ◌^◌, ◌<◌, ◌≤◌, ◌&&◌, length, nat_le, nat_lt, unsigned_abs};
ghost use Rattle.terms.specs.Forms.{norm};
ghost use Rattle.terms.specs.Records.{form_in, light, bearable, gate_fits, product_room, sum_room};

use super::term::Term;

// The coefficients of an operand come to less than this together.
const LIGHT: u64 = 1_073_741_824;

// So do those of a form that something is added to, and that of a term that is added.
const BEARABLE: u64 = 4_611_686_018_427_387_904;

// No operand is added more often than this, either way.
const OFTEN: u64 = 2;

// Whether the coefficients come to less than the limit together.
fn below(form: &[Term], limit: u64) -> bool
    requires { (0 < limit) × (limit ≤ 2 ^ 62) }
    ensures { result ≡ nat_lt (norm (form_in form.now)) limit }
{
    let mut sum = 0;
    for t in form {
        sum += t.coefficient.unsigned_abs();
        if sum >= limit {
            return false;
        }
    }
    true
}

// Whether a form can be an operand.
pub(super) fn is_light(form: &[Term]) -> bool
    ensures { result ≡ light form.now }
{
    below(form, LIGHT)
}

// Whether two forms can be operands.
pub(super) fn are_light(one: &[Term], other: &[Term]) -> bool
    ensures { result ≡ (light one.now && light other.now) }
{
    is_light(one) && is_light(other)
}

// Whether something can be added to the form in the first `used` records.
pub(super) fn is_bearable(work: &[Term], used: usize) -> bool
    ensures { result ≡ bearable work.now used }
{
    used <= work.len() && below(&work[0..used], BEARABLE)
}

// Whether an operand may be added so often.
pub(super) fn is_factor(factor: i64) -> bool
    ensures { result ≡ nat_le (unsigned_abs factor) 2 }
{
    factor.unsigned_abs() <= OFTEN
}

// Whether a term with the coefficient can be added.
pub(super) fn is_small(coefficient: i64) -> bool
    ensures { result ≡ nat_lt (unsigned_abs coefficient) (2 ^ 62) }
{
    coefficient.unsigned_abs() < BEARABLE
}

// Whether so many records suffice for those used and a product.
pub(super) fn has_room(records: usize, used: u128, one: usize, other: usize) -> bool
    requires { used + 2 ≤ 2 ^ 65 }
    ensures { result ≡ nat_le (used + one * other) records }
{
    used + one as u128 * other as u128 <= records as u128
}

// Whether NOT of a form can be worked out in the records.
pub(super) fn not_fits(work: &[Term], form: &[Term]) -> bool
    ensures { result ≡ gate_fits (length form.now + 1) work.now form.now form.now }
{
    form.len() < work.len() && is_light(form)
}

// Whether the product of two forms can be worked out in the records.
pub(super) fn and_fits(work: &[Term], one: &[Term], other: &[Term]) -> bool
    ensures { result ≡ gate_fits (product_room one.now other.now) work.now one.now other.now }
{
    has_room(work.len(), 0, one.len(), other.len()) && are_light(one, other)
}

// Whether the sum of two forms, and their product, can be worked out in the records.
pub(super) fn or_fits(work: &[Term], one: &[Term], other: &[Term]) -> bool
    ensures { result ≡ gate_fits (sum_room one.now other.now) work.now one.now other.now }
{
    has_room(
        work.len(),
        one.len() as u128 + other.len() as u128,
        one.len(),
        other.len(),
    ) && are_light(one, other)
}
