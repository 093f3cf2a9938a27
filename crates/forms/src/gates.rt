ghost use Rattle.std.specs.Prelude.{◌≡◌, ◌≤◌, [], length, if◌then◌else◌, MatchOption, nat_lt, unsigned_abs};
ghost use Rattle.terms.specs.Forms.{one_form};
ghost use Rattle.terms.specs.Records.{form_in};
ghost use Rattle.terms.specs.Editing.{InFront};
ghost use Rattle.forms.specs.Gates.{gate_form, large};
ghost use Rattle.forms.specs.Slots.{slot_forms};

use crate::slot::access::operand;
use crate::slot::{MOST_TERMS, Slot};
use sheet::node::Gate;
use terms::sets::EMPTY;
use terms::{Term, and_form, not_form, or_form, xor_form};

// The coefficients of a form are at most this, either way.
const MOST_COEFFICIENT: u64 = 8_388_608;

// Records in which the form of a gate is worked out: room for the terms of two operands and of their product.
pub(crate) const WORK: usize = MOST_TERMS * MOST_TERMS + 2 * MOST_TERMS;

pub(crate) type Work = [Term; WORK];

// How many terms the form of a constant wire has, which the first records of `work` then hold.
fn constant(high: bool, work: &mut Work) -> usize
    ensures { InFront 624 (if high then one_form else []) work.old work.new result }
{
    if !high {
        return 0;
    }
    work[0] = Term {
        set: EMPTY,
        coefficient: 1,
    };
    1
}

// How many terms the form of a gate has, which the first records of `work` then hold.
pub(crate) fn work_out(before: &[Slot], gate: Gate, work: &mut Work) -> usize
    ensures { InFront 624 (gate_form (slot_forms before.now) gate) work.old work.new result }
{
    gate_form(before, gate, work).unwrap_or(0)
}

// The same, as the calls that merge forms answer it. It is never absent, since each operand has at most 24 terms.
fn gate_form(before: &[Slot], gate: Gate, work: &mut Work) -> Option<usize>
    ensures { MatchOption result ⊥ (λ n.
        InFront 624 (gate_form (slot_forms before.now) gate) work.old work.new n) }
{
    match gate {
        Gate::Constant(high) => Some(constant(high, work)),
        Gate::Not { of } => not_form(operand(before, of), work),
        Gate::And { left, right } => and_form(operand(before, left), operand(before, right), work),
        Gate::Or { left, right } => or_form(operand(before, left), operand(before, right), work),
        Gate::Xor { left, right } => xor_form(operand(before, left), operand(before, right), work),
    }
}

// Whether a term's coefficient passes its limit.
fn is_past(term: Term) -> bool
    ensures { result ≡ nat_lt 8388608 (unsigned_abs term.coefficient) }
{
    term.coefficient.unsigned_abs() > MOST_COEFFICIENT
}

// Whether some coefficient passes its limit.
pub(crate) fn is_large(form: &[Term]) -> bool
    ensures { result ≡ large (form_in form.now) }
{
    form.iter().any(|term| is_past(*term))
}
