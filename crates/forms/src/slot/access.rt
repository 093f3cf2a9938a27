ghost use Rattle.std.specs.Prelude.{◌≡◌, ◌≤◌, true, false, [], ◌∷◌, length, take, pos, slice_index_or};
ghost use Rattle.terms.specs.Records.{form_in, light};
ghost use Rattle.terms.specs.Sets.{number_of};
ghost use Rattle.forms.specs.Gates.{large};
ghost use Rattle.forms.specs.Slots.{slot_form, slot_forms};

use crate::slot::{MOST_TERMS, Slot};
use terms::Term;

impl Slot {
    // The form without terms.
    pub(crate) fn none() -> Slot
        ensures { slot_form result ≡ [] }
    {
        Slot {
            terms: [Term::default(); MOST_TERMS],
            len: 0,
        }
    }

    // The form of a free wire: once its own term.
    pub(crate) fn wire(set: [u8; 16]) -> Slot
        ensures { slot_form result ≡ (number_of set, pos 1) ∷ [] }
    {
        let mut terms = [Term::default(); MOST_TERMS];
        terms[0] = Term {
            set,
            coefficient: 1,
        };
        Slot { terms, len: 1 }
    }

    // A form within the limits.
    pub(crate) fn hold(form: &[Term]) -> Slot
        requires few { length form.now ≤ 24 }
        requires small { large (form_in form.now) ≡ false }
        ensures { slot_form result ≡ form_in form.now }
    {
        Slot {
            terms: copied(form),
            len: form.len(),
        }
    }

    // The terms of the form.
    pub(crate) fn form(&self) -> &[Term]
        ensures same { form_in result.now ≡ slot_form self.now }
        ensures few { length result.now ≤ 24 }
        ensures easy { light result.now ≡ true }
    {
        &self.terms[..self.len]
    }
}

// A form's terms, followed by ones without value.
fn copied(form: &[Term]) -> [Term; MOST_TERMS]
    requires { length form.now ≤ 24 }
    ensures front { take (length form.now) result ≡ form.now }
    ensures whole { length result ≡ 24 }
{
    let mut terms = [Term::default(); MOST_TERMS];
    terms[..form.len()].copy_from_slice(form);
    terms
}

// The form of the line that a gate names; a line that is not there has no terms.
pub(crate) fn operand(before: &[Slot], line: u16) -> &[Term]
    ensures same { form_in result.now ≡ slice_index_or (slot_forms before.now) line [] }
    ensures few { length result.now ≤ 24 }
    ensures easy { light result.now ≡ true }
{
    before
        .get(usize::from(line))
        .map(Slot::form)
        .unwrap_or_default()
}
