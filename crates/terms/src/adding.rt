ghost use Rattle.std.specs.Prelude.{◌≡◌, ℕ, Bool, ◌+◌, ◌*◌, ◌≤◌, true, List, length, take};
ghost use Rattle.terms.specs.Sets.{number_of};
ghost use Rattle.terms.specs.Forms.{Form, insert, add_all, scaled, add_scaled, add_product};
ghost use Rattle.terms.specs.Records.{form_in, Merged, term_fits, scaled_fits, product_fits};
ghost use Rattle.terms.specs.Editing.{InFront};
ghost use Rattle.terms.specs.declared.term.Term.{Term};

use super::addends::{Multiple, Product};
use super::blanking::blank_behind;
use super::merging::put_term;
use super::room::{are_light, has_room, is_bearable, is_factor, is_light, is_small};
use super::sets::EMPTY;
use super::term::Term;

// What can be added to a form that the first of some records hold.
trait Addend {
    // Whether it is small enough, and the records are enough.
    ghost fitting: { Self → List Term → ℕ → Bool };

    // How many terms it brings at most.
    ghost terms: { Self → ℕ };

    // A form, with it added.
    ghost onto: { Self → Form → Form };

    fn fits(&self, work: &[Term], used: usize) -> bool
        ensures { result ≡ fitting self.now work.now used };

    // The place behind the last record that it may use.
    fn reach(&self, work: &[Term], used: usize) -> usize
        requires { fitting self.now work.now used ≡ true }
        ensures exact { result ≡ used + terms self.now }
        ensures within { result ≤ length work.now };

    fn put(&self, work: &mut [Term], used: usize) -> usize
        requires { fitting self.now work.old used ≡ true }
        ensures { InFront (used + terms self.now) (onto self.now (form_in (take used work.old)))
            work.old work.new result };
}

impl Addend for Term {
    ghost fitting = { λ t ts used. term_fits ts used t.coefficient };

    ghost terms = { λ t. 1 };

    ghost onto = { λ t p. insert (number_of t.set) t.coefficient p };

    fn fits(&self, work: &[Term], used: usize) -> bool {
        is_bearable(work, used) && used < work.len() && is_small(self.coefficient)
    }

    fn reach(&self, work: &[Term], used: usize) -> usize {
        used + 1
    }

    fn put(&self, work: &mut [Term], used: usize) -> usize {
        put_term(work, used, *self)
    }
}

impl Addend for Multiple<'_> {
    ghost fitting = { λ m ts used. scaled_fits ts used m.factor m.form.now };

    ghost terms = { λ m. length m.form.now };

    ghost onto = { λ m p. add_all p (scaled (number_of m.set.now) m.factor (form_in m.form.now)) };

    fn fits(&self, work: &[Term], used: usize) -> bool {
        is_bearable(work, used)
            && self.form.len() <= work.len() - used
            && is_factor(self.factor)
            && is_light(self.form)
    }

    fn reach(&self, work: &[Term], used: usize) -> usize {
        used + self.form.len()
    }

    fn put(&self, work: &mut [Term], used: usize) -> usize {
        self.put_into(work, used)
    }
}

impl Addend for Product<'_> {
    ghost fitting = { λ m ts used. product_fits ts used m.factor m.one.now m.other.now };

    ghost terms = { λ m. length m.one.now * length m.other.now };

    ghost onto = { λ m p. add_product m.factor p (form_in m.one.now) (form_in m.other.now) };

    fn fits(&self, work: &[Term], used: usize) -> bool {
        is_bearable(work, used)
            && has_room(work.len(), used as u128, self.one.len(), self.other.len())
            && is_factor(self.factor)
            && are_light(self.one, self.other)
    }

    fn reach(&self, work: &[Term], used: usize) -> usize {
        used + self.one.len() * self.other.len()
    }

    fn put(&self, work: &mut [Term], used: usize) -> usize {
        self.put_into(work, used)
    }
}

// Adds to the form in the first `used` records, and answers how many it then has; refused where it may not fit. Records behind the form, up
// to the last that it may use, are blanked.
#[tactic(auto, using(crate::proofs::Blanked::settled))]
fn add<A: Addend>(work: &mut [Term], used: usize, addend: &A) -> Option<usize>
    ensures { Merged (A.fitting addend.now work.old used) (used + A.terms addend.now)
        (A.onto addend.now (form_in (take used work.old))) work.old work.new result }
{
    if !addend.fits(work, used) {
        return None;
    }
    let reach = addend.reach(work, used);
    let len = addend.put(work, used);
    blank_behind(work, len, reach);
    Some(len)
}

/// Adds a term to the form in the first `used` records, and answers how many it then has; refused where it may not fit. The records behind
/// the form that it might have used are blank then.
pub fn add_term(work: &mut [Term], used: usize, term: Term) -> Option<usize>
    ensures { Merged (term_fits work.old used term.coefficient) (used + 1)
        (insert (number_of term.set) term.coefficient (form_in (take used work.old)))
        work.old work.new result }
{
    add(work, used, &term)
}

/// Adds a multiple of a form to the form in the first `used` records, and answers how many it then has. The records behind the form that it
/// might have used are blank then.
pub fn add_scaled(work: &mut [Term], used: usize, factor: i64, form: &[Term]) -> Option<usize>
    ensures { Merged (scaled_fits work.old used factor form.now) (used + length form.now)
        (add_scaled factor (form_in (take used work.old)) (form_in form.now))
        work.old work.new result }
{
    let multiple = Multiple {
        set: &EMPTY,
        factor,
        form,
    };
    add(work, used, &multiple)
}

/// Adds a multiple of a product to the form in the first `used` records, and answers how many it then has. The records behind the form that
/// it might have used are blank then.
pub fn add_product(
    work: &mut [Term],
    used: usize,
    factor: i64,
    one: &[Term],
    other: &[Term],
) -> Option<usize>
    ensures { Merged (product_fits work.old used factor one.now other.now)
        (used + length one.now * length other.now)
        (add_product factor (form_in (take used work.old)) (form_in one.now) (form_in other.now))
        work.old work.new result }
{
    add(work, used, &Product { factor, one, other })
}
