ghost use Rattle.std.specs.Prelude.{◌≡◌, ◌+◌, ◌-◌, ◌*◌, ◌^◌, ◌<◌, ◌≤◌, ◌++◌, map, length, take, drop, set, unsigned_abs};
ghost use Rattle.terms.specs.Sets.{number_of};
ghost use Rattle.terms.specs.Forms.{insert, norm, add_all, scaled, add_product};
ghost use Rattle.terms.specs.Records.{entry_of, form_in, term_of};
ghost use Rattle.terms.specs.Editing.{Placed, opened, closed, InFront};

use super::addends::{Multiple, Product};
use super::sets::{Set, before, join};
use super::term::Term;

// The first place, of the first `used`, whose set does not come before `set`.
fn place(work: &[Term], used: usize, set: &Set) -> usize
    requires { used ≤ length work.now }
    ensures { Placed (number_of set.now) used work.now result }
{
    work[..used]
        .iter()
        .position(|t| !before(&t.set, set))
        .unwrap_or(used)
}

// Puts `t` at place `i` of the first `used` records, which move up by one from there.
fn open_at(work: &mut [Term], used: usize, i: usize, t: Term)
    requires { (used < length work.old) × (i ≤ used) }
    ensures { work.new ≡ opened work.old used i t }
{
    work.copy_within(i..used, i + 1);
    work[i] = t;
}

// Takes the record at place `i` of the first `used` out: those above it move down by one.
fn close_at(work: &mut [Term], used: usize, i: usize)
    requires { (used ≤ length work.old) × (i < used) }
    ensures { work.new ≡ closed work.old used i }
{
    work.copy_within(i + 1..used, i);
}

// Adds `t` to the form in the first `used` records, and answers how many it then has.
pub(super) fn put_term(work: &mut [Term], used: usize, t: Term) -> usize
    requires room { used < length work.old }
    requires fits { norm (form_in (take used work.old)) + unsigned_abs t.coefficient < 2 ^ 63 }
    ensures { InFront (used + 1)
        (insert (number_of t.set) t.coefficient (form_in (take used work.old)))
        work.old work.new result }
{
    let i = place(work, used, &t.set);
    if i < used && !before(&t.set, &work[i].set) {
        let sum = t.coefficient + work[i].coefficient;
        if sum == 0 {
            close_at(work, used, i);
            return used - 1;
        }
        work[i].coefficient = sum;
        return used;
    }
    if t.coefficient == 0 {
        return used;
    }
    open_at(work, used, i, t);
    used + 1
}

impl Multiple<'_> {
    // Adds it to the form in the first `used` records, and answers how many terms that then has.
    pub(super) fn put_into(&self, work: &mut [Term], used: usize) -> usize
        requires room { used + length self.now.form.now ≤ length work.old }
        requires fits { norm (form_in (take used work.old))
            + unsigned_abs self.now.factor * norm (form_in self.now.form.now) < 2 ^ 63 }
        ensures { InFront (used + length self.now.form.now)
            (add_all (form_in (take used work.old))
            (scaled (number_of self.now.set.now) self.now.factor (form_in self.now.form.now)))
            work.old work.new result }
    {
        let mut n = used;
        for u in self.form {
            let t = Term {
                set: join(self.set, &u.set),
                coefficient: self.factor * u.coefficient,
            };
            n = put_term(work, n, t);
        }
        n
    }
}

impl Product<'_> {
    // Adds it to the form in the first `used` records, and answers how many terms that then has.
    pub(super) fn put_into(&self, work: &mut [Term], used: usize) -> usize
        requires room { used + length self.now.one.now * length self.now.other.now
            ≤ length work.old }
        requires fits { norm (form_in (take used work.old))
            + unsigned_abs self.now.factor * norm (form_in self.now.one.now)
            * norm (form_in self.now.other.now) < 2 ^ 63 }
        requires small { unsigned_abs self.now.factor * norm (form_in self.now.one.now) < 2 ^ 63 }
        ensures { InFront (used + length self.now.one.now * length self.now.other.now)
            (add_product self.now.factor (form_in (take used work.old))
            (form_in self.now.one.now) (form_in self.now.other.now))
            work.old work.new result }
    {
        let mut n = used;
        for t in self.one {
            let row = Multiple {
                set: &t.set,
                factor: self.factor * t.coefficient,
                form: self.other,
            };
            n = row.put_into(work, n);
        }
        n
    }
}

// Writes a form's records over the first of `work`, and answers how many.
pub(super) fn put_form(work: &mut [Term], form: &[Term]) -> usize
    requires { length form.now ≤ length work.old }
    ensures size { result ≡ length form.now }
    ensures whole { work.new ≡ form.now ++ drop (length form.now) work.old }
    ensures terms { work.new ≡ map term_of (form_in form.now) ++ drop (length form.now) work.old }
{
    for (i, t) in form.iter().enumerate() {
        write(work, i, *t);
    }
    form.len()
}

// Writes one record.
fn write(work: &mut [Term], i: usize, t: Term)
    requires { i < length work.old }
    ensures whole { work.new ≡ set work.old i t }
    ensures term { term_of (entry_of t) ≡ t }
{
    work[i] = t;
}
