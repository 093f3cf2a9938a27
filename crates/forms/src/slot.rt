ghost use Rattle.std.specs.Prelude.{◌≡◌, ◌≤◌, true, length, take};
ghost use Rattle.terms.specs.Records.{light};

use terms::Term;

pub(crate) mod access;

// The most terms of a gate's form.
pub(crate) const MOST_TERMS: usize = 24;

// The form of one line of a sheet, within the limits: the first `len` of `terms`.
#[derive(Clone, Copy)]
pub(crate) struct Slot {
    terms: [Term; MOST_TERMS],
    len: usize,
    ghost whole: { length terms ≡ 24 },
    ghost few: { len ≤ 24 },
    ghost easy: { light (take len terms) ≡ true },
}
