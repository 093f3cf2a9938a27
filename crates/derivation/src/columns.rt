ghost use Rattle.std.specs.Prelude.{◌≡◌, ◌≤◌, length, take};
ghost use Rattle.derivation.specs.Memory.{Found};

pub(crate) mod collect;

use terms::Term;

// How many columns there may be.
pub(crate) const MOST_COLUMNS: usize = 256;

// Records to collect columns in: one more than there may be.
const MOST_RECORDS: usize = MOST_COLUMNS + 1;

// The columns: the different terms of flows, rising, in the first `used` records, which count how often each was found.
#[derive(Drop)]
pub(crate) struct Columns {
    records: [Term; MOST_RECORDS],
    pub(crate) used: usize,
    ghost whole: { length records ≡ 257 },
    ghost within: { used ≤ 257 },
    ghost found: { Found (take used records) },
}
