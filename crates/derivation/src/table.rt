ghost use Rattle.std.specs.Prelude.{◌≡◌, ◌≤◌, length};

pub(crate) mod build;

use crate::columns::MOST_COLUMNS;
use sheet::limits::MOST_BELTS;

// Room for a row of as many numbers as columns for each belt.
pub(crate) const MOST_NUMBERS: usize = MOST_BELTS * MOST_COLUMNS;

pub(crate) type Numbers = [i64; MOST_NUMBERS];

// The coefficients of all flows in all columns: `belts` rows of `columns` numbers, one after another, first in `numbers`.
#[derive(Drop)]
pub(crate) struct Table {
    pub(crate) belts: usize,
    pub(crate) columns: usize,
    numbers: Numbers,
    ghost whole: { length numbers ≡ 8192 },
    ghost few: { belts ≤ 32 },
    ghost most: { columns ≤ 256 },
}
