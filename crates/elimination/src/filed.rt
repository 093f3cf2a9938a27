ghost use Rattle.std.specs.Prelude.{◌≡◌, ◌+◌, ◌≤◌, length};

pub(crate) mod keeping;

// The most rows, the most columns, and how many numbers there are then in a row, in the row at work and all kept rows,
// and in all balances.
pub(crate) const ROWS: usize = 32;

pub(crate) const COLUMNS: usize = 256;

pub(crate) const SIZE: usize = ROWS + COLUMNS;

pub(crate) const CELLS: usize = SIZE + ROWS * SIZE;

pub(crate) const SQUARE: usize = ROWS * ROWS;

// What is kept and found so far, but for the numbers of the kept rows: the column of the lowest term of each of `used` rows,
// and the weights of `found` balances as they are written, one after another.
#[derive(Drop)]
pub(crate) struct Filed {
    pub(crate) leads: [usize; ROWS],
    pub(crate) used: usize,
    pub(crate) weights: [i32; SQUARE],
    pub(crate) found: usize,
    ghost led: { length leads ≡ 32 },
    ghost room: { length weights ≡ 1024 },
    ghost few: { used + found ≤ 32 },
}
