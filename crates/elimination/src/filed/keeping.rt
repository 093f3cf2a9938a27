ghost use Rattle.std.specs.Prelude.{◌≡◌, ◌+◌, ◌*◌, ◌<◌, ◌≤◌, ◌++◌, map, length, take, drop, Some};
ghost use Rattle.kinds.specs.Elimination.{added};
ghost use Rattle.elimination.specs.Memory.{told};
ghost use Rattle.elimination.specs.States.{state_in, AsWritten};

use super::{Filed, ROWS, SQUARE};
use crate::rows::keep_row;
use kinds::Number;

// Writes the numbers of a row into a memory of weights, from place `at` on.
fn write_weights<T: Number>(weights: &mut [i32], at: usize, row: &[T])
    requires { at + length row.now ≤ length weights.old }
    ensures { weights.new ≡ take at weights.old ++ (map T.kind.writes (map T.value row.now) ++ drop (at + length row.now) weights.old) }
{
    for (i, x) in row.iter().enumerate() {
        weights[at + i] = x.written();
    }
}

impl Filed {
    // Nothing yet.
    pub(crate) fn new() -> Filed
        ensures { (result.used ≡ 0) × (result.found ≡ 0) }
    {
        Filed {
            leads: [0; ROWS],
            used: 0,
            weights: [0; SQUARE],
            found: 0,
        }
    }

    // Keeps a handled row of n weights behind the others, or the weights alone of one that has no lowest term.
    pub(crate) fn keep<T: Number>(
        &mut self,
        lead: Option<usize>,
        row: &[T],
        n: usize,
        rows: &mut [T],
    )
        requires few { self.old.used + self.old.found < 32 }
        requires short { n ≤ 32 }
        requires long { n ≤ length row.now }
        requires room { self.old.used * length row.now + length row.now ≤ length rows.old }
        requires written { AsWritten T.kind n self.old }
        ensures kept { added T.kind n (state_in T.kind n (length row.now) self.old (map T.value rows.old)) (told T.kind lead (map T.value row.now)) ≡ Some (state_in T.kind n (length row.now) self.new (map T.value rows.new)) }
        ensures written { AsWritten T.kind n self.new }
        ensures counted { self.new.used + self.new.found ≡ self.old.used + self.old.found + 1 }
    {
        match lead {
            Some(j) => {
                self.leads[self.used] = j;
                keep_row(rows, self.used * row.len(), row);
                self.used += 1;
            }
            None => {
                write_weights(&mut self.weights, self.found * n, &row[0..n]);
                self.found += 1;
            }
        }
    }
}
