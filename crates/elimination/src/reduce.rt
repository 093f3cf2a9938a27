// One row against the rows that are kept.
ghost use Rattle.std.specs.Prelude.{◌≡◌, ℕ, ◌+◌, ◌-◌, ◌*◌, ◌<◌, ◌≤◌, true, false, map, length, Some, None, IfSome, OnOk, OnErr, MatchOption, MatchResult, ◌≢◌, slice_index};
ghost use Rattle.kinds.specs.Elimination.{at, stepped, any_past, negated_if, kept_under, handled, passes};
ghost use Rattle.elimination.specs.Memory.{told, ends_below};
ghost use Rattle.elimination.specs.States.{kept_in};

use crate::kept::Kept;
use crate::rows::{
    PastLimit, combine_row, divide_row, leads_below, negate_when, row_at, row_divisor, store_row,
};
use kinds::Number;

// The first kept row whose lowest term is in column j.
fn find_lead(leads: &[usize], j: usize) -> Option<usize>
    ensures { MatchOption result ((k : ℕ) → k < length leads.now → slice_index leads.now k ≢ j) (λ i. (i < length leads.now) × (slice_index leads.now i ≡ j) × ((k : ℕ) → k < i → slice_index leads.now k ≢ j)) }
{
    leads.iter().position(|lead| *lead == j)
}

impl<'a, T: Number> Kept<'a, T> {
    // The kept row whose lowest term is in column j.
    fn led_by(&self, j: usize) -> Option<&'a [T]>
        ensures { MatchOption result (kept_under (kept_in T.value self.now) j ≡ None) (λ row. (length row.now ≡ self.now.size) × (kept_under (kept_in T.value self.now) j ≡ Some (map T.value row.now))) }
    {
        let r = find_lead(self.leads, j)?;
        Some(row_at(self.rows, self.size, r))
    }
}

// One step at place t.
fn step<T: Number>(
    row: &mut [T],
    sums: &mut [T::Sum],
    other: &[T],
    t: usize,
) -> Result<(), PastLimit>
    requires room { length sums.old ≡ length row.old }
    requires alike { length other.now ≡ length row.old }
    requires inside { t < length row.old }
    ensures stored { OnOk result ((any_past T.kind (stepped T.kind (at T.kind (map T.value row.old) t) (at T.kind (map T.value other.now) t) (map T.value row.old) (map T.value other.now)) ≡ false) × (map T.value row.new ≡ stepped T.kind (at T.kind (map T.value row.old) t) (at T.kind (map T.value other.now) t) (map T.value row.old) (map T.value other.now))) }
    ensures past { OnErr result (any_past T.kind (stepped T.kind (at T.kind (map T.value row.old) t) (at T.kind (map T.value other.now) t) (map T.value row.old) (map T.value other.now)) ≡ true) }
{
    let (c, p) = T::lowest(row[t], other[t]);
    combine_row(sums, p, row, c, other);
    let d = row_divisor::<T>(sums);
    divide_row::<T>(sums, d);
    store_row(row, sums)
}

// The row of n weights loses, column by column, what kept rows can take from it. The answer is the column of its lowest
// term, absent where it has none. Its sign is not yet looked at.
fn reduce<T: Number>(
    row: &mut [T],
    sums: &mut [T::Sum],
    kept: &Kept<T>,
    n: usize,
) -> Result<Option<usize>, PastLimit>
    requires room { length sums.old ≡ length row.old }
    requires alike { kept.now.size ≡ length row.old }
    requires inside { n ≤ length row.old }
    ensures { MatchResult result (λ lead. IfSome lead (λ j. j < length row.old - n) × (told T.kind lead (negated_if T.kind (ends_below T.kind n lead (map T.value row.new)) (map T.value row.new)) ≡ handled T.kind n (kept_in T.value kept.now) (length row.old - n) 0 (map T.value row.old))) (λ e. passes ≡ handled T.kind n (kept_in T.value kept.now) (length row.old - n) 0 (map T.value row.old)) }
{
    for j in 0..row.len() - n {
        if row[n + j].is_zero() {
            continue;
        }
        let Some(other) = kept.led_by(j) else {
            return Ok(Some(j));
        };
        step(row, sums, other, n + j)?;
    }
    Ok(None)
}

// Whether a row of n weights, with its lowest term in this column, is to be negated.
fn ends_below<T: Number>(row: &[T], n: usize, lead: Option<usize>) -> bool
    requires long { n ≤ length row.now }
    requires inside { IfSome lead (λ j. j < length row.now - n) }
    ensures { result ≡ ends_below T.kind n lead (map T.value row.now) }
{
    match lead {
        Some(j) => row[n + j].is_below_zero(),
        None => leads_below(row, n),
    }
}

// What becomes of a row of n weights, with its sign: the column of its lowest term, absent for a balance.
pub(crate) fn handle<T: Number>(
    row: &mut [T],
    sums: &mut [T::Sum],
    kept: &Kept<T>,
    n: usize,
) -> Result<Option<usize>, PastLimit>
    requires room { length sums.old ≡ length row.old }
    requires alike { kept.now.size ≡ length row.old }
    requires inside { n ≤ length row.old }
    ensures { MatchResult result (λ lead. told T.kind lead (map T.value row.new) ≡ handled T.kind n (kept_in T.value kept.now) (length row.old - n) 0 (map T.value row.old)) (λ e. passes ≡ handled T.kind n (kept_in T.value kept.now) (length row.old - n) 0 (map T.value row.old)) }
{
    let lead = reduce(row, sums, kept, n)?;
    let below = ends_below(row, n, lead);
    negate_when(row, below);
    Ok(lead)
}
