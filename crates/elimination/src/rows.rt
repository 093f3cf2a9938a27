// Single rows: starting, combining, dividing, storing, negating.
ghost use Rattle.std.specs.Prelude.{◌≡◌, ◌+◌, ◌*◌, ◌<◌, ◌≤◌, true, false, ◌++◌, map, length, take, drop, OnOk, OnErr};
ghost use Rattle.kinds.specs.Elimination.{less, divisor_from, over, any_past, leads_below, negated_if, unit};

use kinds::Number;

// A number passes the limit.
#[derive(Clone, Copy)]
pub(crate) struct PastLimit;

// The n weights of the row with number b: 1 at its own place, 0 elsewhere.
pub(crate) fn set_weights<T: Number>(row: &mut [T], n: usize, b: usize)
    requires room { n ≤ length row.old }
    requires inside { b < n }
    ensures { map T.value (take n row.new) ≡ unit T.kind n b }
{
    for x in row.iter_mut() {
        *x = T::zero();
    }
    row[b] = T::one();
}

// The coefficients of a row, after its n weights.
pub(crate) fn set_coefficients<T: Number>(
    row: &mut [T],
    n: usize,
    coefficients: &[i64],
) -> Result<(), PastLimit>
    requires { length row.old ≡ n + length coefficients.now }
    ensures stored { OnOk result ((any_past T.kind (map T.kind.counts coefficients.now) ≡ false) × (map T.value row.new ≡ map T.value (take n row.old) ++ map T.kind.counts coefficients.now)) }
    ensures past { OnErr result (any_past T.kind (map T.kind.counts coefficients.now) ≡ true) }
{
    for (i, k) in coefficients.iter().enumerate() {
        row[n + i] = T::counted(*k).ok_or(PastLimit)?;
    }
    Ok(())
}

// The starting row with number b.
pub(crate) fn start_row<T: Number>(
    row: &mut [T],
    n: usize,
    b: usize,
    coefficients: &[i64],
) -> Result<(), PastLimit>
    requires room { length row.old ≡ n + length coefficients.now }
    requires inside { b < n }
    ensures stored { OnOk result ((any_past T.kind (unit T.kind n b ++ map T.kind.counts coefficients.now) ≡ false) × (map T.value row.new ≡ unit T.kind n b ++ map T.kind.counts coefficients.now)) }
    ensures past { OnErr result (any_past T.kind (unit T.kind n b ++ map T.kind.counts coefficients.now) ≡ true) }
{
    set_weights(row, n, b);
    set_coefficients(row, n, coefficients)
}

// a x plus b y.
fn sum_of<T: Number>(a: T, x: T, b: T, y: T) -> T::Sum
    ensures { T.sum result ≡ T.kind.add (T.kind.mul (T.value a) (T.value x)) (T.kind.mul (T.value b) (T.value y)) }
{
    T::plus(a.times(x), b.times(y))
}

// Each number of `out` becomes a times that of `row` less c times that of `other`: the sum of a times the one and -c times
// the other.
pub(crate) fn combine_row<T: Number>(out: &mut [T::Sum], a: T, row: &[T], c: T, other: &[T])
    requires long { length row.now ≡ length out.old }
    requires alike { length other.now ≡ length out.old }
    ensures { map T.sum out.new ≡ less T.kind (T.value a) (map T.value row.now) (T.value c) (map T.value other.now) }
{
    let minus_c = c.negated();
    for (i, x) in row.iter().enumerate() {
        out[i] = sum_of(a, *x, minus_c, other[i]);
    }
}

// The divisor of all the numbers of a row.
pub(crate) fn row_divisor<T: Number>(row: &[T::Sum]) -> T::Sum
    ensures { T.sum result ≡ divisor_from T.kind T.kind.zero (map T.sum row.now) }
{
    row.iter().fold(T::zero_sum(), |d, x| T::divisor(d, *x))
}

pub(crate) fn divide_row<T: Number>(row: &mut [T::Sum], d: T::Sum)
    ensures { map T.sum row.new ≡ over T.kind (T.sum d) (map T.sum row.old) }
{
    for x in row.iter_mut() {
        *x = T::quotient(*x, d);
    }
}

// Stores the row.
pub(crate) fn store_row<T: Number>(row: &mut [T], from: &[T::Sum]) -> Result<(), PastLimit>
    requires { length from.now ≡ length row.old }
    ensures stored { OnOk result ((any_past T.kind (map T.sum from.now) ≡ false) × (map T.value row.new ≡ map T.sum from.now)) }
    ensures past { OnErr result (any_past T.kind (map T.sum from.now) ≡ true) }
{
    for (i, w) in from.iter().enumerate() {
        row[i] = T::narrowed(*w).ok_or(PastLimit)?;
    }
    Ok(())
}

// Whether the first nonzero of the first n numbers is below zero.
pub(crate) fn leads_below<T: Number>(row: &[T], n: usize) -> bool
    requires { n ≤ length row.now }
    ensures { result ≡ leads_below T.kind n (map T.value row.now) }
{
    row[0..n]
        .iter()
        .find(|x| !x.is_zero())
        .is_some_and(|x| x.is_below_zero())
}

fn negate_row<T: Number>(row: &mut [T])
    ensures { map T.value row.new ≡ map T.kind.neg (map T.value row.old) }
{
    for x in row.iter_mut() {
        *x = x.negated();
    }
}

// Negates the row if told to.
pub(crate) fn negate_when<T: Number>(row: &mut [T], below: bool)
    ensures { map T.value row.new ≡ negated_if T.kind below (map T.value row.old) }
{
    if below {
        negate_row(row);
    }
}

// Row r of rows that lie one after another.
pub(crate) fn row_at<T>(rows: &[T], size: usize, r: usize) -> &[T]
    requires { r * size + size ≤ length rows.now }
    ensures { result.now ≡ take size (drop (r * size) rows.now) }
{
    &rows[r * size..r * size + size]
}

// Writes a row into a memory of rows, from place `at` on.
pub(crate) fn keep_row<T: Copy>(rows: &mut [T], at: usize, row: &[T])
    requires { at + length row.now ≤ length rows.old }
    ensures { rows.new ≡ take at rows.old ++ (row.now ++ drop (at + length row.now) rows.old) }
{
    rows[at..at + row.len()].copy_from_slice(row);
}
