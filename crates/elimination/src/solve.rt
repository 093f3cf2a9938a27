// All rows in order, and the balances' weights.
ghost use Rattle.std.specs.Prelude.{◌≡◌, ℕ, ◌+◌, ◌*◌, ◌<◌, ◌≤◌, true, false, ◌++◌, map, length, take, drop, IfOk, IfErr, Ok, Err, MatchResult};
ghost use Rattle.kinds.specs.Kinds.{wholes, parities};
ghost use Rattle.elimination.specs.Memory.{rows_of};
ghost use Rattle.elimination.specs.States.{AsWritten};
ghost use Rattle.elimination.specs.Answers.{sizes_fit, balances_of, solved, Exact};
ghost use Rattle.elimination.specs.declared.solve.EliminationError.TheVariants.{Sizes, LargeNumber};

use crate::filed::{CELLS, COLUMNS, Filed, ROWS, SIZE};
use crate::kept::Kept;
use crate::reduce::handle;
use crate::rows::{row_at, start_row};
use kinds::{Number, Parity, Whole};

/// Why an elimination is refused.
#[derive(Clone, Copy, PartialEq, Eq, Debug)]
pub enum EliminationError {
    /// more than 32 rows or 256 columns, not one coefficient for each, or too little room for the weights
    Sizes,
    /// a number of the row with this number passes the limit
    LargeNumber(usize),
}

// n rows of m whole coefficients each, one after another.
#[derive(Drop)]
struct Table<'a> {
    n: usize,
    m: usize,
    coefficients: &'a [i64],
    ghost few: { n ≤ 32 },
    ghost narrow: { m ≤ 256 },
    ghost full: { length coefficients.now ≡ n * m },
}

fn sizes_fit(n: usize, m: usize, coefficients: usize, weights: usize) -> bool
    ensures { result ≡ sizes_fit n m coefficients weights }
{
    n <= ROWS && m <= COLUMNS && coefficients == n * m && n * n <= weights
}

impl<'a> Table<'a> {
    // The table, if its sizes fit and there is room for the weights.
    fn fitting(
        n: usize,
        m: usize,
        coefficients: &'a [i64],
        weights: usize,
    ) -> Result<Table<'a>, EliminationError>
        ensures fits { IfOk result (λ t. (true ≡ sizes_fit n m (length coefficients.now) weights) × (t.n ≡ n) × (t.m ≡ m) × (t.coefficients.now ≡ coefficients.now)) }
        ensures unfit { IfErr result (λ e. (e ≡ Sizes) × (false ≡ sizes_fit n m (length coefficients.now) weights)) }
    {
        if !sizes_fit(n, m, coefficients.len(), weights) {
            return Err(EliminationError::Sizes);
        }
        Ok(Table { n, m, coefficients })
    }

    // The coefficients of the row with number b.
    fn row(&self, b: usize) -> &'a [i64]
        requires { b < self.now.n }
        ensures row { result.now ≡ take self.now.m (drop (b * self.now.m) self.now.coefficients.now) }
        ensures long { length result.now ≡ self.now.m }
    {
        row_at(self.coefficients, self.m, b)
    }
}

// The refusal of the row with number b.
fn refusal_of(b: usize) -> EliminationError
    ensures { result ≡ LargeNumber b }
{
    EliminationError::LargeNumber(b)
}

// All rows in order, in lent memory: first the row at work, then the kept rows. What is found is filed.
fn eliminate<T: Number>(
    table: &Table,
    cells: &mut [T],
    sums: &mut [T::Sum],
    filed: &mut Filed,
) -> Result<(), EliminationError>
    requires cells { 9504 ≤ length cells.old }
    requires sums { 288 ≤ length sums.old }
    requires empty { (filed.old.used ≡ 0) × (filed.old.found ≡ 0) }
    ensures { MatchResult result (λ _. (filed.new.found ≤ table.now.n) × AsWritten T.kind table.now.n filed.new × (balances_of T.kind table.now.n table.now.m table.now.coefficients.now ≡ Ok (rows_of filed.new.found table.now.n (map T.kind.counts filed.new.weights)))) (λ e. (b : ℕ) × (e ≡ LargeNumber b) × (balances_of T.kind table.now.n table.now.m table.now.coefficients.now ≡ Err b)) }
{
    let size = table.n + table.m;
    let (row, rows) = cells.split_at_mut(SIZE);
    let row = &mut row[0..size];
    let sums = &mut sums[0..size];
    for b in 0..table.n {
        let large = refusal_of(b);
        start_row(row, table.n, b, table.row(b)).or(Err(large))?;
        let leads = &filed.leads[0..filed.used];
        let kept = Kept { size, leads, rows };
        let lead = handle(row, sums, &kept, table.n).or(Err(large))?;
        filed.keep(lead, row, table.n, rows);
    }
    Ok(())
}

// Writes the first `count` numbers.
fn write_front(weights: &mut [i32], from: &[i32], count: usize)
    requires room { count ≤ length weights.old }
    requires full { count ≤ length from.now }
    ensures { weights.new ≡ take count from.now ++ drop count weights.old }
{
    weights[0..count].copy_from_slice(&from[0..count]);
}

// The sizes are tested, then all rows handled in lent memory, and the balances' weights written.
fn solve<T: Number>(
    n: usize,
    m: usize,
    coefficients: &[i64],
    weights: &mut [i32],
    cells: &mut [T],
    sums: &mut [T::Sum],
) -> Result<usize, EliminationError>
    requires cells { 9504 ≤ length cells.old }
    requires sums { 288 ≤ length sums.old }
    ensures result { (result, weights.new) ≡ solved T.kind n m coefficients.now weights.old }
    ensures exact { IfOk result (λ k. Exact T.kind n m coefficients.now k weights.new) }
{
    let table = Table::fitting(n, m, coefficients, weights.len())?;
    let mut filed = Filed::new();
    eliminate(&table, cells, sums, &mut filed)?;
    write_front(weights, &filed.weights, filed.found * n);
    Ok(filed.found)
}

/// The balances of n rows of m whole coefficients each, which lie one after another: how many there are, and their
/// weights, one after another, into `weights`. Later numbers stay, and a refusal changes nothing.
pub fn eliminate_whole(
    n: usize,
    m: usize,
    coefficients: &[i64],
    weights: &mut [i32],
) -> Result<usize, EliminationError>
    ensures result { (result, weights.new) ≡ solved wholes n m coefficients.now weights.old }
    ensures exact { IfOk result (λ k. Exact wholes n m coefficients.now k weights.new) }
{
    let mut cells = [Whole::zero(); CELLS];
    let mut sums = [Whole::zero_sum(); SIZE];
    solve(n, m, coefficients, weights, &mut cells, &mut sums)
}

/// The same in parities, where 1 is written for an odd weight and 0 for an even one.
pub fn eliminate_parity(
    n: usize,
    m: usize,
    coefficients: &[i64],
    weights: &mut [i32],
) -> Result<usize, EliminationError>
    ensures result { (result, weights.new) ≡ solved parities n m coefficients.now weights.old }
    ensures exact { IfOk result (λ k. Exact parities n m coefficients.now k weights.new) }
{
    let mut cells = [Parity::zero(); CELLS];
    let mut sums = [Parity::zero_sum(); SIZE];
    solve(n, m, coefficients, weights, &mut cells, &mut sums)
}
