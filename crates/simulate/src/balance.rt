ghost use Rattle.std.specs.Prelude.{◌≡◌, ◌*◌, ◌^◌, ◌≤◌, map, length, IfOk, pos, slice_index, ◌*ℤ◌, ◌≤ℤ◌, neg_ℤ};
ghost use Rattle.sheet.specs.Views.{nodes_in};
ghost use Rattle.elimination.specs.Memory.{rows_of};
ghost use Rattle.flows.specs.Derivation.{derive};
ghost use Rattle.simulate.specs.Kinds.{numbers_of};
ghost use Rattle.simulate.specs.Balances.{balance_in, new_balance, Derived};
ghost use Rattle.simulate.specs.Sums.{over_counts, sum_of};

use derivation::{MOST_WEIGHTS, derive_parity, derive_whole};
use sheet::fault::Fault;
use sheet::sheet::Sheet;
use std::alloc::{AllocError, Global};

// A whole balance comes to zero over the counts, a parity balance to an even number.
#[derive(Clone, Copy, PartialEq, Eq)]
pub(crate) enum Kind {
    Whole,
    Parity,
}

// A balance that is watched, and the first tick after which it was off.
#[derive(Drop)]
pub(crate) struct Balance {
    pub kind: Kind,
    pub weights: Vec<i32>,
    pub off: Option<u64>,
}

// A belt's count; past the last a belt holds no word.
fn count_in(counts: &[u16], belt: usize) -> u16
    ensures { result ≡ slice_index counts.now belt }
{
    counts.get(belt).copied().unwrap_or(0)
}

// A weight times a count.
fn product(weight: i32, count: u16) -> i128
    ensures value { result ≡ weight *ℤ pos count }
    ensures above { neg_ℤ (pos (2 ^ 47)) ≤ℤ result }
    ensures below { result ≤ℤ pos (2 ^ 47) }
{
    i128::from(weight) * i128::from(count)
}

// What weights come to over counts: the sum, over belts, of weight times count.
fn over_counts(weights: &[i32], counts: &[u16]) -> i128
    ensures { result ≡ over_counts weights.now counts.now }
{
    let mut sum: i128 = 0;
    for (belt, weight) in weights.iter().enumerate() {
        sum += product(*weight, count_in(counts, belt));
    }
    sum
}

impl Balance {
    ghost use Rattle.std.specs.Prelude.{◌≢◌, IsNone, IsSome, Some};

    // What it comes to over the counts; of a parity balance the remainder by 2.
    pub(crate) fn sum(&self, counts: &[u16]) -> i128
        ensures { result ≡ sum_of self.now counts.now }
    {
        let sum = over_counts(&self.weights, counts);
        match self.kind {
            Kind::Whole => sum,
            Kind::Parity => sum.rem_euclid(2),
        }
    }

    // Looks at what the balance comes to after a tick: the first tick after which that is not zero stays.
    pub(crate) fn look(&mut self, tick: u64, sum: i128)
        ensures kind { self.new.kind ≡ self.old.kind }
        ensures weights { self.new.weights ≡ self.old.weights }
        ensures stays { IsSome self.old.off → self.new.off ≡ self.old.off }
        ensures held { IsNone self.old.off → sum ≡ pos 0 → IsNone self.new.off }
        ensures off { IsNone self.old.off → sum ≢ pos 0 → self.new.off ≡ Some tick }
    {
        if sum != 0 && self.off.is_none() {
            self.off = Some(tick);
        }
    }
}

// The weights of a sheet's balances of one kind, written one balance after another, and how many balances there are.
fn derive(sheet: &Sheet, kind: Kind, weights: &mut [i32]) -> Result<usize, Fault>
    ensures { record { answer = result; memory = weights.new }
        ≡ derive (numbers_of kind) (nodes_in sheet.now) weights.old }
{
    match kind {
        Kind::Whole => derive_whole(sheet, weights),
        Kind::Parity => derive_parity(sheet, weights),
    }
}

// The first `count` balances of some weights, of `belts` weights each, none of them off yet.
fn balances_from(
    heap: Global,
    weights: &[i32],
    belts: usize,
    count: usize,
    kind: Kind,
) -> Result<Vec<Balance>, AllocError>
    requires some { 1 ≤ belts }
    requires enough { count * belts ≤ length weights.now }
    ensures { IfOk result
        (λ v. map balance_in v.items ≡ map (new_balance kind) (rows_of count belts weights.now)) }
{
    let mut balances = Vec::new(heap);
    for row in weights.chunks_exact(belts).take(count) {
        balances.push(Balance {
            kind,
            weights: row.to_vec(heap)?,
            off: None,
        })?;
    }
    Ok(balances)
}

// The balances of a sheet's belts, of one kind.
pub(crate) fn balances_of(heap: Global, sheet: &Sheet, kind: Kind) -> anyhow::Result<Vec<Balance>>
    ensures { IfOk result (λ v. Derived kind (nodes_in sheet.now) (map balance_in v.items)) }
{
    let mut weights = [0; MOST_WEIGHTS];
    let count = derive(sheet, kind, &mut weights)?;
    Ok(balances_from(heap, &weights, sheet.belts().max(1), count, kind)?)
}
