ghost use Rattle.std.specs.Prelude.{◌≡◌, ◌*◌, ◌≤◌, length, IfOk, IfErr, count_by, MatchResult, nat_lt};
ghost use Rattle.sheet.specs.Nodes.{is_belt};
ghost use Rattle.sheet.specs.Refusals.{IsOneOf, derive_numbers};
ghost use Rattle.sheet.specs.Views.{nodes_in};
ghost use Rattle.kinds.specs.Kinds.{wholes, parities};
ghost use Rattle.elimination.specs.Answers.{solved};
ghost use Rattle.elimination.specs.Memory.{rows_of};
ghost use Rattle.flows.specs.Derivation.{derive};
ghost use Rattle.flows.specs.Completeness.{Zero, Even, Complete, AllLeadAbove, gain};
ghost use Rattle.derivation.specs.Tables.{Tabulated, Refuses, by_belt, Rowed};

use crate::table::Table;
use elimination::{EliminationError, eliminate_parity, eliminate_whole};
use kinds::{Number, Parity, Whole};
use sheet::fault::{Fault, Refusal};
use sheet::limits::MOST_BELTS;
use sheet::sheet::Sheet;

/// As many balances as belts, with a weight of each belt: so many numbers are never too few.
pub const MOST_WEIGHTS: usize = MOST_BELTS * MOST_BELTS;

// Whether so many numbers are too few for as many balances as belts.
fn is_short(room: usize, belts: usize) -> bool
    requires { belts ≤ 32 }
    ensures { result ≡ nat_lt room (belts * belts) }
{
    room < belts * belts
}

// The table of a sheet's belts, where there is room for the weights of as many balances as belts.
fn tabulate(sheet: &Sheet, room: usize) -> Result<Table, Fault>
    ensures { MatchResult result (Tabulated (nodes_in sheet.now) room) (Refuses (nodes_in sheet.now) room) }
{
    if is_short(room, sheet.belts()) {
        return Err(Refusal::ShortWeights.into());
    }
    Table::of(sheet)
}

// The answer of an elimination of a table's rows: a row past the limit is named by its belt.
fn by_belt(answer: Result<usize, EliminationError>) -> Result<usize, Fault>
    requires { Rowed answer }
    ensures { result ≡ by_belt answer }
{
    answer.map_err(|error| match error {
        EliminationError::LargeNumber(belt) => Refusal::LargeNumber.at(belt as u16),
        EliminationError::Sizes => Refusal::LargeNumber.into(),
    })
}

// A kind of number that balances are derived in.
trait Derives: Number {
    // The elimination of the first `belts` rows of `columns` whole coefficients each.
    fn eliminate(
        belts: usize,
        columns: usize,
        rows: &[i64],
        weights: &mut [i32],
    ) -> Result<usize, EliminationError>
        ensures { (result, weights.new) ≡ solved Self.kind belts columns rows.now weights.old };
}

impl Derives for Whole {
    fn eliminate(
        belts: usize,
        columns: usize,
        rows: &[i64],
        weights: &mut [i32],
    ) -> Result<usize, EliminationError> {
        eliminate_whole(belts, columns, rows, weights)
    }
}

impl Derives for Parity {
    fn eliminate(
        belts: usize,
        columns: usize,
        rows: &[i64],
        weights: &mut [i32],
    ) -> Result<usize, EliminationError> {
        eliminate_parity(belts, columns, rows, weights)
    }
}

// The balances of the table's rows, written.
fn solve<K: Derives>(sheet: &Sheet, table: &Table, weights: &mut [i32]) -> Result<usize, Fault>
    requires { Tabulated (nodes_in sheet.now) (length weights.old) table.now }
    ensures { record { answer = result; memory = weights.new } ≡ derive K.kind (nodes_in sheet.now) weights.old }
{
    by_belt(K::eliminate(table.belts, table.columns, table.rows(), weights))
}

// The balances of a sheet's belts in a kind of number, written.
fn derive<K: Derives>(sheet: &Sheet, weights: &mut [i32]) -> Result<usize, Fault>
    ensures { record { answer = result; memory = weights.new } ≡ derive K.kind (nodes_in sheet.now) weights.old }
{
    let table = tabulate(sheet, weights.len())?;
    solve::<K>(sheet, &table, weights)
}

/// Derives the balances of a sheet's belts in whole numbers: writes their weights, belt by belt, one balance after another,
/// and answers how many balances there are. Later numbers stay, and a refusal changes nothing.
pub fn derive_whole(sheet: &Sheet, weights: &mut [i32]) -> Result<usize, Fault>
    ensures exact { record { answer = result; memory = weights.new }
        ≡ derive wholes (nodes_in sheet.now) weights.old }
    ensures numbers { IfErr result (IsOneOf derive_numbers) }
    ensures complete { IfOk result (λ k.
        Complete Zero (count_by is_belt (nodes_in sheet.now)) (gain (nodes_in sheet.now))
        (rows_of k (count_by is_belt (nodes_in sheet.now)) weights.new)) }
    // the first nonzero weight of each balance is above zero
    ensures signed { IfOk result (λ k.
        AllLeadAbove (rows_of k (count_by is_belt (nodes_in sheet.now)) weights.new)) }
{
    derive::<Whole>(sheet, weights)
}

/// The same in parities: 1 is written for an odd weight, 0 for an even one.
pub fn derive_parity(sheet: &Sheet, weights: &mut [i32]) -> Result<usize, Fault>
    ensures exact { record { answer = result; memory = weights.new }
        ≡ derive parities (nodes_in sheet.now) weights.old }
    ensures numbers { IfErr result (IsOneOf derive_numbers) }
    ensures complete { IfOk result (λ k.
        Complete Even (count_by is_belt (nodes_in sheet.now)) (gain (nodes_in sheet.now))
        (rows_of k (count_by is_belt (nodes_in sheet.now)) weights.new)) }
    // the first nonzero weight of each balance is above zero
    ensures signed { IfOk result (λ k.
        AllLeadAbove (rows_of k (count_by is_belt (nodes_in sheet.now)) weights.new)) }
{
    derive::<Parity>(sheet, weights)
}
