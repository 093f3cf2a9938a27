ghost use Rattle.std.specs.Prelude.{◌≡◌, ◌*◌, MatchResult};
ghost use Rattle.sheet.specs.Views.{nodes_in};
ghost use Rattle.derivation.specs.Tables.{rows_in, Tabled, Untabled};

use crate::flow::{WORK, Worked};
use crate::table::{MOST_NUMBERS, Table};
use forms::Forms;
use sheet::fault::Fault;
use sheet::sheet::Sheet;
use terms::Term;

impl Table {
    // The table of a sheet's belts, or the limit that a gate's form or the number of columns passes.
    pub(crate) fn of(sheet: &Sheet) -> Result<Table, Fault>
        ensures { MatchResult result (Tabled (nodes_in sheet.now)) (Untabled (nodes_in sheet.now)) }
    {
        let forms = Forms::of(sheet)?;
        let worked = Worked {
            sheet,
            forms: &forms,
        };
        let mut work = [Term::default(); WORK];
        let columns = worked.collect(&mut work)?;
        let mut numbers = [0; MOST_NUMBERS];
        worked.fill_rows(columns.terms(), &mut numbers, &mut work);
        Ok(Table {
            belts: sheet.belts(),
            columns: columns.used,
            numbers,
        })
    }

    // The rows, one after another.
    pub(crate) fn rows(&self) -> &[i64]
        ensures { result.now ≡ rows_in self.now }
    {
        &self.numbers[..self.belts * self.columns]
    }
}
