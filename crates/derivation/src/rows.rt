// Rows of coefficients: one for each flow, a number for each column.
ghost use Rattle.std.specs.Prelude.{◌≡◌, ◌+◌, ◌*◌, ◌<◌, ◌≤◌, length, take, count_by};
ghost use Rattle.sheet.specs.Nodes.{is_belt};
ghost use Rattle.sheet.specs.Views.{nodes_in};
ghost use Rattle.terms.specs.Sets.{number_of};
ghost use Rattle.terms.specs.Records.{form_in};
ghost use Rattle.flows.specs.Columns.{merged};
ghost use Rattle.derivation.specs.Memory.{columns_in, leading, after, rows_over};
ghost use Rattle.derivation.specs.Tables.{flows_in};

use crate::flow::{Work, Worked};
use crate::table::Numbers;
use terms::Term;
use terms::sets::number;

// The coefficient of what is left of a flow at a column, and what is left of it then.
fn next_coefficient<'a>(flow: &'a [Term], column: &Term) -> (i64, &'a [Term])
    ensures coefficient { result.0 ≡ leading (number_of column.now.set) (form_in flow.now) }
    ensures left { form_in result.1.now ≡ after (number_of column.now.set) (form_in flow.now) }
{
    match flow.split_first() {
        Some((first, rest)) if number(&first.set) == number(&column.set) => {
            (first.coefficient, rest)
        }
        _ => (0, flow),
    }
}

// Writes the row of a flow: its coefficients, one for each column.
fn fill_row(columns: &[Term], flow: &[Term], row: &mut [i64])
    requires { length columns.now ≡ length row.old }
    ensures { row.new ≡ merged (columns_in columns.now) (form_in flow.now) }
{
    let mut left = flow;
    for (j, column) in columns.iter().enumerate() {
        let (coefficient, next) = next_coefficient(left, column);
        row[j] = coefficient;
        left = next;
    }
}

impl Worked<'_> {
    // Writes the rows of all belts' flows, one after another.
    pub(crate) fn fill_rows(&self, columns: &[Term], numbers: &mut Numbers, work: &mut Work)
        requires { length columns.now ≤ 256 }
        ensures { take (count_by is_belt (nodes_in self.now.sheet.now) * length columns.now) numbers.new ≡ rows_over (columns_in columns.now) (flows_in self.now) }
    {
        for b in 0..self.sheet.belts() {
            let n = self.flow(b, work);
            let at = b * columns.len();
            fill_row(columns, &work[..n], &mut numbers[at..at + columns.len()]);
        }
    }
}
