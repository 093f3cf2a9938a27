ghost use Rattle.std.specs.Prelude.{◌≡◌, ◌+◌, ◌<◌, ◌≤◌, [], length, take, MatchResult};
ghost use Rattle.sheet.specs.declared.fault.Refusal.TheVariants as Why;
ghost use Rattle.sheet.specs.Refusals as refusals;
ghost use Rattle.terms.specs.Sets.{number_of};
ghost use Rattle.terms.specs.Records.{form_in};
ghost use Rattle.flows.specs.Columns.{listed, with_form, columns_of};
ghost use Rattle.derivation.specs.Tables.{sets_in, found_in, Lists, flows_in};

use super::{Columns, MOST_COLUMNS, MOST_RECORDS};
use crate::flow::{Work, Worked};
use sheet::fault::{Fault, Refusal};
use terms::sets::Set;
use terms::{Term, add_term};

impl Columns {
    // No columns yet.
    fn none() -> Columns
        ensures none { Lists 0 [] result }
        ensures unused { result.used ≡ 0 }
    {
        Columns {
            records: [Term::default(); MOST_RECORDS],
            used: 0,
        }
    }

    // Finds a term once more.
    fn add(&mut self, set: Set)
        requires room { self.old.used ≤ 256 }
        requires few { found_in self.old ≤ 1000000 }
        ensures { Lists (found_in self.old + 1) (listed (number_of set) (sets_in self.old)) self.new }
    {
        let term = Term {
            set,
            coefficient: 1,
        };
        self.used = add_term(&mut self.records, self.used, term).unwrap_or(self.used);
    }

    // Finds the terms of a flow; refused past 256 columns.
    fn add_all(&mut self, flow: &[Term]) -> Result<(), Fault>
        requires room { self.old.used ≤ 256 }
        requires few { found_in self.old + length flow.now ≤ 1000000 }
        ensures { MatchResult result (λ u. (self.new.used ≤ 256) × Lists (found_in self.old + length flow.now) (with_form (sets_in self.old) (form_in flow.now)) self.new) (λ e. (e ≡ refusals.fault Why.ManyColumns 0) × (256 < length (with_form (sets_in self.old) (form_in flow.now)))) }
    {
        for t in flow {
            self.add(t.set);
            if self.used > MOST_COLUMNS {
                return Err(Refusal::ManyColumns.into());
            }
        }
        Ok(())
    }

    // The records that list them.
    pub(crate) fn terms(&self) -> &[Term]
        ensures { result.now ≡ take self.now.used self.now.records }
    {
        &self.records[..self.used]
    }
}

impl Worked<'_> {
    // The columns of all belts' flows; refused past 256.
    pub(crate) fn collect(&self, work: &mut Work) -> Result<Columns, Fault>
        ensures { MatchResult result (λ c. (c.used ≤ 256) × (sets_in c ≡ columns_of (flows_in self.now))) (λ e. (e ≡ refusals.fault Why.ManyColumns 0) × (256 < length (columns_of (flows_in self.now)))) }
    {
        let mut columns = Columns::none();
        for b in 0..self.sheet.belts() {
            let n = self.flow(b, work);
            columns.add_all(&work[..n])?;
        }
        Ok(columns)
    }
}
