ghost use Rattle.std.specs.Prelude.{◌≡◌, ◌≤◌, true, [], length, IfErr, MatchResult, slice_index_or};
ghost use Rattle.sheet.specs.Refusals.{IsOneOf, form_numbers};
ghost use Rattle.sheet.specs.Views.{nodes_in};
ghost use Rattle.terms.specs.Records.{form_in, light};
ghost use Rattle.forms.specs.Slots.{forms_in, Allowed, Refused};

use crate::filling::steps::fill;
use crate::held::Forms;
use crate::slot::Slot;
use crate::slot::access::operand;
use sheet::fault::Fault;
use sheet::limits::MOST_LINES;
use sheet::sheet::Sheet;
use terms::Term;

impl Forms {
    // No forms.
    pub(crate) fn none() -> Forms
        ensures { forms_in result ≡ [] }
    {
        Forms {
            slots: [Slot::none(); MOST_LINES],
            len: 0,
        }
    }

    // Fills in the form of every line of a sheet, or tells the first limit that a gate passes.
    pub(crate) fn fill(&mut self, sheet: &Sheet) -> Result<(), Fault>
        ensures exact { MatchResult result
            (λ _. Allowed (nodes_in sheet.now) (forms_in self.new))
            (Refused (nodes_in sheet.now)) }
        ensures numbers { IfErr result (IsOneOf form_numbers) }
    {
        fill(sheet, &mut self.slots)?;
        self.len = sheet.len();
        Ok(())
    }

    /// The form of every line of a sheet, or the first limit that a gate passes.
    pub fn of(sheet: &Sheet) -> Result<Forms, Fault>
        ensures exact { MatchResult result
            (λ f. Allowed (nodes_in sheet.now) (forms_in f))
            (Refused (nodes_in sheet.now)) }
        ensures numbers { IfErr result (IsOneOf form_numbers) }
    {
        let mut forms = Forms::none();
        forms.fill(sheet)?;
        Ok(forms)
    }

    /// The form of a line; past the last line there are no terms.
    pub fn line(&self, line: u16) -> &[Term]
        ensures same { form_in result.now ≡ slice_index_or (forms_in self.now) line [] }
        ensures few { length result.now ≤ 24 }
        ensures easy { light result.now ≡ true }
    {
        operand(&self.slots[..self.len], line)
    }
}
