// A belt's flow, worked out in lent records.
ghost use Rattle.std.specs.Prelude.{◌≡◌, ◌^◌, ◌<◌, ◌≤◌, [], length, take, slice_index_or};
ghost use Rattle.sheet.specs.Views.{nodes_in};
ghost use Rattle.terms.specs.Forms.{and_form, norm};
ghost use Rattle.terms.specs.Editing.{InFront};
ghost use Rattle.terms.specs.Records.{form_in};
ghost use Rattle.forms.specs.Slots.{forms_in};
ghost use Rattle.flows.specs.Flows.{flow_by, ports_of};
ghost use Rattle.derivation.specs.Ports.{ports_in};

use crate::ports::{Ports, ports_of};
use forms::Forms;
use sheet::sheet::Sheet;
use terms::{Term, add_product, and_form};

// How many records a flow wants: 624 for the form of the entering event, and those of a product of forms of 24 terms each.
pub(crate) const WORK: usize = 1200;

// Records to work a flow out in.
pub(crate) type Work = [Term; WORK];

// A sheet, with the forms of its lines.
#[derive(Drop)]
pub(crate) struct Worked<'a> {
    pub(crate) sheet: &'a Sheet,
    pub(crate) forms: &'a Forms,
}

impl Worked<'_> {
    // The form of the entering event, in the first records of `work`: how many terms it has.
    fn entering(&self, ports: Ports, work: &mut Work) -> usize
        ensures front { let fs = forms_in self.now.forms.now in
            InFront 624
            (and_form (slice_index_or fs ports.offer []) (slice_index_or fs ports.room []))
            work.old work.new result }
        ensures small { let fs = forms_in self.now.forms.now in
            norm (and_form (slice_index_or fs ports.offer []) (slice_index_or fs ports.room []))
            < 2 ^ 62 }
    {
        and_form(
            self.forms.line(ports.offer),
            self.forms.line(ports.room),
            work,
        )
        .unwrap_or(0)
    }

    // The flow that belongs to the ports, in the first records of `work`: how many terms it has.
    fn passing(&self, ports: Ports, work: &mut Work) -> usize
        ensures within { result ≤ length work.new }
        ensures form { form_in (take result work.new)
            ≡ flow_by (forms_in self.now.forms.now) (ports_in ports) }
    {
        let used = self.entering(ports, work);
        add_product(
            work,
            used,
            -1,
            self.forms.line(ports.take),
            self.forms.line(ports.item),
        )
        .unwrap_or(used)
    }

    // The flow of belt `b`, in the first records of `work`: how many terms it has.
    pub(crate) fn flow(&self, b: usize, work: &mut Work) -> usize
        ensures within { result ≤ length work.new }
        ensures form { form_in (take result work.new)
            ≡ flow_by (forms_in self.now.forms.now) (ports_of (nodes_in self.now.sheet.now) b) }
    {
        self.passing(ports_of(self.sheet, b), work)
    }
}
