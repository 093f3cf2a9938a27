ghost use Rattle.std.specs.Prelude.{◌≡◌, ◌↔◌, true, [], take, IfOk, IfErr, IsTrue, slice_index_or};
ghost use Rattle.sheet.specs.Nodes.{wire_at};
ghost use Rattle.sheet.specs.Refusals.{IsOneOf, term_numbers, same_form_numbers};
ghost use Rattle.sheet.specs.Views.{nodes_in};
ghost use Rattle.terms.specs.Records.{form_in};
ghost use Rattle.forms.specs.Calls as calls;
ghost use Rattle.forms.specs.Gates.{forms_of};
ghost use Rattle.forms.specs.Promises.{Counts, Agree};

use crate::held::Forms;
use sheet::fault::{Fault, Refusal};
use sheet::sheet::Sheet;
use terms::{Term, same, write_form};

/// Writes the form of a wire into the first of the caller's records, and answers how many terms it has.
pub fn terms(sheet: &Sheet, wire: u16, records: &mut [Term]) -> Result<usize, Fault>
    ensures exact { record { answer = result; memory = records.new }
        ≡ calls.terms (nodes_in sheet.now) wire records.old }
    ensures tells { IfOk result (λ n.
        Counts (nodes_in sheet.now) wire (form_in (take n records.new))) }
    ensures numbers { IfErr result (IsOneOf term_numbers) }
{
    if !sheet.is_wire(wire) {
        return Err(Refusal::NoWire.into());
    }
    write_wire(sheet, wire, records)
}

/// Whether two wires have the same form: exactly whether they agree in every row of free wire values.
pub fn same_form(sheet: &Sheet, one: u16, other: u16) -> Result<bool, Fault>
    ensures exact { result ≡ calls.same_form (nodes_in sheet.now) one other }
    ensures equal { let fs = forms_of (nodes_in sheet.now) in
        IfOk result (λ b. IsTrue b ↔ (slice_index_or fs one [] ≡ slice_index_or fs other [])) }
    ensures agree { IfOk result (λ b. IsTrue b ↔ Agree (nodes_in sheet.now) one other) }
    ensures numbers { IfErr result (IsOneOf same_form_numbers) }
{
    if !(sheet.is_wire(one) && sheet.is_wire(other)) {
        return Err(Refusal::NoWire.into());
    }
    compare_wires(sheet, one, other)
}

// Writes the form of a wire, where the limits allow it.
fn write_wire(sheet: &Sheet, wire: u16, records: &mut [Term]) -> Result<usize, Fault>
    requires { wire_at (nodes_in sheet.now) wire ≡ true }
    ensures exact { record { answer = result; memory = records.new }
        ≡ calls.terms (nodes_in sheet.now) wire records.old }
    ensures tells { IfOk result (λ n.
        Counts (nodes_in sheet.now) wire (form_in (take n records.new))) }
    ensures numbers { IfErr result (IsOneOf term_numbers) }
{
    let mut forms = Forms::none();
    forms.fill(sheet)?;
    write_form(forms.line(wire), records).ok_or(Refusal::ShortRecords.into())
}

// Whether two wires have the same form, where the limits allow it.
fn compare_wires(sheet: &Sheet, one: u16, other: u16) -> Result<bool, Fault>
    requires one { wire_at (nodes_in sheet.now) one ≡ true }
    requires other { wire_at (nodes_in sheet.now) other ≡ true }
    ensures exact { result ≡ calls.same_form (nodes_in sheet.now) one other }
    ensures equal { let fs = forms_of (nodes_in sheet.now) in
        IfOk result (λ b. IsTrue b ↔ (slice_index_or fs one [] ≡ slice_index_or fs other [])) }
    ensures agree { IfOk result (λ b. IsTrue b ↔ Agree (nodes_in sheet.now) one other) }
    ensures numbers { IfErr result (IsOneOf same_form_numbers) }
{
    let mut forms = Forms::none();
    forms.fill(sheet)?;
    Ok(same(forms.line(one), forms.line(other)))
}
