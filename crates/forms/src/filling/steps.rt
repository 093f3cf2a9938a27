ghost use Rattle.std.specs.Prelude.{◌≡◌, ℕ, ◌+◌, ◌^◌, ◌<◌, ◌≤◌, true, false, [], ◌∷◌, length, take, pos, IfOk, IfErr, Ok, Err, count_by, MatchResult};
ghost use Rattle.sheet.specs.Nodes.{is_free};
ghost use Rattle.sheet.specs.Refusals.{IsOneOf, form_numbers};
ghost use Rattle.sheet.specs.declared.node.Gate.{Gate as Logic};
ghost use Rattle.sheet.specs.Views.{nodes_in};
ghost use Rattle.terms.specs.Records.{form_in};
ghost use Rattle.forms.specs.Gates.{gate_form, node_form, large, together, forms_of, limits};
ghost use Rattle.forms.specs.Slots.{slot_form, slot_forms, Lined};
ghost use Rattle.sheet.specs.declared.node.Node.TheVariants as Line;

use crate::filling::Filling;
use crate::gates::{WORK, Work, is_large, work_out};
use crate::slot::{MOST_TERMS, Slot};
use sheet::fault::{Fault, Refusal};
use sheet::limits::MOST_LINES;
use sheet::node::{Gate, Node};
use sheet::sheet::Sheet;
use terms::{Term, alone};

const MOST_TOGETHER: usize = 2048;

impl Filling {
    // Takes the form of the gate at `line` in, or tells the limit that it passes.
    fn admit(&mut self, form: &[Term], line: u16) -> Result<(), Fault>
        ensures exact { (g : Logic) → MatchResult result
            (λ _. together self.old.terms line (Line.Gate g) (form_in form.now) ≡ Ok self.new.terms)
            (λ e. together self.old.terms line (Line.Gate g) (form_in form.now) ≡ Err e) }
        ensures within { IfOk result (λ _.
            (length form.now ≤ 24) × (large (form_in form.now) ≡ false)) }
        ensures free { self.new.free ≡ self.old.free }
    {
        if form.len() > MOST_TERMS {
            return Err(Refusal::LongForm.at(line));
        }
        let terms = self.terms + form.len();
        if terms > MOST_TOGETHER {
            return Err(Refusal::LongForms.at(line));
        }
        if is_large(form) {
            return Err(Refusal::LargeCoefficient.at(line));
        }
        self.terms = terms;
        Ok(())
    }

    // The form of a free wire: once its own term.
    fn wire(&mut self) -> Slot
        requires { self.old.free < 128 }
        ensures form { slot_form result ≡ (2 ^ self.old.free, pos 1) ∷ [] }
        ensures free { self.new.free ≡ self.old.free + 1 }
        ensures terms { self.new.terms ≡ self.old.terms }
    {
        let form = alone(self.free).map_or(Slot::none(), Slot::wire);
        self.free += 1;
        form
    }

    // The form of a gate after the lines before it.
    fn gate(&mut self, before: &[Slot], gate: Gate, work: &mut Work) -> Result<Slot, Fault>
        requires place { length before.now < 640 }
        ensures { Lined self.old (length before.now) (Line.Gate gate)
            (gate_form (slot_forms before.now) gate) self.new result }
    {
        let n = work_out(before, gate, work);
        let form = &work[..n];
        self.admit(form, before.len() as u16)?;
        Ok(Slot::hold(form))
    }

    // The form of the next line.
    fn line(&mut self, before: &[Slot], node: Node, work: &mut Work) -> Result<Slot, Fault>
        requires place { length before.now < 640 }
        requires wires { is_free node ≡ true → self.old.free < 128 }
        ensures { Lined self.old (length before.now) node
            (node_form self.old.free (slot_forms before.now) node) self.new result }
    {
        match node {
            Node::Free(_) => Ok(self.wire()),
            Node::Belt { .. } => Ok(Slot::none()),
            Node::Gate(gate) => self.gate(before, gate, work),
        }
    }
}

// The forms of all lines, each in its slot, or the first limit that a gate passes.
pub(crate) fn fill(sheet: &Sheet, slots: &mut [Slot; MOST_LINES]) -> Result<(), Fault>
    ensures exact { let ns = nodes_in sheet.now in
        MatchResult result
        (λ _. (slot_forms (take (length ns) slots.new) ≡ forms_of ns)
        × ((n : ℕ) × (limits ns ≡ Ok n)))
        (λ e. limits ns ≡ Err e) }
    ensures numbers { IfErr result (IsOneOf form_numbers) }
    ensures all { length slots.new ≡ length slots.old }
{
    let mut work = [Term::default(); WORK];
    let mut filling = Filling { free: 0, terms: 0 };
    for (i, node) in sheet.nodes().iter().enumerate() {
        let slot = filling.line(&slots[..i], *node, &mut work)?;
        slots[i] = slot;
    }
    Ok(())
}
