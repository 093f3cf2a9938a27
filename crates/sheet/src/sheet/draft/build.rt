ghost use Rattle.std.specs.Prelude.{◌≡◌, ℕ, [], length, Some, None, Ok, Err, MatchResult};
ghost use Rattle.sheet.specs.Loading.{admitted, checked};
ghost use Rattle.sheet.specs.Refusals.{fault};
ghost use Rattle.sheet.specs.Rules.{nameless, unfit};
ghost use Rattle.sheet.specs.Views.{nodes_in, so_far};
ghost use Rattle.sheet.specs.declared.fault.Refusal.TheVariants.{UnfitBelt};

use crate::fault::{Fault, Refusal};
use crate::limits::MOST_LINES;
use crate::node::{Node, Source};
use crate::rules::{Lines, order_fits, sizes_fit};
use crate::sheet::Sheet;
use crate::sheet::draft::Draft;
use crate::sheet::tally::Tally;

impl Draft {
    pub(crate) fn new() -> Draft
        ensures { so_far result ≡ [] }
    {
        Draft {
            nodes: [Node::Free(Source::Sensor); MOST_LINES],
            len: 0,
            belts: 0,
            free: 0,
            parts: Tally::new(),
        }
    }

    // How many nodes have been read: the number of the next value line.
    pub(crate) fn next_line(&self) -> u16
        ensures { result ≡ length (so_far self.now) }
    {
        self.len as u16
    }

    // One node more, or the refusal of its line for the sizes or for the order of gates.
    pub(crate) fn push(&mut self, node: Node) -> Result<(), Fault>
        ensures { MatchResult result
            (λ _. admitted (so_far self.old) node ≡ Ok (so_far self.new))
            (λ e. admitted (so_far self.old) node ≡ Err e) }
    {
        let at = self.len;
        let belts = self.belts + usize::from(node.is_belt());
        let free = self.free + usize::from(node.is_free());
        if !sizes_fit(at + 1, belts, free) {
            return Err(Refusal::TooMany.at(self.next_line()));
        }
        if !order_fits(&self.nodes[..at], node) {
            return Err(Refusal::GateOutOfOrder.at(self.next_line()));
        }
        self.nodes[at] = node;
        self.len = at + 1;
        self.belts = belts;
        self.free = free;
        self.parts.add(node);
        Ok(())
    }

    // Refuses the lowest b line whose belt has other parts than the rule asks.
    fn check_belts(&self) -> Result<(), Fault>
        ensures { MatchResult result
            (λ _. unfit (so_far self.now) ≡ None)
            (λ e. (p : ℕ) × (unfit (so_far self.now) ≡ Some p) × (e ≡ fault UnfitBelt p)) }
    {
        let lines = self.nodes[..self.len].iter().enumerate();
        let mut belts = lines.filter(|(_, node)| node.is_belt()).enumerate();
        match belts.find(|(belt, _)| !self.parts.of(*belt).fit()) {
            Some((_, (i, _))) => Err(Refusal::UnfitBelt.at(i as u16)),
            None => Ok(()),
        }
    }

    // The sheet of all nodes, which keep the rules over the whole.
    fn sheet(&self) -> Sheet
        requires named { nameless (so_far self.now) ≡ None }
        requires complete { unfit (so_far self.now) ≡ None }
        ensures { nodes_in result ≡ so_far self.now }
    {
        Sheet {
            nodes: self.nodes,
            len: self.len,
        }
    }

    // The sheet of all nodes, or the refusal of one for its names or for its belt's parts.
    pub(crate) fn finish(&self) -> Result<Sheet, Fault>
        ensures { MatchResult result
            (λ s. checked (so_far self.now) ≡ Ok (nodes_in s))
            (λ e. checked (so_far self.now) ≡ Err e) }
    {
        let lines = Lines {
            nodes: &self.nodes[..self.len],
            belts: self.belts,
        };
        lines.check_names()?;
        self.check_belts()?;
        Ok(self.sheet())
    }
}
