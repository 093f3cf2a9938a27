ghost use Rattle.std.specs.Prelude.{◌≡◌, ◌<◌, ◌≤◌, [], length, count_by, MatchOption, slice_index_or};
ghost use Rattle.sheet.specs.Nodes.{is_belt, is_free, count_of, wire_at};
ghost use Rattle.sheet.specs.Rules.{Lawful};
ghost use Rattle.sheet.specs.Views.{nodes_in};
ghost use Rattle.sheet.specs.declared.class.Class.TheVariants as Of;
ghost use Rattle.sheet.specs.declared.node.Node.TheVariants as Line;
ghost use Rattle.sheet.specs.declared.node.Source.TheVariants as Wire;

use crate::class::Class;
use crate::limits::MOST_LINES;
use crate::node::{Node, Source};
use crate::rules::is_wire;
use crate::sheet::Sheet;

// How many nodes are of a class.
fn count_of(class: Class, nodes: &[Node]) -> usize
    ensures { result ≡ count_of class nodes.now }
{
    nodes
        .iter()
        .map(|node| usize::from(node.is_of(class)))
        .sum()
}

impl Sheet {
    /// The sheet without lines.
    pub fn unfilled() -> Sheet
        ensures { nodes_in result ≡ [] }
    {
        Sheet {
            nodes: [Node::Free(Source::Sensor); MOST_LINES],
            len: 0,
        }
    }

    /// The sheet's lines, in order. They keep every rule.
    pub fn nodes(&self) -> &[Node]
        ensures same { result.now ≡ nodes_in self.now }
        ensures lawful { Lawful result.now }
    {
        &self.nodes[..self.len]
    }

    /// How many lines the sheet has.
    pub fn len(&self) -> usize
        ensures { result ≡ length (nodes_in self.now) }
    {
        self.nodes().len()
    }

    /// The node of line `i`; absent past the last line.
    pub fn node(&self, i: usize) -> Option<Node>
        ensures { MatchOption result
            (length (nodes_in self.now) ≤ i)
            (λ n. (i < length (nodes_in self.now))
            × (n ≡ slice_index_or (nodes_in self.now) i (Line.Free Wire.Sensor))) }
    {
        self.nodes().get(i).copied()
    }

    /// Whether a wire stands at a line.
    pub fn is_wire(&self, line: u16) -> bool
        ensures { result ≡ wire_at (nodes_in self.now) line }
    {
        is_wire(self.nodes(), line)
    }

    /// How many lines are of a class.
    pub fn count(&self, class: Class) -> usize
        ensures { result ≡ count_of class (nodes_in self.now) }
    {
        count_of(class, self.nodes())
    }

    /// How many belts the sheet has.
    pub fn belts(&self) -> usize
        ensures { result ≡ count_by is_belt (nodes_in self.now) }
    {
        self.count(Class::Belt)
    }

    /// How many sensors the sheet has.
    pub fn sensors(&self) -> usize
        ensures { result ≡ count_of Of.Sensor (nodes_in self.now) }
    {
        self.count(Class::Sensor)
    }

    /// How many flops the sheet has.
    pub fn flops(&self) -> usize
        ensures { result ≡ count_of Of.Flop (nodes_in self.now) }
    {
        self.count(Class::Flop)
    }

    /// How many free wires the sheet has.
    pub fn free_wires(&self) -> usize
        ensures { result ≡ count_by is_free (nodes_in self.now) }
    {
        self.count(Class::Free)
    }
}
