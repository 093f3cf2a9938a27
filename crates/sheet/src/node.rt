ghost use Rattle.std.specs.Prelude.{◌≡◌};
ghost use Rattle.sheet.specs.Nodes.{is_belt, is_free, is_of, offer_and_take};

use crate::class::Class;

/// One value line of a sheet (a node of the netlist). A wire is named by its line number, a belt by its place
/// among the belts. A line is a free wire, a belt, or a gate.
#[derive(Clone, Copy, Debug, PartialEq, Eq)]
pub enum Node {
    Free(Source),
    Belt { offer: u16, take: u16 },
    Gate(Gate),
}

/// A free wire (an input or a state bit of the netlist): where its value comes from in a tick.
#[derive(Clone, Copy, Debug, PartialEq, Eq)]
pub enum Source {
    Sensor,
    Flop { driver: u16 },
    Room { belt: u16 },
    Item { belt: u16 },
    Bit { belt: u16, entering: u16 },
}

/// A gate: a wire whose value earlier wires give.
#[derive(Clone, Copy, Debug, PartialEq, Eq)]
pub enum Gate {
    Constant(bool),
    Not { of: u16 },
    And { left: u16, right: u16 },
    Or { left: u16, right: u16 },
    Xor { left: u16, right: u16 },
}

impl Node {
    /// Whether the line is a belt's, and so no wire.
    pub fn is_belt(self) -> bool
        ensures { result ≡ is_belt self }
    {
        matches!(self, Node::Belt { .. })
    }

    /// Whether the line is a free wire.
    pub fn is_free(self) -> bool
        ensures { result ≡ is_free self }
    {
        matches!(self, Node::Free(_))
    }

    /// The offer wire and the take wire of a belt's line.
    pub fn offer_and_take(self) -> Option<(u16, u16)>
        ensures { result ≡ offer_and_take self }
    {
        match self {
            Node::Belt { offer, take } => Some((offer, take)),
            _ => None,
        }
    }

    /// Whether the line is of a class.
    pub fn is_of(self, class: Class) -> bool
        ensures { result ≡ is_of class self }
    {
        match class {
            Class::Free => self.is_free(),
            Class::Sensor => matches!(self, Node::Free(Source::Sensor)),
            Class::Flop => matches!(self, Node::Free(Source::Flop { .. })),
            Class::Belt => self.is_belt(),
            Class::Low => matches!(self, Node::Gate(Gate::Constant(false))),
            Class::High => matches!(self, Node::Gate(Gate::Constant(true))),
            Class::Not => matches!(self, Node::Gate(Gate::Not { .. })),
            Class::And => matches!(self, Node::Gate(Gate::And { .. })),
            Class::Or => matches!(self, Node::Gate(Gate::Or { .. })),
            Class::Xor => matches!(self, Node::Gate(Gate::Xor { .. })),
        }
    }
}
