ghost use Rattle.std.specs.Prelude.{◌≡◌, ℕ, ◌+◌, ◌<◌, ◌≤◌, [], ◌==◌, slice_index};
ghost use Rattle.sheet.specs.Views.{nodes_in};
ghost use Rattle.sheet.specs.Wires.{bit};
ghost use Rattle.line.specs.Numbers.{Numbered, Added};

use crate::numbers::Numbers;
use sheet::limits::MOST_BELTS;
use sheet::node::{Node, Source};
use sheet::sheet::Sheet;

impl Numbers {
    pub(crate) fn new() -> Numbers
        ensures { Numbered [] result }
    {
        Numbers {
            sensors: 0,
            flops: 0,
            bits: [0; MOST_BELTS],
        }
    }

    // How many bit lines belt `b` has so far; 0 past the last belt.
    pub(crate) fn bits_of(&self, b: usize) -> usize
        ensures { result ≡ slice_index self.now.bits b }
    {
        self.bits.get(b).copied().unwrap_or(0)
    }

    // One more bit line of belt `belt`; past the last belt it is not counted.
    fn add_bit(&mut self, belt: usize)
        requires { (b : ℕ) → b < 32 → slice_index self.old.bits b ≤ 640 }
        ensures sensors { self.new.sensors ≡ self.old.sensors }
        ensures flops { self.new.flops ≡ self.old.flops }
        ensures bits { (b : ℕ) → b < 32 → slice_index self.new.bits b ≡ slice_index self.old.bits b + bit (belt == b) }
    {
        if belt < MOST_BELTS {
            self.bits[belt] += 1;
        }
    }

    // One line more.
    pub(crate) fn add(&mut self, node: Node)
        requires sensors { self.old.sensors ≤ 640 }
        requires flops { self.old.flops ≤ 640 }
        requires bits { (b : ℕ) → b < 32 → slice_index self.old.bits b ≤ 640 }
        ensures { Added node self.old self.new }
    {
        match node {
            Node::Free(Source::Sensor) => self.sensors += 1,
            Node::Free(Source::Flop { .. }) => self.flops += 1,
            Node::Free(Source::Bit { belt, .. }) => self.add_bit(usize::from(belt)),
            _ => {}
        }
    }

    // The numbers of all lines of a sheet.
    pub(crate) fn all(sheet: &Sheet) -> Numbers
        ensures { Numbered (nodes_in sheet.now) result }
    {
        let mut numbers = Numbers::new();
        for node in sheet.nodes() {
            numbers.add(*node);
        }
        numbers
    }
}
