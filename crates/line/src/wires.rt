ghost use Rattle.std.specs.Prelude.{◌≡◌, ◌/◌, ◌%◌, ◌^◌, false, [], length, take, ◌==◌, slice_index, slice_index_or};
ghost use Rattle.sheet.specs.Views.{nodes_in};
ghost use Rattle.sheet.specs.Wires.{gate_value, settled};
ghost use Rattle.line.specs.Lines.{head_bit, free_value, row_from};
ghost use Rattle.line.specs.Numbers.{number_in, line_value};

use crate::numbers::Numbers;
use banks::bank::Bank;
use sheet::limits::MOST_LINES;
use sheet::node::{Gate, Node, Source};
use sheet::sheet::Sheet;

// A value for each line of a sheet, in the first of these.
pub(crate) type Wires = [bool; MOST_LINES];

// Value `k` of some wires or flops; low past the last.
pub(crate) fn flag(values: &[bool], k: usize) -> bool
    ensures { result ≡ slice_index_or values.now k false }
{
    values.get(k).copied().unwrap_or(false)
}

// Whether sensor `k` is high; past the last byte it is not.
fn sensor(sensors: &[u8], k: usize) -> bool
    ensures { result ≡ (slice_index sensors.now k == 1) }
{
    sensors.get(k) == Some(&1)
}

// Bit `k` of a word, low past its last.
fn bit(word: u8, k: usize) -> bool
    ensures { result ≡ (word / 2 ^ k % 2 == 1) }
{
    k < 8 && (word >> k) % 2 == 1
}

// Bit `k` of a head, low when there is none.
fn head_bit(k: usize, head: Option<u8>) -> bool
    ensures { result ≡ head_bit k head }
{
    head.is_some_and(|word| bit(word, k))
}

// What a gate gives, from the values of the lines before it.
fn gate_value(before: &[bool], gate: Gate) -> bool
    ensures { result ≡ gate_value before.now gate }
{
    match gate {
        Gate::Constant(value) => value,
        Gate::Not { of } => !flag(before, usize::from(of)),
        Gate::And { left, right } => {
            flag(before, usize::from(left)) & flag(before, usize::from(right))
        }
        Gate::Or { left, right } => {
            flag(before, usize::from(left)) | flag(before, usize::from(right))
        }
        Gate::Xor { left, right } => {
            flag(before, usize::from(left)) ^ flag(before, usize::from(right))
        }
    }
}

// What a tick looks at, before anything moves: the bank, the flops and the sensor bytes.
#[derive(Drop)]
pub(crate) struct Inputs<'a, B> {
    pub(crate) bank: &'a B,
    pub(crate) flops: &'a [bool],
    pub(crate) sensors: &'a [u8],
}

impl<B: Bank> Inputs<'_, B> {
    // The value in this tick of the free wire that comes next after the lines counted in `numbers`.
    fn free_value(&self, numbers: &Numbers, source: Source) -> bool
        ensures { result ≡ free_value (B.belts self.now.bank.now) self.now.flops.now self.now.sensors.now (number_in numbers.now source) source }
    {
        match source {
            Source::Sensor => sensor(self.sensors, numbers.sensors),
            Source::Flop { .. } => flag(self.flops, numbers.flops),
            Source::Room { belt } => self.bank.room(usize::from(belt)),
            Source::Item { belt } => self.bank.head(usize::from(belt)).is_some(),
            Source::Bit { belt, .. } => {
                let b = usize::from(belt);
                head_bit(numbers.bits_of(b), self.bank.head(b))
            }
        }
    }

    // The value of the next line; a b line, which is no wire, reads low.
    fn line_value(&self, numbers: &Numbers, before: &[bool], node: Node) -> bool
        ensures { result ≡ line_value (B.belts self.now.bank.now) self.now.flops.now self.now.sensors.now numbers.now before.now node }
    {
        match node {
            Node::Free(source) => self.free_value(numbers, source),
            Node::Belt { .. } => false,
            Node::Gate(gate) => gate_value(before, gate),
        }
    }

    // The value of every line in this tick.
    pub(crate) fn settle(&self, sheet: &Sheet) -> Wires
        ensures { take (length (nodes_in sheet.now)) result ≡ settled (nodes_in sheet.now) (row_from (B.belts self.now.bank.now) self.now.flops.now self.now.sensors.now [] (nodes_in sheet.now)) }
    {
        let mut wires = [false; MOST_LINES];
        let mut numbers = Numbers::new();
        for (i, node) in sheet.nodes().iter().enumerate() {
            wires[i] = self.line_value(&numbers, &wires[..i], *node);
            numbers.add(*node);
        }
        wires
    }
}
