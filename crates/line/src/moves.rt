ghost use Rattle.std.specs.Prelude.{◌≡◌, ℕ, ◌+◌, ◌*◌, ◌<◌, ◌≤◌, false, map, length, take, ◌==◌, slice_index, slice_index_or};
ghost use Rattle.belts.specs.Belts.{clearing};
ghost use Rattle.sheet.specs.Nodes.{count_of};
ghost use Rattle.sheet.specs.Views.{nodes_in};
ghost use Rattle.sheet.specs.declared.class.Class.TheVariants as Of;
ghost use Rattle.line.specs.Lines.{low, word_of, moved, each as each_belt};
ghost use Rattle.line.specs.Moving.{next_of, with_bit, given_up, taken_in};
ghost use Rattle.line.specs.Parts.{drivers_of, bits_of, entering_of};

use crate::board::Flops;
use crate::wires::flag;
use banks::bank::Bank;
use sheet::limits::{MOST_BELTS, MOST_FREE_WIRES};
use sheet::node::{Node, Source};
use sheet::sheet::Sheet;

// One bit more, below the others, in the word of the belt of which the node is a bit line.
fn enter_bit(words: &mut [u8], wires: &[bool], node: Node)
    requires { (b : ℕ) → slice_index words.old b < 16 }
    ensures { (b : ℕ) → b < length words.old → slice_index words.new b ≡ with_bit wires.now (entering_of b node) (slice_index words.old b) }
{
    if let Node::Free(Source::Bit { belt, entering }) = node {
        let b = usize::from(belt);
        if b < words.len() {
            words[b] = 2 * words[b] + u8::from(flag(wires, usize::from(entering)));
        }
    }
}

// The word of each belt's entering bits. The lines are read from the last on, so that the first gives bit 0.
pub(crate) fn words(sheet: &Sheet, wires: &[bool]) -> [u8; MOST_BELTS]
    ensures { (b : ℕ) → b < 32 → slice_index result b ≡ word_of wires.now (bits_of b (nodes_in sheet.now)) }
{
    let mut words = [0; MOST_BELTS];
    for node in sheet.nodes().iter().rev() {
        enter_bit(&mut words, wires, *node);
    }
    words
}

// Belt `b` gives up its head if it leaves.
fn give_up<B: Bank>(bank: &mut B, b: usize, leave: bool)
    ensures { B.belts bank.new ≡ given_up leave b (B.belts bank.old) }
{
    if leave {
        let _ = bank.take(b);
    }
}

// Belt `b` takes in a word if one enters.
fn take_in<B: Bank>(bank: &mut B, b: usize, entering: Option<u8>)
    ensures { B.belts bank.new ≡ taken_in entering b (B.belts bank.old) }
{
    if let Some(word) = entering {
        let _ = bank.put(b, word);
    }
}

// Belt `b` gives up its head if it leaves, and then takes in a word if one enters.
fn move_belt<B: Bank>(bank: &mut B, b: usize, leave: bool, entering: Option<u8>)
    ensures { B.belts bank.new ≡ taken_in entering b (given_up leave b (B.belts bank.old)) }
{
    give_up(bank, b, leave);
    take_in(bank, b, entering);
}

// Moves the first `n` belts, in number order, by the event bytes and the words.
pub(crate) fn advance<B: Bank>(bank: &mut B, n: usize, words: &[u8], events: &[u8])
    requires { (n ≤ length words.now) × (2 * n ≤ length events.now) }
    ensures { B.belts bank.new ≡ each_belt (λ b. moved (slice_index events.now (2 * b) == 1) (slice_index events.now (2 * b + 1) == 1) (slice_index words.now b)) n (B.belts bank.old) }
{
    for (b, event) in events.chunks_exact(2).take(n).enumerate() {
        let entering = (event[0] == 1).then_some(words[b]);
        move_belt(bank, b, event[1] == 1, entering);
    }
}

// The next value of the flop that a line is.
fn next_value(wires: &[bool], node: Node) -> Option<bool>
    ensures { result ≡ next_of wires.now node }
{
    match node {
        Node::Free(Source::Flop { driver }) => Some(flag(wires, usize::from(driver))),
        _ => None,
    }
}

// The flops' next values, which are those of their driving wires.
pub(crate) fn next_flops(sheet: &Sheet, wires: &[bool]) -> Flops
    ensures { take (count_of Of.Flop (nodes_in sheet.now)) result ≡ map (λ d. slice_index_or wires.now d false) (drivers_of (nodes_in sheet.now)) }
{
    let mut flops = [false; MOST_FREE_WIRES];
    let nodes = sheet.nodes();
    let values = nodes.iter().filter_map(|node| next_value(wires, *node));
    for (k, value) in values.enumerate() {
        flops[k] = value;
    }
    flops
}

// Flops that are all low.
pub(crate) fn low_flops(sheet: &Sheet) -> Flops
    ensures { take (count_of Of.Flop (nodes_in sheet.now)) result ≡ low (nodes_in sheet.now) }
{
    [false; MOST_FREE_WIRES]
}

// Clears every belt.
pub(crate) fn empty<B: Bank>(bank: &mut B)
    ensures { B.belts bank.new ≡ map clearing (B.belts bank.old) }
{
    for b in 0..bank.size() {
        bank.clear(b);
    }
}
