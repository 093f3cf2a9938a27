use banks::bank::Bank;
use derivation::{MOST_WEIGHTS, derive_parity, derive_whole};
use line::line::Line;
use sheet::class::Class;
use sheet::node::{Gate, Node, Source};
use sheet::sheet::Sheet;
use std::alloc::{AllocError, Global};

// A board run plainly: each belt a list of words, the oldest first, and every wire worked out anew in each tick.
#[derive(Drop)]
pub(crate) struct Plain {
    belts: Vec<Vec<u8>>,
    flops: Vec<bool>,
    places: usize,
}

// Whether a wire is high.
fn high(wires: &[bool], line: u16) -> bool {
    wires.get(usize::from(line)).copied().unwrap_or(false)
}

fn gate_value(wires: &[bool], gate: Gate) -> bool {
    match gate {
        Gate::Constant(value) => value,
        Gate::Not { of } => !high(wires, of),
        Gate::And { left, right } => high(wires, left) && high(wires, right),
        Gate::Or { left, right } => high(wires, left) || high(wires, right),
        Gate::Xor { left, right } => high(wires, left) != high(wires, right),
    }
}

// The wire whose value enters at a line, if it is a d line of belt `b`.
fn entering(node: &Node, b: usize) -> Option<u16> {
    match *node {
        Node::Free(Source::Bit { belt, entering }) if usize::from(belt) == b => Some(entering),
        _ => None,
    }
}

// How many d lines a belt has among some lines.
fn bits_of(nodes: &[Node], b: usize) -> usize {
    nodes.iter().filter(|n| entering(n, b).is_some()).count()
}

// Whether bit `k` of a word is 1.
fn is_bit(word: u8, k: usize) -> bool {
    k < 8 && word >> k & 1 == 1
}

// The word of the values at a belt's d lines, the first the lowest bit.
fn entering_word(nodes: &[Node], wires: &[bool], b: usize) -> u8 {
    let bits = nodes.iter().rev().filter_map(|n| entering(n, b));
    bits.fold(0, |word: u8, wire| word << 1 | u8::from(high(wires, wire)))
}

impl Plain {
    // Empty belts, and flops that are low.
    pub(crate) fn new(heap: Global, nodes: &[Node], places: usize) -> Result<Self, AllocError> {
        let mut belts = Vec::new(heap);
        let mut flops = Vec::new(heap);
        for node in nodes {
            match node {
                Node::Belt { .. } => belts.push(Vec::new(heap))?,
                Node::Free(Source::Flop { .. }) => flops.push(false)?,
                _ => {}
            }
        }
        Ok(Plain {
            belts,
            flops,
            places,
        })
    }

    pub(crate) fn count(&self, b: usize) -> usize {
        self.belts.get(b).map_or(0, |words| words.len())
    }

    fn head(&self, b: usize) -> Option<u8> {
        self.belts.get(b)?.first().copied()
    }

    // The value of a free wire; `before` are the lines before it.
    fn free_value(&self, before: &[Node], source: Source, sensors: &[u8]) -> bool {
        match source {
            Source::Sensor => sensors.get(before.iter().filter(|n| n.is_of(Class::Sensor)).count())
                == Some(&1),
            Source::Flop { .. } => self
                .flops
                .get(before.iter().filter(|n| n.is_of(Class::Flop)).count())
                == Some(&true),
            Source::Room { belt } => self.count(usize::from(belt)) < self.places,
            Source::Item { belt } => self.head(usize::from(belt)).is_some(),
            Source::Bit { belt, .. } => {
                let b = usize::from(belt);
                is_bit(self.head(b).unwrap_or(0), bits_of(before, b))
            }
        }
    }

    // The value of every line.
    fn wires(&self, heap: Global, nodes: &[Node], sensors: &[u8]) -> Result<Vec<bool>, AllocError> {
        let mut wires = Vec::new(heap);
        for (i, node) in nodes.iter().enumerate() {
            let value = match *node {
                Node::Free(source) => self.free_value(&nodes[..i], source, sensors),
                Node::Belt { .. } => false,
                Node::Gate(gate) => gate_value(&wires, gate),
            };
            wires.push(value)?;
        }
        Ok(wires)
    }

    // Belt `b` gives up its head if it leaves, and then takes a word in if one enters.
    fn move_belt(
        &mut self,
        b: usize,
        entering: Option<u8>,
        leaves: bool,
    ) -> Result<(), AllocError> {
        if let Some(words) = self.belts.get_mut(b) {
            if leaves && !words.is_empty() {
                words.remove(0);
            }
            if let Some(word) = entering {
                words.push(word)?;
            }
        }
        Ok(())
    }

    // The flops take the values of their driving wires.
    fn move_flops(&mut self, nodes: &[Node], wires: &[bool]) -> Result<(), AllocError> {
        self.flops.clear();
        for node in nodes {
            if let Node::Free(Source::Flop { driver }) = *node {
                self.flops.push(high(wires, driver))?;
            }
        }
        Ok(())
    }

    // One tick: the bytes entered and left of each belt.
    pub(crate) fn tick(
        &mut self,
        heap: Global,
        nodes: &[Node],
        sensors: &[u8],
    ) -> Result<Vec<u8>, AllocError> {
        let wires = self.wires(heap, nodes, sensors)?;
        let mut events = Vec::new(heap);
        for (b, (offer, take)) in nodes.iter().filter_map(|n| n.offer_and_take()).enumerate() {
            let enters = high(&wires, offer) && self.count(b) < self.places;
            let leaves = high(&wires, take) && self.head(b).is_some();
            events.push(u8::from(enters))?;
            events.push(u8::from(leaves))?;
            let word = entering_word(nodes, &wires, b);
            self.move_belt(b, enters.then_some(word), leaves)?;
        }
        self.move_flops(nodes, &wires)?;
        Ok(events)
    }

    // What a weighting comes to over the counts.
    fn sum(&self, weights: &[i32]) -> i64 {
        let products = self.belts.iter().zip(weights).map(|(words, weight)| {
            let count = i64::try_from(words.len()).unwrap_or(i64::MAX);
            i64::from(*weight).wrapping_mul(count)
        });
        products.fold(0i64, |sum, product| sum.wrapping_add(product))
    }
}

// What is looked at beside a board: how many sensors and belts it has, and its balances of both kinds.
#[derive(Drop)]
pub(crate) struct Watch {
    sensors: usize,
    belts: usize,
    wholes: Vec<Vec<i32>>,
    parities: Vec<Vec<i32>>,
}

// The first rows of so many weights each.
fn rows_of(
    heap: Global,
    weights: &[i32],
    belts: usize,
    rows: usize,
) -> anyhow::Result<Vec<Vec<i32>>> {
    let mut balances = Vec::new(heap);
    for row in weights.chunks_exact(belts.max(1)).take(rows) {
        balances.push(row.to_vec(heap)?)?;
    }
    Ok(balances)
}

impl Watch {
    pub(crate) fn over(heap: Global, sheet: &Sheet) -> anyhow::Result<Self> {
        let belts = sheet.belts();
        let mut weights = [0; MOST_WEIGHTS];
        let found = derive_whole(sheet, &mut weights)?;
        let wholes = rows_of(heap, &weights, belts, found)?;
        let found = derive_parity(sheet, &mut weights)?;
        let parities = rows_of(heap, &weights, belts, found)?;
        Ok(Watch {
            sensors: sheet.sensors(),
            belts,
            wholes,
            parities,
        })
    }

    // The sensor bytes of a tick: bits that a fixed rule draws.
    pub(crate) fn sensors(&self, heap: Global, tick: usize) -> Result<Vec<u8>, AllocError> {
        let mut bytes = Vec::new(heap);
        let mut state = (tick as u64)
            .wrapping_add(1)
            .wrapping_mul(0x9e37_79b9_7f4a_7c15);
        for _ in 0..self.sensors {
            state ^= state >> 29;
            state = state.wrapping_mul(0xbf58_476d_1ce4_e5b9);
            bytes.push((state >> 63) as u8)?;
        }
        Ok(bytes)
    }

    // How many belts took a word in, and how many gave one up.
    pub(crate) fn pair(&self, events: &[u8]) -> (usize, usize) {
        let mut pair: (usize, usize) = (0, 0);
        for event in events.chunks_exact(2) {
            pair.0 = pair.0.saturating_add(usize::from(event[0]));
            pair.1 = pair.1.saturating_add(usize::from(event[1]));
        }
        pair
    }

    // Whether a line's counts are the plain model's.
    fn counts_agree<B: Bank>(&self, line: &Line<B>, plain: &Plain) -> bool {
        (0..self.belts).all(|b| line.count(b).map(usize::from) == Some(plain.count(b)))
    }

    // Whether a line's counts are the plain model's, and every balance comes to zero over them, a parity balance to an even number.
    pub(crate) fn agrees<B: Bank>(&self, line: &Line<B>, plain: &Plain) -> bool {
        self.counts_agree(line, plain)
            && self.wholes.iter().all(|weights| plain.sum(weights) == 0)
            && self
                .parities
                .iter()
                .all(|weights| plain.sum(weights) % 2 == 0)
    }
}
