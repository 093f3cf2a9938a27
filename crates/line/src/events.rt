ghost use Rattle.std.specs.Prelude.{◌≡◌, ◌*◌, ◌≤◌, false, ◌&&◌, ◌++◌, length, take, drop, is_some, slice_index_or};
ghost use Rattle.belts.specs.Belts.{roomy, head_of};
ghost use Rattle.banks.specs.Banks.{numbered};
ghost use Rattle.sheet.specs.Nodes.{belts_of};
ghost use Rattle.sheet.specs.Views.{nodes_in};
ghost use Rattle.sheet.specs.Wires.{enters, leaves};
ghost use Rattle.line.specs.Lines.{event_bytes, how_many};
ghost use Rattle.line.specs.Parts.{belt_count};

use crate::wires::flag;
use banks::bank::Bank;
use sheet::limits::MOST_BELTS;
use sheet::sheet::Sheet;

// The belts' offer and take wires, in belt order.
fn belt_wires(sheet: &Sheet) -> [(u16, u16); MOST_BELTS]
    ensures { take (belt_count (nodes_in sheet.now)) result ≡ belts_of (nodes_in sheet.now) }
{
    let mut belts = [(0, 0); MOST_BELTS];
    let nodes = sheet.nodes();
    let pairs = nodes.iter().filter_map(|node| node.offer_and_take());
    for (b, pair) in pairs.enumerate() {
        belts[b] = pair;
    }
    belts
}

// Whether a word enters belt `b` and whether one leaves it, by its offer and take wires and by what the bank tells now.
fn belt_events<B: Bank>(bank: &B, wires: &[bool], pair: (u16, u16), b: usize) -> (bool, bool)
    ensures { result ≡ ((slice_index_or wires.now pair.0 false && roomy (numbered (B.belts bank.now) b)), (slice_index_or wires.now pair.1 false && is_some (head_of (numbered (B.belts bank.now) b)))) }
{
    let (offer, take) = pair;
    let leaves = flag(wires, usize::from(take)) & bank.head(b).is_some();
    let enters = flag(wires, usize::from(offer)) & bank.room(b);
    (enters, leaves)
}

// Writes two bytes for each belt, entered and left, and answers how many belts take a word in and how many give one up.
pub(crate) fn report<B: Bank>(
    bank: &B,
    sheet: &Sheet,
    wires: &[bool],
    events: &mut [u8],
) -> (usize, usize)
    requires { 2 * belt_count (nodes_in sheet.now) ≤ length events.old }
    ensures bytes { events.new ≡ event_bytes (enters (nodes_in sheet.now) wires.now (λ c. roomy (numbered (B.belts bank.now) c))) (leaves (nodes_in sheet.now) wires.now (λ c. is_some (head_of (numbered (B.belts bank.now) c)))) (belt_count (nodes_in sheet.now)) ++ drop (2 * belt_count (nodes_in sheet.now)) events.old }
    ensures pair { result ≡ (how_many (enters (nodes_in sheet.now) wires.now (λ c. roomy (numbered (B.belts bank.now) c))) (belt_count (nodes_in sheet.now)), how_many (leaves (nodes_in sheet.now) wires.now (λ c. is_some (head_of (numbered (B.belts bank.now) c)))) (belt_count (nodes_in sheet.now))) }
{
    let table = belt_wires(sheet);
    let n = sheet.belts();
    let mut entered: usize = 0;
    let mut left: usize = 0;
    for (b, pair) in table[..n].iter().enumerate() {
        let (enters, leaves) = belt_events(bank, wires, *pair, b);
        events[2 * b] = u8::from(enters);
        events[2 * b + 1] = u8::from(leaves);
        entered += usize::from(enters);
        left += usize::from(leaves);
    }
    (entered, left)
}
