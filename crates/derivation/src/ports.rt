// The wires that a belt's events look at.
ghost use Rattle.std.specs.Prelude.{◌≡◌, slice_index_or};
ghost use Rattle.std.specs.List.{position_or_len};
ghost use Rattle.sheet.specs.Nodes.{belts_of};
ghost use Rattle.sheet.specs.Views.{nodes_in};
ghost use Rattle.sheet.specs.Parts.{is_part};
ghost use Rattle.flows.specs.Flows.{ports_of};
ghost use Rattle.derivation.specs.Ports.{ports_in};

use sheet::parts::{Part, find_part};
use sheet::sheet::Sheet;

// The wires of a belt: an item enters where offer and room are high, and leaves where take and item are.
#[derive(Clone, Copy)]
pub(crate) struct Ports {
    pub(crate) offer: u16,
    pub(crate) room: u16,
    pub(crate) take: u16,
    pub(crate) item: u16,
}

// The offer and the take wire of belt `b`; wire 0 past the last belt.
fn belt_wires(sheet: &Sheet, b: usize) -> (u16, u16)
    ensures { result ≡ slice_index_or (belts_of (nodes_in sheet.now)) b (0, 0) }
{
    sheet
        .nodes()
        .iter()
        .filter_map(|node| node.offer_and_take())
        .nth(b)
        .unwrap_or((0, 0))
}

// The line that is a part of belt `b`.
fn part_line(sheet: &Sheet, part: Part, b: usize) -> u16
    ensures { result ≡ position_or_len (is_part part b) (nodes_in sheet.now) }
{
    let nodes = sheet.nodes();
    find_part(part, b, nodes, 0).unwrap_or(nodes.len()) as u16
}

// The wires of belt `b`.
pub(crate) fn ports_of(sheet: &Sheet, b: usize) -> Ports
    ensures { ports_in result ≡ ports_of (nodes_in sheet.now) b }
{
    let (offer, take) = belt_wires(sheet, b);
    Ports {
        offer,
        room: part_line(sheet, Part::Room, b),
        take,
        item: part_line(sheet, Part::Item, b),
    }
}
