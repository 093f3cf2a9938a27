ghost use Rattle.std.specs.Prelude.{◌≡◌, ◌≤◌, length, take, count_by};
ghost use Rattle.sheet.specs.Nodes.{is_belt, is_free};
ghost use Rattle.sheet.specs.Rules.{Ordered};
ghost use Rattle.sheet.specs.Drafts.{Tallied};

use crate::limits::MOST_LINES;
use crate::node::Node;
use crate::sheet::tally::Tally;

pub(crate) mod build;

// The nodes read so far: the first `len` of `nodes`, with running counts of belts, of free wires, and of each belt's
// parts.
#[derive(Clone, Copy)]
pub(crate) struct Draft {
    nodes: [Node; MOST_LINES],
    len: usize,
    belts: usize,
    free: usize,
    parts: Tally,
    ghost whole: { length nodes ≡ 640 },
    ghost few: { len ≤ 640 },
    ghost counted: { belts ≡ count_by is_belt (take len nodes) },
    ghost tallied: { free ≡ count_by is_free (take len nodes) },
    ghost narrow: { belts ≤ 32 },
    ghost small: { free ≤ 128 },
    ghost ordered: { Ordered (take len nodes) },
    ghost shared: { Tallied (take len nodes) parts.belts },
}
