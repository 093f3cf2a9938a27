ghost use Rattle.std.specs.Prelude.{◌≡◌, ◌≤◌, length, take, count_by};
ghost use Rattle.sheet.specs.Nodes.{is_belt, is_free};
ghost use Rattle.sheet.specs.Rules.{Ordered, Named, Complete};

use crate::limits::MOST_LINES;
use crate::node::Node;

mod access;
pub(crate) mod draft;
pub(crate) mod tally;

/// A sheet (a netlist): the first `len` of `nodes`. They keep every rule, from the moment that it exists.
#[derive(Clone, Copy, Debug)]
pub struct Sheet {
    nodes: [Node; MOST_LINES],
    len: usize,
    ghost whole: { length nodes ≡ 640 },
    ghost few: { len ≤ 640 },
    ghost belts: { count_by is_belt (take len nodes) ≤ 32 },
    ghost free: { count_by is_free (take len nodes) ≤ 128 },
    ghost ordered: { Ordered (take len nodes) },
    ghost named: { Named (take len nodes) },
    ghost complete: { Complete (take len nodes) },
}
