ghost use Rattle.std.specs.Prelude.{◌≤◌};

pub(crate) mod steps;

// What stands before a line: how many free wires, and how many terms the gates' forms have together.
#[derive(Clone, Copy)]
pub(crate) struct Filling {
    free: usize,
    terms: usize,
    ghost few: { terms ≤ 2048 },
}
