ghost use Rattle.std.specs.Prelude.{◌≤◌, length};

use belts::ring::Ring;

pub(crate) mod calls;

// A bank of 1 to 32 rings.
#[derive(Drop)]
pub(crate) struct Rings {
    rings: Vec<Ring>,
    ghost some: { 1 ≤ length rings.items },
    ghost few: { length rings.items ≤ 32 },
}
