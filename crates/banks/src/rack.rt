ghost use Rattle.std.specs.Prelude.{◌≡◌, ◌≤◌, length};

use crate::bank::MOST;
use belts::row::PackedRow;

pub mod calls;

/// A rack of 1 to 32 packed rows: the first `size` rows of the array are in use.
#[derive(Clone, Copy, Debug)]
pub struct Rack {
    rows: [PackedRow; MOST],
    size: usize,
    ghost whole: { length rows ≡ 32 },
    ghost some: { 1 ≤ size },
    ghost few: { size ≤ 32 },
}
