ghost use Rattle.std.specs.Prelude.{◌≡◌, length};

use sheet::limits::MOST_BELTS;

mod access;

// How many sensors, flops, and bit lines of each of 32 belts stand among the lines so far.
#[derive(Drop)]
pub(crate) struct Numbers {
    pub(crate) sensors: usize,
    pub(crate) flops: usize,
    bits: [usize; MOST_BELTS],
    ghost whole: { length bits ≡ 32 },
}
