ghost use Rattle.std.specs.Prelude.{◌*◌, ◌^◌, ◌<◌, ◌≤◌};

pub mod calls;

// A packed row of 1 to 16 words: four bits each in one number, the oldest in the lowest bits.
#[derive(Clone, Copy, PartialEq, Eq, Debug)]
pub struct PackedRow {
    bits: u64,
    count: u8,
    places: u8,
    width: u8,
    ghost some: { 1 ≤ places },
    ghost few: { places ≤ 16 },
    ghost narrow: { width ≤ 4 },
    ghost held: { count ≤ places },
    ghost clean: { bits < 2 ^ (4 * count) },
}
