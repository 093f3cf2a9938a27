ghost use Rattle.std.specs.Prelude.{◌≡◌, ◌<◌, ◌≤◌, true, length};

pub mod calls;

// A ring (circular buffer) of 1 to 16 words: the next word enters at `enter`, the oldest leaves at `leave`.
// Where the two meet, the mark tells a full ring from an empty one.
#[derive(Clone, Copy, Debug)]
pub struct Ring {
    cells: [u8; 16],
    places: u8,
    width: u8,
    enter: u8,
    leave: u8,
    full: bool,
    ghost whole: { length cells ≡ 16 },
    ghost few: { places ≤ 16 },
    ghost narrow: { width ≤ 4 },
    ghost enters: { enter < places },
    ghost leaves: { leave < places },
    ghost meets: { (full ≡ true → enter ≡ leave) },
}
