ghost use Rattle.std.specs.Prelude.{◌≡◌, ◌≤◌, length};

use crate::slot::Slot;
use sheet::limits::MOST_LINES;

pub mod calls;

/// The forms of all lines of a sheet, each within the limits: the first `len` of `slots`.
#[derive(Drop)]
pub struct Forms {
    slots: [Slot; MOST_LINES],
    len: usize,
    ghost whole: { length slots ≡ 640 },
    ghost few: { len ≤ 640 },
}
