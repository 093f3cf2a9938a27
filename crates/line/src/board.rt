use sheet::limits::MOST_FREE_WIRES;
use sheet::sheet::Sheet;

mod ticking;

// A value for each flop of a sheet, in the first of these.
pub(crate) type Flops = [bool; MOST_FREE_WIRES];

// A sheet that is mounted, and the values of its flops: the first of `flops`, in line order.
#[derive(Clone, Copy, Debug)]
pub(crate) struct Board {
    sheet: Sheet,
    flops: Flops,
}
