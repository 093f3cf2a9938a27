ghost use Rattle.std.specs.Prelude.{◌*◌, ◌≤◌, length};

// The rows that are kept, of `size` numbers each, one after another, and the column of each one's lowest term.
#[derive(Drop)]
pub(crate) struct Kept<'a, T> {
    pub(crate) size: usize,
    pub(crate) leads: &'a [usize],
    pub(crate) rows: &'a [T],
    ghost whole: { length leads.now * size ≤ length rows.now },
}
