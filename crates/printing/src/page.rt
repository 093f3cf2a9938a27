ghost use Rattle.std.specs.Prelude.{◌≡◌, ◌≤◌, length};

pub(crate) mod writing;

/// So many bytes are enough for every list, and for every refusal line: the longest list has 33 lines of 32 words, each of at
/// most 8 bytes and with one byte after it.
pub const MOST_WRITTEN: usize = 33 * 32 * 9;

// Text on its way to the caller: the first `len` of `bytes`.
#[derive(Drop)]
pub(crate) struct Page {
    bytes: [u8; MOST_WRITTEN],
    len: usize,
    ghost whole: { length bytes ≡ 9504 },
    ghost few: { len ≤ 9504 },
}
