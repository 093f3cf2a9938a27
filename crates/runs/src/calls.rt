use sheet::fault::Fault;
use sheet::limits::MOST_BELTS;

// A call on a line. A mounting names a sheet by its number among those handed over. A tick has sensor bytes and an
// event memory of so many zero bytes, at most 64. A count is read by a belt's number.
#[derive(Clone, Copy, Debug, PartialEq, Eq)]
pub enum Call<'a> {
    Mount(usize),
    Tick { sensors: &'a [u8], memory: usize },
    Clear,
    Count(usize),
}

// What a call answered: a mounting or clearing done, the pair of a tick, a count, or a refusal.
#[derive(Clone, Copy, Debug, PartialEq, Eq)]
pub enum Answer {
    Done,
    Ticked(usize, usize),
    Counted(Option<u16>),
    Refused(Fault),
}

// The event memory of a call has at most so many bytes: two for each belt.
pub const MOST_EVENTS: usize = 2 * MOST_BELTS;

// What a call answered, and the event memory as it was left, with zeros after it.
#[derive(Clone, Copy, Debug, PartialEq, Eq)]
pub struct Report {
    pub answer: Answer,
    pub bytes: [u8; MOST_EVENTS],
}

// A call for the first or the second of two lines.
#[derive(Clone, Copy, Debug, PartialEq, Eq)]
pub enum Order<'a> {
    First(Call<'a>),
    Second(Call<'a>),
}
