use crate::board::Board;

mod calls;

/// A line: a bank of its own, which only its calls change, and the board that is mounted on it, if one is.
#[derive(Clone, Debug, Drop)]
pub struct Line<B> {
    bank: B,
    board: Option<Board>,
}
