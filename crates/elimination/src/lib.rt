//! Elimination of rows of whole coefficients, over whole numbers and over parities.
#![tactic(auto)]

mod filed;
mod kept;
mod reduce;
mod rows;
mod solve;

pub use solve::{EliminationError, eliminate_parity, eliminate_whole};
