//! The balances of a sheet's belts: which weighted sums of belt counts are always zero, or always even.
#![tactic(auto)]

mod columns;
mod derive;
mod flow;
mod ports;
mod rows;
mod table;

pub use derive::{MOST_WEIGHTS, derive_parity, derive_whole};
