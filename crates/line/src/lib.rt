#![tactic(auto)]

mod board;
mod checks;
pub mod clients;
mod events;
pub mod line;
mod moves;
mod numbers;
mod wires;
