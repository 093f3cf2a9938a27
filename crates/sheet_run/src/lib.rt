#![tactic(auto)]

mod board;
mod texts;
