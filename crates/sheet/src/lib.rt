#![tactic(auto)]

pub mod class;
pub mod fault;
pub mod limits;
mod load;
pub mod node;
pub mod parts;
mod reader;
mod rules;
pub mod sheet;
mod split;
pub mod text;
mod value;
