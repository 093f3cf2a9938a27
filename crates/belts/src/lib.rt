#![tactic(auto)]

pub mod belt;
pub mod clients;
pub mod drive;
pub mod ring;
pub mod row;
pub mod series;
mod store;
