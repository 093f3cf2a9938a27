//! Any list of calls on a line, with a report of each, and what the reports tell of the belts.
#![tactic(auto)]

pub mod calls;
pub mod drive;
pub mod pair;
pub mod perform;
