//! The whole work on a text: from a sheet to the printed list of its balances.
#![tactic(auto)]

mod answer;
mod balances;
mod lists;

pub use answer::{Answer, answer_text};
pub use lists::list_balances;
pub use printing::MOST_WRITTEN;
