#![tactic(auto)]

mod list;
mod page;
mod refusal;

pub use list::print_list;
pub use page::MOST_WRITTEN;
pub use refusal::print_refusal;
