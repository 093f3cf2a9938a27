#![tactic(auto)]

mod addends;
pub mod adding;
mod blanking;
pub mod gates;
pub mod laws;
mod merging;
pub mod reading;
mod room;
pub mod sets;
pub mod term;
pub mod writing;

pub use adding::{add_product, add_scaled, add_term};
pub use gates::{and_form, not_form, or_form, xor_form};
pub use reading::{same, value};
pub use sets::alone;
pub use term::Term;
pub use writing::write_form;
