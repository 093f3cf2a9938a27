#![tactic(auto)]

mod filling;
mod gates;
pub mod held;
mod slot;
mod wires;

pub use held::Forms;
pub use wires::{same_form, terms};
