//! What a refusal is: its number, its name, its layer, and the fault that carries it.
#![tactic(auto)]

mod fault;
mod refusal;

pub use fault::Fault;
pub use refusal::{Layer, Refusal};
