//! The kinds of block that are packed records.
#![tactic(auto)]

mod fill;
mod fwin;
mod glrm;
mod loca;
mod rcvi;
mod supi;
mod time;

pub use fill::Fill;
pub use fwin::Fwin;
pub use glrm::Glrm;
pub use loca::Loca;
pub use rcvi::Rcvi;
pub use supi::Supi;
pub use time::Time;
