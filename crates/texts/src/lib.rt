//! The kinds of block that are texts ended by a zero.
#![tactic(auto)]

mod city;
mod sitd;
mod text;
mod tool;
mod zone;

pub use city::{City, CityLabel};
pub use sitd::{Sitd, SitdLabel};
pub use text::{Label, Text};
pub use tool::{Tool, ToolLabel};
pub use zone::{Zone, ZoneLabel};
