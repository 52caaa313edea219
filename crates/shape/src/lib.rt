// What is made of lanes, boundaries and elevation grids, and when a call is turned back.
#![tactic(auto)]

pub mod ears;
pub mod elevation;
pub mod junction;
pub mod junction_areas;
pub mod lists;
pub mod memory;
pub mod mesh;
pub mod refusal;
mod rib;
pub mod strip;
pub mod validate;
mod weld;
