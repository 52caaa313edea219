// The two height lookups over a mesh, and the index that serves the second.
#![tactic(auto)]

pub mod batch;
pub mod boxes;
pub mod build_fast;
pub mod consult;
pub mod frame;
pub mod grid;
pub mod lane;
pub mod mesh;
pub mod record;
pub mod sampler;
