// Two meshes as one (document 02, "Lanes and junctions as one surface").
#![tactic(auto)]

pub mod join;
