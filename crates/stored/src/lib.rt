// Stored cases: their list is read in words, the operations of the rounding and the vector layer are
// worked on them, and what came out is told in lines. This needs no layer above, so that it is proved
// beside them.
#![tactic(auto)]

pub mod answer;
pub mod lent;
pub mod op;
pub mod rounding_ops;
pub mod stream;
pub mod text;
pub mod vector_ops;
