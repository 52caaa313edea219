// Points and vectors of three singles, passed by value: each operation is its formula, with each sum,
// product and quotient rounded once, in the Rust's order.
#![tactic(auto)]

pub mod coords;
pub mod geometry;
