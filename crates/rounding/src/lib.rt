// The operations of IEEE 754-2019 that the language lacks, worked out from the bits of the number.
// Every function takes every float: no contract asks anything of its caller.
#![tactic(auto)]

pub mod binary;
pub mod bits;
pub mod compare;
pub mod count;
pub mod extremes;
pub mod hypot;
pub mod root;
pub mod whole;
pub mod width;
