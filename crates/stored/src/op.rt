// Operations by the numbers that they have in stored lists.

// A number that no operation has.
#[derive(Clone, Copy)]
pub struct UnknownOp(pub u32);
