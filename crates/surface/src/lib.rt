// The surface file: records as bytes and as held words, and the mesh that they stand for; the text that
// `probe` prints of a file; and a verdict on a mesh as a sentence.
#![tactic(auto)]

pub mod file;
mod held;
mod memory;
pub mod report;
pub mod sentence;
mod text;
