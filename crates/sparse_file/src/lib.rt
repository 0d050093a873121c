// What a sparse file is: a header, and chunks that each have blocks of an image.
#![tactic(auto)]

pub mod chunk;
pub mod chunks;
pub mod header;
