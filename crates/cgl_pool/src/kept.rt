use cgl_derive::Candidate;
use cgl_model::Seq;

/// A cut that is listed, under its least key: the generator's number and the item's.
#[derive(Drop)]
pub struct Kept {
    pub key: (u32, u64),
    pub candidate: Candidate,
}

/// The cuts that are listed, in the order of inequalities, and the rising keys of the answers that were too wide.
#[derive(Drop)]
pub struct Gathered {
    pub listed: Seq<Kept>,
    pub wides: Seq<(u32, u64)>,
}
