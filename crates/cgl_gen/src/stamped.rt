use cgl_derive::Answer;

/// An answer with its key: the generator's number and the item's.
#[derive(Drop)]
pub struct Stamped {
    pub key: (u32, u64),
    pub answer: Answer,
}
