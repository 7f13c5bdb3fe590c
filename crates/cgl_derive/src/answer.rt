use crate::Derivation;
use cgl_model::Ineq;
use cgl_num::Frac;

/// A cut with its derivation, and by how much the point violates it.
#[derive(Drop)]
pub struct Candidate {
    pub cut: Ineq,
    pub derivation: Derivation,
    pub violation: Frac,
}

/// What a generator says of an item: no cut, a cut, or `Wide` for a number that does not fit.
#[derive(Drop)]
pub enum Answer {
    Nothing,
    Cut(Candidate),
    Wide,
}
