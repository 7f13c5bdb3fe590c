use crate::Derivation;
use cgl_model::{Ineq, Seq};

/// Inequalities with their derivations: those that are shared, each derived from the ones before it, and the cuts, each
/// derived from all that are shared.
#[derive(Drop)]
pub struct Book {
    pub shared: Seq<(Ineq, Derivation)>,
    pub cuts: Seq<(Ineq, Derivation)>,
}
