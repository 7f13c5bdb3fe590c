use cgl_derive::Step;
use cgl_model::{Forms, Ineq, Model};

/// What a derivation is checked against: a model with its forms, the inequalities that are shared, and the steps of the
/// whole derivation.
#[derive(Clone, Copy)]
pub struct Scope<'a> {
    pub model: &'a Model,
    pub forms: &'a Forms,
    pub shared: &'a [Ineq],
    pub steps: &'a [Step],
}
