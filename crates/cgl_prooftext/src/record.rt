use cgl_derive::{Knap, Lin, Round};
use cgl_model::{Ineq, Terms};

/// The line that opens a split.
#[derive(Drop)]
pub(crate) struct Opening {
    pub(crate) p: Terms,
    pub(crate) p0: i128,
    pub(crate) claim: Ineq,
}

/// One line of a proof file.
#[derive(Drop)]
pub(crate) enum Record {
    Format1,
    Format2,
    Lemmas(u32),
    Lemma(Ineq),
    Cuts(u32),
    Cut(Ineq),
    Lin(Lin),
    Round(Round),
    Knap(Knap),
    Split(Opening),
    Else,
    Done,
    Qed,
    End,
}

/// Why a line says nothing.
#[derive(Clone, Copy, Debug, PartialEq, Eq)]
pub(crate) enum LineFault {
    /// It is not of the form.
    Form,
    /// It is of the form, with a number that is too large; or a count is too large.
    Large,
    /// Memory is refused.
    Memory,
}
