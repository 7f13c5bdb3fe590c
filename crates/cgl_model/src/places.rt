use crate::Ineq;

/// One of the two ends of a row, or of a column's bounds.
#[derive(Clone, Copy, Debug, PartialEq, Eq)]
pub enum End {
    Lower,
    Upper,
}

/// An end of a row, or of a column's bounds. Rows and columns are numbered from 0.
#[derive(Clone, Copy, Debug, PartialEq, Eq)]
pub enum Place {
    Row(u32, End),
    Bound(u32, End),
}

/// A finite end as an inequality in whole numbers, which a point meets exactly where it meets the end.
#[derive(Drop)]
pub struct Side {
    pub place: Place,
    pub ineq: Ineq,
}

/// A variable: a column, or the slack of a row, by its number.
#[derive(Clone, Copy, Debug, PartialEq, Eq)]
pub enum Var {
    Col(u32),
    Slack(u32),
}
