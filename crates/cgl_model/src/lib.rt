//! Mixed-integer linear models, their rows and bounds as inequalities in whole numbers, and points.
#![tactic(auto)]

mod decimals;
mod integer_forms;
mod laws;
mod limits;
mod linear;
mod mip;
mod places;
mod points;
mod row_lists;
mod row_numbers;
mod row_shape;
mod scaling;
mod seq;
mod side_list;
mod violation;

pub use integer_forms::{Forms, RowForm, RowShape};
pub use laws::{find_laws, sides_meaning};
pub use limits::{MOST_COLUMNS, MOST_ENTRIES, MOST_ROWS};
pub use linear::{Ineq, Terms, Wide};
pub use mip::{Column, Entries, Model, Name, Row, RowKind};
pub use places::{End, Place, Side, Var};
pub use points::Point;
pub use seq::Seq;
