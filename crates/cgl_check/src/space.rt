use cgl_derive::Sum;
use std::marker::Model;

/// What steps are worked out in: a running sum, and a knapsack table.
#[derive(Drop)]
pub struct Space {
    pub sum: Sum,
    pub table: Vec<i128>,
}

impl Model for Space {
    ghost use Rattle.std.specs.Prelude.{length};
    ghost use Rattle.cgl_check.specs.Room.{Room};

    ghost Value = { Room };

    ghost view = { λ s. record { columns = length s.sum.columns; places = length s.table.items } };
}
