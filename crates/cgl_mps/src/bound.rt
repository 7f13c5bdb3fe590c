//! Bounds as a line of BOUNDS says them.

use cgl_decode::BoundKind;
use std::marker::Model;

/// A bound on a column, in a set or in none, with a value or none.
#[derive(Drop)]
pub(crate) struct Bound<'a> {
    pub(crate) kind: BoundKind,
    pub(crate) set: Option<&'a [u8]>,
    pub(crate) column: &'a [u8],
    pub(crate) value: Option<&'a [u8]>,
}

impl<'a> Model for Bound<'a> {
    ghost use Rattle.std.specs.Prelude.{option_map};
    ghost use Rattle.cgl_text.specs.Seen.{word};
    ghost use Rattle.cgl_decode.specs.Sections.{Bound as Said};

    ghost Value = { Said };

    ghost view = { λ it. record { kind = it.kind; set = option_map word it.set; column = it.column.now; value = option_map word it.value } };
}
