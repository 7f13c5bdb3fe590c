ghost use Rattle.std.specs.Prelude.{◌≡◌, [], ◌∷◌, ◌++◌, IfOk, OnOk, OnErr};

use crate::Seq;
use cgl_num::{Dec, Memory};
use smallvec::SmallVec;
use std::alloc::Global;

/// Bytes of a name.
pub type Name = Seq<u8>;

/// The kind of a row: N is free, L is at most its right side, G at least, and E equal to it.
#[derive(Clone, Copy, Debug, PartialEq, Eq)]
pub enum RowKind {
    N,
    L,
    G,
    E,
}

/// A row. Its ends follow from its kind, its right side and its range, of which the magnitude counts, and in an E row
/// the sign as well.
#[derive(Drop)]
pub struct Row {
    pub name: Name,
    pub kind: RowKind,
    pub rhs: Dec,
    pub range: Option<Dec>,
}

/// Entries of a column: rows, by their numbers from 0, with coefficients; or of a row, by columns.
#[derive(Drop)]
pub struct Entries {
    items: SmallVec<(u32, Dec), 1>,
}

impl std::marker::Model for Entries {
    ghost use Rattle.std.specs.Prelude.{List, ℕ};
    ghost use Rattle.cgl_num.specs.Decimal.{Decimal};

    ghost Value = { List (ℕ × Decimal) };

    ghost view = { λ it. it.items.items };
}

impl Entries {
    /// The empty list, which takes no memory.
    pub fn new(alloc: Global) -> Entries
        ensures { result ≡ [] }
    {
        Entries {
            items: SmallVec::new(alloc),
        }
    }

    /// The empty list, with memory for a count of entries.
    ///
    /// # Errors
    ///
    /// `Memory` where memory for them is refused.
    pub fn with_capacity(alloc: Global, count: usize) -> Result<Entries, Memory>
        ensures { IfOk result (λ entries. entries ≡ []) }
    {
        let mut items = SmallVec::new(alloc);
        match items.reserve(count) {
            Ok(()) => Ok(Entries { items }),
            Err(_) => Err(Memory),
        }
    }

    /// The entries as pairs of a number and a coefficient.
    pub fn as_slice(&self) -> &[(u32, Dec)]
        ensures { result.now ≡ self.now }
    {
        self.items.as_slice()
    }

    /// Appends an entry.
    ///
    /// # Errors
    ///
    /// `Memory` where memory is refused; the list is then as it was.
    pub fn push(&mut self, item: (u32, Dec)) -> Result<(), Memory>
        ensures ok { OnOk result (self.new ≡ self.old ++ item ∷ []) }
        ensures err { OnErr result (self.new ≡ self.old) }
    {
        match self.items.push(item) {
            Ok(()) => Ok(()),
            Err(_) => Err(Memory),
        }
    }

    /// Gives back the memory that the entries do not take.
    pub fn shrink_to_fit(&mut self)
        ensures { self.new ≡ self.old }
    {
        self.items.shrink_to_fit();
    }
}

/// A column, with its lower and its upper bound and its entries. A bound that is `None` is infinite.
#[derive(Drop)]
pub struct Column {
    pub name: Name,
    pub integer: bool,
    pub lo: Option<Dec>,
    pub up: Option<Dec>,
    pub entries: Entries,
}

/// A model: its rows and its columns, each numbered from 0. Its objective is its first N row.
#[derive(Drop)]
pub struct Model {
    pub name: Name,
    pub maximise: bool,
    pub rows: Seq<Row>,
    pub cols: Seq<Column>,
}
