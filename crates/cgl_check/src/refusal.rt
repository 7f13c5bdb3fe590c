use crate::path::Reject;

/// An entry of a book, by its number from 0 among those of its kind.
#[derive(Clone, Copy, Debug, PartialEq, Eq)]
pub enum EntryPlace {
    Shared(u64),
    Cut(u64),
}

/// The first refusal of a book: which entry, and the first failure of its derivation. An inequality with a column that the
/// model does not have fails as a whole, as a reference to nothing does.
#[derive(Drop)]
pub struct BookRefusal {
    pub entry: EntryPlace,
    pub reject: Reject,
}

/// Why a book was not found to be right.
#[derive(Drop)]
pub enum BookError {
    Refused(BookRefusal),
    Memory,
}
