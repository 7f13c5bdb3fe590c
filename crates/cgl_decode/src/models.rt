//! What is true of the model of every deck.

ghost use Rattle.cgl_decode.specs.Meaning.{DecksAreDecimal, DecksAreSized, DecksAreValid};

/// A deck's model keeps the limits on rows, columns and entries.
pub fn decks_are_sized()
    ensures { DecksAreSized }
{}

/// A deck's model is valid: its names, the rows of its entries and its bounds too.
pub fn decks_are_valid()
    ensures { DecksAreValid }
{}

/// Each right side, range, bound and entry of a deck's model is a decimal within the limits.
pub fn decks_are_decimal()
    ensures { DecksAreDecimal }
{}
