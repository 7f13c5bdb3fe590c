//! Decks whose meaning the definitions compute.
#![tactic(auto, unfolding(crate::specs::Faults::fault_after, crate::specs::Models::model_of))]

ghost use Rattle.cgl_decode.specs.FaultyDecks.{Headers, Ends, RowFaults, ColumnFaults, SetFaults, BoundFaults, LongFaults, Full};
ghost use Rattle.cgl_decode.specs.Decks.{FirstDeck, SolverDeck, LeastDeck, RangeDeck, BelowZeroDeck, ZeroFirstDeck, ZeroLaterDeck, AboveLaterDeck, MinusZeroDeck, InfiniteFirstDeck, BinaryLaterDeck, BinaryFirstDeck, FreeDeck, FixedDeck, MarkedIntegerDeck, NumbersDeck, SetsDeck, MarkersDeck, BlanksDeck};
ghost use Rattle.cgl_decode.specs.Scale.{ScaledDeck};

/// Faults: the headers: their words, their order and their fields.
pub fn header_faults()
    ensures { Headers }
{}

/// Faults: decks that do not end, and lines that are not read.
pub fn end_faults()
    ensures { Ends }
{}

/// Faults: ROWS.
pub fn row_faults()
    ensures { RowFaults }
{}

/// Faults: COLUMNS.
pub fn column_faults()
    ensures { ColumnFaults }
{}

/// Faults: RHS and RANGES.
pub fn set_faults()
    ensures { SetFaults }
{}

/// Faults: BOUNDS.
pub fn bound_faults()
    ensures { BoundFaults }
{}

/// Faults: lines over 4,096 and names over 255 bytes.
pub fn long_faults()
    ensures { LongFaults }
{}

/// Faults: the limits, for decks of two rows, two columns, three entries and 60 bytes.
pub fn limit_faults()
    ensures { Full }
{}

/// Decks that mean a model.
pub fn deck_models()
    ensures first { FirstDeck }
    ensures solver { SolverDeck }
    ensures least { LeastDeck }
    ensures range { RangeDeck }
    ensures below_zero { BelowZeroDeck }
    ensures zero_first { ZeroFirstDeck }
    ensures zero_later { ZeroLaterDeck }
    ensures above_later { AboveLaterDeck }
    ensures minus_zero { MinusZeroDeck }
    ensures infinite_first { InfiniteFirstDeck }
    ensures binary_later { BinaryLaterDeck }
    ensures binary_first { BinaryFirstDeck }
    ensures free { FreeDeck }
    ensures fixed { FixedDeck }
    ensures marked_integer { MarkedIntegerDeck }
    ensures numbers { NumbersDeck }
    ensures sets { SetsDeck }
    ensures markers { MarkersDeck }
    ensures blanks { BlanksDeck }
{}

/// A deck of any size, here of 88 lines.
pub fn scaled_deck()
    ensures { ScaledDeck }
{}
