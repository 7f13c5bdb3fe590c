//! Laws of what decks mean.

ghost use Rattle.cgl_decode.specs.DeckResult.{ResultsAreDecks, ResultsAreFaults, ResultsAreModels};
ghost use Rattle.cgl_decode.specs.Front.{FrontDecides, FrontWithin};
ghost use Rattle.cgl_decode.specs.Reading.{LowerInOrder, ReadsAlike, UpperInOrder};

/// Reading line by line, with the records so far, gives what the filters over all records say.
#[tactic(auto, using(crate::proofs::ReadingLaws::reads_alike))]
pub fn reads_alike()
    ensures { ReadsAlike }
{}

/// The bounds that the filters give are those of records that act in order.
pub fn bounds_in_order()
    ensures lower { LowerInOrder }
    ensures upper { UpperInOrder }
{}

/// The bytes up to the one past the limit tell what a deck means, whatever follows them.
pub fn front_decides()
    ensures within { FrontWithin }
    ensures whole { FrontDecides }
{}

/// What a deck's result tells: a model is valid, with decimals within the limits.
#[tactic(auto, using(crate::proofs::DeckResultLaws::results_are_decks, crate::proofs::DeckResultLaws::results_are_faults))]
pub fn deck_results()
    ensures decks { ResultsAreDecks }
    ensures faults { ResultsAreFaults }
    ensures models { ResultsAreModels }
{}
