//! Known texts.

ghost use Rattle.cgl_prooftext.specs.KnownProof.{KnownBook, KnownEmptyBook, KnownKnap, KnownProof, KnownReferences, KnownRound};

/// The text of a book whose cuts take a shared inequality, of an empty book, and of a proof that splits into two cases,
/// each a weighted sum; of a rounding step; of a knapsack step; and of references.
pub fn known_texts()
    ensures book { KnownBook }
    ensures empty { KnownEmptyBook }
    ensures proof { KnownProof }
    ensures round { KnownRound }
    ensures knap { KnownKnap }
    ensures references { KnownReferences }
{}
