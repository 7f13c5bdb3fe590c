ghost use Rattle.std.specs.Prelude.{◌≡◌};
ghost use Rattle.cgl_deck.specs.DeckText.{deck_text};
ghost use Rattle.cgl_app.specs.CutOf.{is_too_long};

use cgl_deck::deck_len;
use cgl_model::Model;

/// The most bytes of a file that is written.
const MOST_WRITTEN: u64 = 1 << 30;

/// What a cut writes: the model with the listed cuts, and the texts of their derivations and of the report.
#[derive(Drop)]
pub struct CutTexts {
    pub deck: Model,
    pub proofs: Vec<u8>,
    pub report: Vec<u8>,
}

pub fn is_too_long(text: &[u8]) -> bool
    ensures { result ≡ is_too_long text.now }
{
    text.len() as u64 > MOST_WRITTEN
}

/// Whether the canonical text of the model is too long to be written. The text is not made.
pub fn is_too_long_deck(model: &Model) -> bool
    ensures { result ≡ is_too_long (deck_text model.now) }
{
    deck_len(model) > MOST_WRITTEN
}
