ghost use Rattle.cgl_deck.specs.Laws.{Extends, HasLines, ReadsBack, Refuses};

/// Where cuts are refused, the model has no extension by them.
pub fn refusal_laws()
    ensures { Refuses }
{}

/// Laws of models with cuts as further rows.
pub fn extension_laws()
    ensures { Extends }
{}

/// The canonical text of a model decodes to the model, so the text of what it decodes to is the same.
pub fn round_trip_laws()
    ensures { ReadsBack }
{}

/// The canonical text of a model is that of its lines, and, cut into records, gives them back.
pub fn text_laws()
    ensures { HasLines }
{}
