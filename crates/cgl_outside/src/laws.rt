//! Laws of what shelves and sinks hold, for proofs over several writes, and of what a reader of lines
//! has handed out, for proofs over several lines.
ghost use Rattle.cgl_outside.specs.Handed.{HandsOut, NumbersLines, OneAnswer};
ghost use Rattle.cgl_outside.specs.Laws.{KeepsFiles, KeepsBytes};

/// The files of a shelf are as the last write of each name left them.
pub fn shelf_laws()
    ensures { KeepsFiles }
{}

/// The bytes of a sink are its pieces, one behind another.
pub fn sink_laws()
    ensures { KeepsBytes }
{}

/// What a reader of lines has handed out grows by its lines, whose numbers are those of the file's.
pub fn line_laws()
    ensures hands_out { HandsOut }
    ensures numbers { NumbersLines }
{}

/// What stands behind the lines that a reader has handed out has one answer.
pub fn answer_laws()
    ensures { OneAnswer }
{}
