//! What known lines say.

ghost use Rattle.cgl_prooftext.specs.KnownLines.{KnownFaults, KnownLines};

/// Lines of each kind; and lines that are not of the form, or have a number that is too large.
pub fn known_lines()
    ensures lines { KnownLines }
    ensures faults { KnownFaults }
{}
