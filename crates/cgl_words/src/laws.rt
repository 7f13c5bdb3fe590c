//! What words that are written out ask for.

ghost use Rattle.cgl_words.specs.FileNames.{FilesDiffer};
ghost use Rattle.cgl_words.specs.KnownWords.{AreAsked, AreOfNone, of_no_command};

/// What words that are written out ask for, and words that are of no command.
pub fn known_words()
    ensures asked { AreAsked }
    ensures none { AreOfNone of_no_command }
{}

/// The names of a command's files are not empty, and differ from one another.
pub fn file_names()
    ensures { FilesDiffer }
{}
