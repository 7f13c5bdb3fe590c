//! The names of a command's files.

ghost use Rattle.std.specs.Prelude.{◌≡◌};
ghost use Rattle.cgl_words.specs.Meant.{show_words_of, words_of};
ghost use Rattle.cgl_app.specs.Meant.{cut_file, show_file};

use crate::{CutFile, ShowFile};
use cgl_words::{Cut, Show};

/// The name of this file of a cut.
pub fn cut_name<'a>(cut: &Cut<'a>, file: CutFile) -> &'a str
    ensures { result.now ≡ cut_file (words_of cut.now) file }
{
    match file {
        CutFile::Model => cut.model,
        CutFile::Start => cut.start.name(),
        CutFile::Out => cut.out,
        CutFile::Proof => cut.proof,
    }
}

/// The name of this file of a show.
pub fn show_name<'a>(show: &Show<'a>, file: ShowFile) -> &'a str
    ensures { result.now ≡ show_file (show_words_of show.now) file }
{
    match file {
        ShowFile::Model => show.model,
        ShowFile::Out => show.out,
    }
}
