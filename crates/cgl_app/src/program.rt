ghost use Rattle.std.specs.Prelude.{◌≡◌, map, string_bytes};
ghost use Rattle.cgl_outside.specs.Says.{Says};
ghost use Rattle.cgl_outside.specs.View.{view};
ghost use Rattle.cgl_app.specs.Answered.{Answered};
ghost use Rattle.cgl_app.specs.Refusals.{usage_line};

use crate::cut::run_cut;
use crate::laws::laws_below;
use crate::say::say_usage;
use crate::show::run_show;
use cgl_outside::{Shelf, Sink};
use cgl_words::{Command, command_of};
use std::alloc::Global;

/// Says that the words are of no command, and gives the exit status.
fn run_usage<E: Sink>(err: &mut E) -> u8
    ensures says { Says (E.written err.old) (E.written err.new) (E.faults err.old) (E.faults err.new) usage_line }
    ensures status { result ≡ 2 }
{
    say_usage(err);
    2
}

/// Does what the words behind the program's name ask for, and gives the exit status.
///
/// - `cut MODEL OUT PROOF --point FILE [--gen LIST]` reads the deck MODEL and the point FILE. It writes to OUT the deck
///   with a further row for each cut that is listed for the point, and to PROOF the derivation of each, and puts the
///   report on `out`.
/// - `show MODEL OUT` reads the deck MODEL, writes its canonical text to OUT, and puts the counts of its rows, columns and
///   entries on `out`.
///
/// LIST has words of generators joined by commas, each at most once; `round` is the only one so far, and the one that runs
/// where no list is given. Options and the other words stand in any order; `--x=v` is `--x v`, and behind `--` no word is
/// an option. The names of a command's files are not empty, and differ from one another.
///
/// | Status | Comes where | Line on `err` |
/// |---|---|---|
/// | 0 | the work is done | none |
/// | 2 | the words are of neither form, or of `check` or `upgrade`, which do not work yet | `cgl: bad command line` |
/// | 3 | a read failed, or the file is not there | `cgl: read fault: FILE` |
/// | 4 | a create or an append failed, or a put on `out` | `cgl: write fault: FILE`, or `standard output` for FILE |
/// | 5 | the file is not in form: its first bad line and the kind of its fault | `cgl: input fault: FILE line L kind K` |
/// | 6 | the deck to be written has more than 2^20 rows or 2^22 entries, or a file to be written more than 2^30 bytes | `cgl: too large` |
/// | 7 | memory was refused | `cgl: out of memory` |
///
/// MODEL is read and judged before the point. On 4 the named file is as it was or holds a front of its text, or `out` got
/// a front of its report. What comes before it, in the order OUT, PROOF, `out`, is whole, and what comes behind it is
/// as it was. On each other status above 0 all files are as they were, and `out` got nothing. Only the files that are
/// named to be written ever change. A failed put on `err` changes no status.
///
/// Status 3 says that a read failed in this call or that the named file is not there, and that the files before it in
/// the order were read. It does not tie a read that failed to the named file, where that file is there.
pub fn run<S: Shelf, O: Sink, E: Sink>(
    alloc: Global,
    words: &[String],
    shelf: &mut S,
    out: &mut O,
    err: &mut E,
) -> u8
    ensures { Answered (map string_bytes words.now)
        (view (S.held shelf.old) (S.failed_reads shelf.old) (S.failed_writes shelf.old) (O.written out.old) (O.faults out.old))
        (view (S.held shelf.new) (S.failed_reads shelf.new) (S.failed_writes shelf.new) (O.written out.new) (O.faults out.new))
        (E.written err.old) (E.written err.new) (E.faults err.old) (E.faults err.new) result }
{
    laws_below();
    match command_of(words) {
        None => run_usage(err),
        Some(Command::Cut(cut)) => run_cut(alloc, &cut, shelf, out, err),
        Some(Command::Check(_)) => run_usage(err),
        Some(Command::Show(show)) => run_show(alloc, &show, shelf, out, err),
        Some(Command::Upgrade(_)) => run_usage(err),
    }
}
