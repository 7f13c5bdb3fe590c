ghost use Rattle.std.specs.Prelude.{◌≡◌, ◌∷◌, [], map, codes, decimal};
ghost use Rattle.std.specs.Fmt.{signed_decimal};
ghost use Rattle.cgl_outside.specs.Says.{Says, joined};
ghost use Rattle.cgl_app.specs.Refusals.{cause_line, column_name, line_of, row_name, spot_front, spot_word, unaccepted_line, usage_line};

use crate::Refusal;
use crate::refusal::{Cause, Spot, Unaccepted};
use crate::say_entry::say_entry;
use cgl_model::{Model, Var};
use cgl_outside::Sink;
use itoa::Buffer;

/// Puts pieces one after another, and stops at the first put that fails.
fn say<E: Sink>(err: &mut E, pieces: &[&[u8]])
    ensures { Says (E.written err.old) (E.written err.new) (E.faults err.old) (E.faults err.new) (joined (map (λ piece. piece.now) pieces.now)) }
{
    'pieces: for piece in pieces {
        let Ok(()) = err.put(piece) else {
            return;
        };
    }
}

pub fn say_usage<E: Sink>(err: &mut E)
    ensures { Says (E.written err.old) (E.written err.new) (E.faults err.old) (E.faults err.new) usage_line }
{
    say(err, &[b"cgl: bad command line\n"]);
}

/// Says what went wrong, and the name of what it went wrong with.
fn say_fault<E: Sink>(err: &mut E, what: &[u8], name: &[u8])
    ensures { Says (E.written err.old) (E.written err.new) (E.faults err.old) (E.faults err.new) (joined (what.now ∷ name.now ∷ codes "\n" ∷ [])) }
{
    say(err, &[what, name, b"\n"]);
}

/// Says where a file is not in form.
fn say_input<E: Sink>(err: &mut E, name: &str, line: u64, kind: u8)
    ensures { Says (E.written err.old) (E.written err.new) (E.faults err.old) (E.faults err.new)
        (joined (codes "cgl: input fault: " ∷ name.now ∷ codes " line " ∷ decimal line ∷ codes " kind " ∷ decimal kind ∷ codes "\n" ∷ [])) }
{
    let mut lines = Buffer::new();
    let mut kinds = Buffer::new();
    say(
        err,
        &[
            b"cgl: input fault: ",
            name.as_bytes(),
            b" line ",
            lines.format(line).as_bytes(),
            b" kind ",
            kinds.format(kind).as_bytes(),
            b"\n",
        ],
    );
}

// ---- rows and columns by their names

/// An empty name where there is no such row.
fn row_name(model: &Model, row: u32) -> &[u8]
    ensures { result.now ≡ row_name model.now row }
{
    match model.rows.as_slice().get(row as usize) {
        Some(row) => row.name.as_slice(),
        None => &[],
    }
}

/// An empty name where there is no such column.
fn column_name(model: &Model, column: u32) -> &[u8]
    ensures { result.now ≡ column_name model.now column }
{
    match model.cols.as_slice().get(column as usize) {
        Some(column) => column.name.as_slice(),
        None => &[],
    }
}

/// What stands in front of the name of a place.
fn spot_front(spot: Spot) -> &'static [u8]
    ensures { result.now ≡ spot_front spot }
{
    match spot {
        Spot::Of(Var::Slack(_)) => b"slack ",
        Spot::Of(Var::Col(_)) | Spot::Rhs => b"",
    }
}

/// The name of a place: that of its column or row, or a word for the right side.
fn spot_word(model: &Model, spot: Spot) -> &[u8]
    ensures { result.now ≡ spot_word model.now spot }
{
    match spot {
        Spot::Of(Var::Col(column)) => column_name(model, column),
        Spot::Of(Var::Slack(row)) => row_name(model, row),
        Spot::Rhs => b"rhs",
    }
}

/// The digits of a number, with its sign.
fn digits(buffer: &mut Buffer, number: i128) -> &[u8]
    ensures { result.now ≡ signed_decimal number }
{
    buffer.format(number).as_bytes()
}

/// Says at which step of which row two numbers do not fit, and where they stand.
fn say_overflow<'x, E: Sink>(
    err: &mut E,
    step: u32,
    row: &'x [u8],
    front: &'x [u8],
    word: &'x [u8],
    left: &'x [u8],
    right: &'x [u8],
)
    ensures { Says (E.written err.old) (E.written err.new) (E.faults err.old) (E.faults err.new)
        (joined (codes "cgl: overflow: step " ∷ decimal step ∷ codes " row " ∷ row.now ∷ codes " column " ∷ front.now ∷ word.now
        ∷ codes " left " ∷ left.now ∷ codes " right " ∷ right.now ∷ codes "\n" ∷ [])) }
{
    let mut steps = Buffer::new();
    say(
        err,
        &[
            b"cgl: overflow: step ",
            steps.format(step).as_bytes(),
            b" row ",
            row,
            b" column ",
            front,
            word,
            b" left ",
            left,
            b" right ",
            right,
            b"\n",
        ],
    );
}

/// Tells a cause by the names that its row and column have in the model.
fn say_cause<E: Sink>(err: &mut E, model: &Model, cause: Cause)
    ensures { Says (E.written err.old) (E.written err.new) (E.faults err.old) (E.faults err.new) (cause_line model.now cause) }
{
    match cause {
        Cause::Singular { column } => say_fault(
            err,
            b"cgl: singular: column ",
            column_name(model, column),
        ),
        Cause::Scale { row } => say_fault(err, b"cgl: scale: row ", row_name(model, row)),
        Cause::TooFine { column } => say_fault(
            err,
            b"cgl: too fine: column ",
            column_name(model, column),
        ),
        Cause::Overflow {
            step,
            row,
            column,
            left,
            right,
        } => {
            let mut lefts = Buffer::new();
            let mut rights = Buffer::new();
            say_overflow(
                err,
                step,
                row_name(model, row),
                spot_front(column),
                spot_word(model, column),
                digits(&mut lefts, left),
                digits(&mut rights, right),
            )
        }
    }
}

/// Says what is not accepted.
fn say_unaccepted<E: Sink>(err: &mut E, unaccepted: &Unaccepted)
    ensures { Says (E.written err.old) (E.written err.new) (E.faults err.old) (E.faults err.new) (unaccepted_line unaccepted.now) }
{
    match unaccepted {
        Unaccepted::Deck => say(err, &[b"cgl: not accepted: deck\n"]),
        Unaccepted::Entry(refusal) => say_entry(err, refusal),
    }
}

/// Tells why a command did not do its work, where the file that it is about has this name.
pub fn say_why<E: Sink, F: Copy>(err: &mut E, refusal: &Refusal<F>, name: &str)
    ensures { Says (E.written err.old) (E.written err.new) (E.faults err.old) (E.faults err.new) (line_of name.now refusal.now) }
{
    match refusal {
        Refusal::ReadFault(_) => say_fault(err, b"cgl: read fault: ", name.as_bytes()),
        Refusal::WriteFault(_) => say_fault(err, b"cgl: write fault: ", name.as_bytes()),
        Refusal::OutputFault => say_fault(err, b"cgl: write fault: ", b"standard output"),
        Refusal::Input { line, kind, .. } => say_input(err, name, *line, *kind),
        Refusal::Named { cause, model } => say_cause(err, model, *cause),
        Refusal::NotAccepted(unaccepted) => say_unaccepted(err, unaccepted),
        Refusal::TooLarge => say(err, &[b"cgl: too large\n"]),
        Refusal::Memory => say(err, &[b"cgl: out of memory\n"]),
    }
}
