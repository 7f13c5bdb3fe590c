//! The line on a derivation that is not accepted, put in pieces, so that it takes no memory.

ghost use Rattle.std.specs.Prelude.{◌≡◌, [], ◌∷◌, ◌++◌, flat_map, map, OnOk, OnErr};
ghost use Rattle.cgl_outside.specs.Says.{Says, joined};
ghost use Rattle.cgl_app.specs.Refusals.{behind_point, branch_text, entry_head, entry_line, entry_number, entry_tail, entry_word, path_text, place_text};
ghost use Rattle.cgl_app.specs.Said.{IsBroken, IsSaid};

use cgl_check::{BookRefusal, Branch, EntryPlace};
use cgl_outside::{Failed, Sink};
use itoa::Buffer;

/// Puts pieces one after another, and stops at the first put that fails.
fn put_all<E: Sink>(err: &mut E, pieces: &[&[u8]]) -> Result<(), Failed>
    ensures ok { OnOk result (IsSaid (E.written err.old) (E.written err.new) (E.faults err.old) (E.faults err.new) (joined (map (λ piece. piece.now) pieces.now))) }
    ensures err { OnErr result (IsBroken (E.written err.old) (E.written err.new) (E.faults err.old) (E.faults err.new) (joined (map (λ piece. piece.now) pieces.now))) }
{
    'pieces: for piece in pieces {
        let Ok(()) = err.put(piece) else {
            return Err(Failed);
        };
    }
    Ok(())
}

fn branch_letter(branch: Option<Branch>) -> &'static [u8]
    ensures { result.now ≡ branch_text branch }
{
    match branch {
        None => b"",
        Some(Branch::Left) => b"l",
        Some(Branch::Right) => b"r",
    }
}

fn put_three<'x, E: Sink>(
    err: &mut E,
    first: &'x [u8],
    second: &'x [u8],
    third: &'x [u8],
) -> Result<(), Failed>
    ensures ok { OnOk result (IsSaid (E.written err.old) (E.written err.new) (E.faults err.old) (E.faults err.new) (joined (first.now ∷ second.now ∷ third.now ∷ []))) }
    ensures err { OnErr result (IsBroken (E.written err.old) (E.written err.new) (E.faults err.old) (E.faults err.new) (joined (first.now ∷ second.now ∷ third.now ∷ []))) }
{
    put_all(err, &[first, second, third])
}

/// Puts one place of a path behind this front.
fn put_place<E: Sink>(err: &mut E, front: &[u8], place: (u64, Option<Branch>)) -> Result<(), Failed>
    ensures ok { OnOk result (IsSaid (E.written err.old) (E.written err.new) (E.faults err.old) (E.faults err.new) (front.now ++ place_text place)) }
    ensures err { OnErr result (IsBroken (E.written err.old) (E.written err.new) (E.faults err.old) (E.faults err.new) (front.now ++ place_text place)) }
{
    let mut buffer = Buffer::new();
    put_three(
        err,
        front,
        buffer.format(place.0).as_bytes(),
        branch_letter(place.1),
    )
}

/// Puts the further places of a path, each behind a point.
fn put_places<E: Sink>(err: &mut E, places: &[(u64, Option<Branch>)]) -> Result<(), Failed>
    ensures ok { OnOk result (IsSaid (E.written err.old) (E.written err.new) (E.faults err.old) (E.faults err.new) (flat_map behind_point places.now)) }
    ensures err { OnErr result (IsBroken (E.written err.old) (E.written err.new) (E.faults err.old) (E.faults err.new) (flat_map behind_point places.now)) }
{
    'places: for place in places {
        let Ok(()) = put_place(err, b".", *place) else {
            return Err(Failed);
        };
    }
    Ok(())
}

fn put_path<E: Sink>(err: &mut E, path: &[(u64, Option<Branch>)]) -> Result<(), Failed>
    ensures ok { OnOk result (IsSaid (E.written err.old) (E.written err.new) (E.faults err.old) (E.faults err.new) (path_text path.now)) }
    ensures err { OnErr result (IsBroken (E.written err.old) (E.written err.new) (E.faults err.old) (E.faults err.new) (path_text path.now)) }
{
    let Some((first, rest)) = path.split_first() else {
        return put_all(err, &[b"-"]);
    };
    let Ok(()) = put_place(err, b"", *first) else {
        return Err(Failed);
    };
    put_places(err, rest)
}

fn entry_word(place: EntryPlace) -> &'static [u8]
    ensures { result.now ≡ entry_word place }
{
    match place {
        EntryPlace::Shared(_) => b"lemma ",
        EntryPlace::Cut(_) => b"cut ",
    }
}

/// The number of the entry, from 1.
fn entry_number(place: EntryPlace) -> u128
    ensures { result ≡ entry_number place }
{
    match place {
        EntryPlace::Shared(k) | EntryPlace::Cut(k) => k as u128 + 1,
    }
}

/// Puts what stands in front of the path.
#[tactic(auto, unfolding(crate::specs::Refusals::entry_head))]
fn put_head<E: Sink>(err: &mut E, place: EntryPlace) -> Result<(), Failed>
    ensures ok { OnOk result (IsSaid (E.written err.old) (E.written err.new) (E.faults err.old) (E.faults err.new) (entry_head place)) }
    ensures err { OnErr result (IsBroken (E.written err.old) (E.written err.new) (E.faults err.old) (E.faults err.new) (entry_head place)) }
{
    let mut buffer = Buffer::new();
    put_all(
        err,
        &[
            b"cgl: not accepted: ",
            entry_word(place),
            buffer.format(entry_number(place)).as_bytes(),
            b" path ",
        ],
    )
}

/// Puts what stands behind the path.
#[tactic(auto, unfolding(crate::specs::Refusals::entry_tail))]
fn put_tail<E: Sink>(err: &mut E, why: u8) -> Result<(), Failed>
    ensures ok { OnOk result (IsSaid (E.written err.old) (E.written err.new) (E.faults err.old) (E.faults err.new) (entry_tail why)) }
    ensures err { OnErr result (IsBroken (E.written err.old) (E.written err.new) (E.faults err.old) (E.faults err.new) (entry_tail why)) }
{
    let mut buffer = Buffer::new();
    put_all(err, &[b" why ", buffer.format(why).as_bytes(), b"\n"])
}

fn put_entry<E: Sink>(err: &mut E, refusal: &BookRefusal) -> Result<(), Failed>
    ensures ok { OnOk result (IsSaid (E.written err.old) (E.written err.new) (E.faults err.old) (E.faults err.new) (entry_line refusal.now)) }
    ensures err { OnErr result (IsBroken (E.written err.old) (E.written err.new) (E.faults err.old) (E.faults err.new) (entry_line refusal.now)) }
{
    let Ok(()) = put_head(err, refusal.entry) else {
        return Err(Failed);
    };
    let Ok(()) = put_path(err, refusal.reject.path.as_slice()) else {
        return Err(Failed);
    };
    put_tail(err, refusal.reject.why)
}

/// Says which derivation is not accepted, where it fails first, and why.
pub fn say_entry<E: Sink>(err: &mut E, refusal: &BookRefusal)
    ensures { Says (E.written err.old) (E.written err.new) (E.faults err.old) (E.faults err.new) (entry_line refusal.now) }
{
    match put_entry(err, refusal) {
        Ok(()) => (),
        Err(_) => (),
    }
}
