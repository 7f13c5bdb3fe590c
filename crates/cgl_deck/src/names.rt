ghost use Rattle.std.specs.Prelude.{◌≡◌, ◌<◌, [], ◌∷◌, ◌++◌, filter, map, not, IfOk, OnErr, OnOk};
ghost use Rattle.cgl_text.specs.Text.{is_one_of};
ghost use Rattle.cgl_deck.specs.CutNames.{cut_name, cut_names};

use cgl_model::{Model, Name, Row, Seq};
use cgl_num::Memory;
use cgl_text::Names;
use itoa::Buffer;
use std::alloc::Global;

/// A copy of a name.
pub(crate) fn copied_name(alloc: Global, name: &[u8]) -> Result<Name, Memory>
    ensures { IfOk result (λ copy. copy ≡ name.now) }
{
    let Ok(bytes) = Vec::from_slice(alloc, name) else {
        return Err(Memory);
    };
    Ok(Seq::from_vec(bytes))
}

fn cut_name(alloc: Global, number: u64) -> Result<Name, Memory>
    ensures { IfOk result (λ name. name ≡ cut_name number) }
{
    let Ok(mut bytes) = Vec::from_slice(alloc, b"CUT") else {
        return Err(Memory);
    };
    let mut buffer = Buffer::new();
    let Ok(()) = bytes.extend_from_slice(buffer.format(number).as_bytes()) else {
        return Err(Memory);
    };
    Ok(Seq::from_vec(bytes))
}

/// The names of the rows.
fn row_names<'a>(alloc: Global, rows: &'a [Row]) -> Result<Names<'a>, Memory>
    ensures { IfOk result (λ names. names ≡ map (λ r. r.name) rows.now) }
{
    let mut names = Names::new(alloc);
    for row in rows {
        names.push(row.name.as_slice())?;
    }
    Ok(names)
}

/// Adds the cut's name of this number where it is not used.
fn add_unused(
    alloc: Global,
    names: &mut Seq<Name>,
    used: &Names<'_>,
    number: u64,
) -> Result<(), Memory>
    ensures { OnOk result (names.new ≡ names.old ++ filter (λ name. not (is_one_of used.now name)) (cut_name number ∷ [])) }
{
    let name = cut_name(alloc, number)?;
    if used.has(name.as_slice()) {
        return Ok(());
    }
    names.push(name)
}

/// The first n of CUT1, CUT2, .. that are no row's name, in rising order.
///
/// # Errors
///
/// `Memory` for want of memory, and never where n is 0.
pub fn cut_names(alloc: Global, model: &Model, n: u32) -> Result<Seq<Name>, Memory>
    ensures names { IfOk result (λ names. names ≡ cut_names model.now n) }
    ensures memory { OnErr result (0 < n) }
{
    let mut names = Seq::new(alloc);
    if n == 0 {
        return Ok(names);
    }
    let rows = model.rows.as_slice();
    let used = row_names(alloc, rows)?;
    let last = rows.len() as u64 + n as u64;
    for number in 0..last {
        if names.as_slice().len() == n as usize {
            break;
        }
        add_unused(alloc, &mut names, &used, number + 1)?;
    }
    Ok(names)
}
