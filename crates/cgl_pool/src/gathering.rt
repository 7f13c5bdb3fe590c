ghost use Rattle.std.specs.Prelude.{◌≡◌, [], ◌∷◌, ◌++◌, option_to_list, IfOk, OnOk};
ghost use Rattle.cgl_pool.specs.Listed.{HaveDistinctKeys, cuts_among, kept_by, listed, wide_by, wides, wides_among};

use crate::sorting::{listing, rising};
use crate::{Gathered, Kept};
use cgl_derive::Answer;
use cgl_gen::Stamped;
use cgl_model::Seq;
use cgl_num::Memory;
use std::alloc::Global;

fn add_cut(cuts: &mut Vec<Kept>, kept: Kept) -> Result<(), Memory>
    ensures { OnOk result (cuts.new.items ≡ cuts.old.items ++ kept ∷ []) }
{
    let Ok(()) = cuts.push(kept) else {
        return Err(Memory);
    };
    Ok(())
}

fn add_key(keys: &mut Vec<(u32, u64)>, key: (u32, u64)) -> Result<(), Memory>
    ensures { OnOk result (keys.new.items ≡ keys.old.items ++ key ∷ []) }
{
    let Ok(()) = keys.push(key) else {
        return Err(Memory);
    };
    Ok(())
}

/// One answer more: a cut goes behind the cuts, and the key of an answer that is too wide behind the keys.
fn add(cuts: &mut Vec<Kept>, wides: &mut Vec<(u32, u64)>, stamped: Stamped) -> Result<(), Memory>
    ensures cuts { OnOk result (cuts.new.items ≡ cuts.old.items ++ option_to_list (kept_by stamped.key stamped.answer)) }
    ensures wides { OnOk result (wides.new.items ≡ wides.old.items ++ option_to_list (wide_by stamped.key stamped.answer)) }
{
    let Stamped { key, answer } = stamped;
    match answer {
        Answer::Nothing => Ok(()),
        Answer::Cut(candidate) => add_cut(cuts, Kept { key, candidate }),
        Answer::Wide => add_key(wides, key),
    }
}

/// The cuts among the answers, and the keys of those that are too wide.
fn parted(alloc: Global, answers: Vec<Stamped>) -> Result<(Vec<Kept>, Vec<(u32, u64)>), Memory>
    ensures cuts { IfOk result (λ parts. parts.0.items ≡ cuts_among answers.items) }
    ensures wides { IfOk result (λ parts. parts.1.items ≡ wides_among answers.items) }
{
    let mut cuts = Vec::new(alloc);
    let mut wides = Vec::new(alloc);
    'answers: for stamped in answers {
        add(&mut cuts, &mut wides, stamped)?;
    }
    Ok((cuts, wides))
}

/// The cuts among the answers, each inequality once under its least key, in the order of inequalities; and the keys of
/// those that were too wide, rising. Both are the same for each order of the answers, whose keys differ.
///
/// # Errors
///
/// `Memory` where memory is refused, and for no other cause.
pub fn gather(alloc: Global, answers: Vec<Stamped>) -> Result<Gathered, Memory>
    requires distinct { HaveDistinctKeys answers.items }
    ensures cuts { IfOk result (λ gathered. gathered.listed ≡ listed answers.items) }
    ensures wide { IfOk result (λ gathered. gathered.wides ≡ wides answers.items) }
{
    let (cuts, wides) = parted(alloc, answers)?;
    Ok(Gathered {
        listed: Seq::from_vec(listing(cuts)),
        wides: Seq::from_vec(rising(wides)),
    })
}
