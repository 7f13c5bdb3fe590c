//! How many pairs some fields are.

ghost use Rattle.std.specs.Prelude.{◌≡◌, ◌<◌, ◌^◌, length};
ghost use Rattle.cgl_decode.specs.Sections.{pairs_of};
ghost use Rattle.cgl_text.specs.Seen.{words};

/// The count of pairs in the fields.
#[tactic(auto, using(cgl_decode::proofs::CountLaws::pair_count))]
pub(crate) fn pair_count(fields: &[&[u8]]) -> usize
    ensures count { result ≡ length (pairs_of (words fields.now)) }
    ensures below { result < 2 ^ 63 }
{
    fields.len() / 2
}
