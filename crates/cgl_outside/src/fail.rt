//! The faults that a test lists for a shelf in memory.
ghost use Rattle.std.specs.Prelude.{◌≡◌, ◌+◌, ℕ, None, Some, take};
ghost use Rattle.cgl_outside.specs.Fails.{listed_keep};
ghost use Rattle.cgl_outside.specs.Shelf.{risen};

/// A kind of call of a shelf: `read_at`, `create` or `append`.
#[derive(Clone, Copy, Debug, PartialEq, Eq)]
pub enum Call {
    Read,
    Create,
    Append,
}

/// A fault of a shelf in memory: the `nth` call of a kind fails, counted from 1 over every call of
/// that kind since the shelf was made. An append keeps the first `keep` of its bytes, or all of them
/// where there are fewer.
#[derive(Clone, Copy, Debug, PartialEq, Eq)]
pub struct Fail {
    pub call: Call,
    pub nth: u64,
    pub keep: u64,
}

/// Counts a call. Where it is listed, gives how many bytes the first entry for it keeps.
pub(crate) fn begin(fails: &[Fail], call: Call, calls: &mut u64) -> Option<u64>
    ensures listed { result ≡ listed_keep fails.now call (calls.old + 1) }
    ensures call { calls.new ≡ risen calls.old }
{
    let earlier = *calls;
    *calls = calls.saturating_add(1);
    for fail in fails {
        if fail.call == call && fail.nth > 0 && fail.nth - 1 == earlier {
            return Some(fail.keep);
        }
    }
    None
}

/// The bytes of a piece that a call takes: all, or the front that is kept where it is to fail.
pub(crate) fn kept(bytes: &[u8], fault: Option<u64>) -> &[u8]
    ensures all { fault ≡ None → result.now ≡ bytes.now }
    ensures front { (keep : ℕ) → fault ≡ Some keep → result.now ≡ take keep bytes.now }
{
    match fault {
        None => bytes,
        Some(keep) => &bytes[..keep.min(bytes.len() as u64) as usize],
    }
}
