//! Numbers and bounds in the fields of a deck.

ghost use Rattle.std.specs.Prelude.{◌≡◌, [], option_map, unwrap_or};
ghost use Rattle.cgl_num.specs.NumberText.{limit, number};
ghost use Rattle.cgl_text.specs.Seen.{word};

use cgl_num::{Dec, Limit};

/// The number that the text means, where it is one within the limits.
pub(crate) fn number(text: &[u8]) -> Option<Dec>
    ensures { result ≡ number text.now }
{
    Dec::read(text).ok()
}

/// The bound's value that the text means, where it is one. No text means what an empty one does.
pub(crate) fn limit_of(text: Option<&[u8]>) -> Option<Limit>
    ensures { result ≡ limit (unwrap_or (option_map word text.entry) []) }
{
    Dec::read_bound(text.unwrap_or(&[])).ok()
}
