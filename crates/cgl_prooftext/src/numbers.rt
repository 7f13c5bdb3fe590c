ghost use Rattle.std.specs.Prelude.{◌≡◌, IfNone, IfSome, false, true, option_map, pos};
ghost use Rattle.std.specs.List.{list_all};
ghost use Rattle.cgl_num.specs.NumberText.{is_digit, natural};
ghost use Rattle.cgl_prooftext.specs.LineResult.{fits_integer, integer_in, natural_in, negative_in};
ghost use Rattle.cgl_prooftext.specs.Readings.{fitting};
ghost use Rattle.cgl_prooftext.specs.Sizes.{fitting_number, near};

const NUMBER_END: u128 = 4_294_967_296;

const INTEGER_END: u128 = 170_141_183_460_469_231_731_687_303_715_884_105_728;

/// The number of digits, or the largest of the type where it is larger.
pub(crate) fn digits(text: &[u8]) -> Option<u128>
    ensures none { IfNone result (list_all is_digit text.now ≡ false) }
    ensures some { IfSome result (λ n. (list_all is_digit text.now ≡ true) × (n ≡ near (natural text.now))) }
{
    let mut number = 0u128;
    'digits: for byte in text {
        if !byte.is_ascii_digit() {
            return None;
        }
        number = number
            .saturating_mul(10)
            .saturating_add((*byte - b'0') as u128);
    }
    Some(number)
}

/// The number of digits with no zero before others, or the largest of the type where it is larger.
pub(crate) fn natural(text: &[u8]) -> Option<u128>
    ensures { result ≡ option_map near (natural_in text.now) }
{
    match text {
        [] | [b'0', _, ..] => None,
        _ => digits(text),
    }
}

/// A count, a column, or the number of a reference: the inner one is none where it is too large.
pub(crate) fn number(text: &[u8]) -> Option<Option<u32>>
    ensures { result ≡ option_map fitting_number (natural_in text.now) }
{
    let Some(n) = natural(text) else {
        return None;
    };
    if n >= NUMBER_END {
        return Some(None);
    }
    Some(Some(n as u32))
}

/// A number that has no sign: the inner one is none where it is too large.
fn positive(text: &[u8]) -> Option<Option<i128>>
    ensures { result ≡ option_map (λ n. fitting fits_integer (pos n)) (natural_in text.now) }
{
    let Some(n) = natural(text) else {
        return None;
    };
    if n >= INTEGER_END {
        return Some(None);
    }
    Some(Some(n as i128))
}

/// What stands behind a minus: the inner one is none where it is too large.
fn negative(text: &[u8]) -> Option<Option<i128>>
    ensures { result ≡ option_map (fitting fits_integer) (negative_in text.now) }
{
    let Some(n) = natural(text) else {
        return None;
    };
    if n == 0 {
        return None;
    }
    if n >= INTEGER_END {
        return Some(None);
    }
    Some(Some(-(n as i128)))
}

/// A coefficient, a right side or a multiplier: the inner one is none where it is too large.
pub(crate) fn integer(text: &[u8]) -> Option<Option<i128>>
    ensures { result ≡ option_map (fitting fits_integer) (integer_in text.now) }
{
    match text {
        [b'-', behind @ ..] => negative(behind),
        _ => positive(text),
    }
}
