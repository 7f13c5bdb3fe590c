ghost use Rattle.std.specs.Prelude.{◌≡◌, ◌<◌, [], ◌∷◌, IfNone, IfSome, length, option_map};
ghost use Rattle.cgl_words.specs.CommandLine.{is_dashed, known, halves, parts};
ghost use Rattle.cgl_words.specs.Meant.{known_of, maybe};

/// The options that a command may have.
#[derive(Clone, Copy)]
pub enum Known {
    Point,
    Generators,
}

pub fn is_dashed(word: &str) -> bool
    ensures { result ≡ is_dashed word.now }
{
    word.len() > 1 && word.starts_with('-')
}

#[tactic(auto, unfolding(crate::specs::CommandLine::known))]
pub fn option_named(name: &str) -> Option<Known>
    ensures { option_map known_of result ≡ known name.now }
{
    match name {
        "--point" => Some(Known::Point),
        "--gen" => Some(Known::Generators),
        _ => None,
    }
}

/// What stands before the first `at`, and what stands behind it.
pub fn halves(text: &str, at: char) -> (&str, Option<&str>)
    requires { at < 128 }
    ensures front { result.0.now ≡ (halves at text.now).front }
    ensures back { maybe result.1 ≡ (halves at text.now).back }
{
    match text.split_once(at) {
        Some((front, back)) => (front, Some(back)),
        None => (text, None),
    }
}

/// The first word of a list, and what stands behind its comma.
pub fn first_part(list: &str) -> (&str, Option<&str>)
    ensures one { IfNone result.1 (parts list.now ≡ result.0.now ∷ []) }
    ensures more { IfSome result.1 (λ rest. parts list.now ≡ result.0.now ∷ parts rest.now) }
    ensures shorter { IfSome result.1 (λ rest. length rest.now < length list.now) }
{
    match list.split_once(',') {
        Some((word, rest)) => (word, Some(rest)),
        None => (list, None),
    }
}
