ghost use Rattle.std.specs.Prelude.{◌≡◌, Some, option_map, map, string_bytes};
ghost use Rattle.cgl_words.specs.CommandLine.{placed, used, opened, step, read, nothing};
ghost use Rattle.cgl_words.specs.Meant.{known_of, reading_of};

use crate::option::{Known, halves, is_dashed, option_named};

/// What the next word may be.
#[derive(Clone, Copy)]
pub enum Turn {
    Any,
    ValueOf(Known),
    OnlyPlaces,
}

/// What was read so far.
#[derive(Clone, Copy)]
pub struct Reading<'a> {
    pub turn: Turn,
    pub first: Option<&'a str>,
    pub second: Option<&'a str>,
    pub third: Option<&'a str>,
    pub point: Option<&'a str>,
    pub generators: Option<&'a str>,
}

impl<'a> Reading<'a> {
    pub fn nothing() -> Reading<'a>
        ensures { reading_of result ≡ nothing }
    {
        Reading {
            turn: Turn::Any,
            first: None,
            second: None,
            third: None,
            point: None,
            generators: None,
        }
    }

    /// With one more positional word.
    #[tactic(auto, unfolding(crate::specs::CommandLine::placed))]
    fn placed(self, word: &'a str) -> Option<Reading<'a>>
        ensures { option_map reading_of result ≡ placed (reading_of self.entry) word.now }
    {
        match (self.first, self.second, self.third) {
            (None, _, _) => Some(Reading {
                first: Some(word),
                ..self
            }),
            (_, None, _) => Some(Reading {
                second: Some(word),
                ..self
            }),
            (_, _, None) => Some(Reading {
                third: Some(word),
                ..self
            }),
            _ => None,
        }
    }

    /// With the value of an option that has none yet.
    #[tactic(auto, unfolding(crate::specs::CommandLine::used))]
    fn used(self, option: Known, value: &'a str) -> Option<Reading<'a>>
        ensures { option_map reading_of result ≡ used (reading_of self.entry) (known_of option) value.now }
    {
        match option {
            Known::Point => match self.point {
                Some(_) => None,
                None => Some(Reading {
                    turn: Turn::Any,
                    point: Some(value),
                    ..self
                }),
            },
            Known::Generators => match self.generators {
                Some(_) => None,
                None => Some(Reading {
                    turn: Turn::Any,
                    generators: Some(value),
                    ..self
                }),
            },
        }
    }

    /// With the option of this word, and with its value where it is attached.
    #[tactic(auto, unfolding(crate::specs::CommandLine::opened))]
    fn opened(self, word: &'a str) -> Option<Reading<'a>>
        ensures { option_map reading_of result ≡ opened (reading_of self.entry) word.now }
    {
        let (name, attached) = halves(word, '=');
        let option = option_named(name)?;
        match attached {
            Some(value) => self.used(option, value),
            None => Some(Reading {
                turn: Turn::ValueOf(option),
                ..self
            }),
        }
    }

    /// With one more word.
    #[tactic(auto, unfolding(crate::specs::CommandLine::step))]
    fn step(self, word: &'a str) -> Option<Reading<'a>>
        ensures { option_map reading_of result ≡ step (reading_of self.entry) word.now }
    {
        match self.turn {
            Turn::OnlyPlaces => self.placed(word),
            Turn::ValueOf(option) => {
                if is_dashed(word) {
                    None
                } else {
                    self.used(option, word)
                }
            }
            Turn::Any => {
                if word == "--" {
                    Some(Reading {
                        turn: Turn::OnlyPlaces,
                        ..self
                    })
                } else if is_dashed(word) {
                    self.opened(word)
                } else {
                    self.placed(word)
                }
            }
        }
    }

    /// With all of these words.
    pub fn read(self, words: &'a [String]) -> Option<Reading<'a>>
        ensures { option_map reading_of result ≡ read (Some (reading_of self.entry)) (map string_bytes words.now) }
    {
        match words {
            [] => Some(self),
            [word, rest @ ..] => self.step(word)?.read(rest),
        }
    }
}
