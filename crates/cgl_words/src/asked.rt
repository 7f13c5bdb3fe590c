ghost use Rattle.std.specs.Prelude.{◌≡◌, Some, option_map, map, string_bytes};
ghost use Rattle.cgl_words.specs.CommandLine.{start_name, is_name, are_two, are_three, are_four, with_one, with_each, parts, chosen, cut_of, check_of, show_of, upgrade_of, asked, command_of};
ghost use Rattle.cgl_words.specs.Meant.{start_of, chosen_of, maybe, reading_of, meant};

use crate::option::first_part;
use crate::reading::{Reading, Turn};

/// The file that says where the columns stand.
#[derive(Clone, Copy)]
pub enum Start<'a> {
    /// A point file.
    Point(&'a str),
}

impl<'a> Start<'a> {
    /// The name of the file.
    pub fn name(self) -> &'a str
        ensures { result.now ≡ start_name (start_of self.entry) }
    {
        match self {
            Start::Point(name) => name,
        }
    }
}

/// The generators that are to be run.
#[derive(Clone, Copy)]
pub struct Generators {
    pub round: bool,
}

impl Generators {
    /// With one more, by its word.
    #[tactic(auto, unfolding(crate::specs::CommandLine::with_one))]
    fn with_one(self, word: &str) -> Option<Generators>
        ensures { option_map chosen_of result ≡ with_one (chosen_of self) word.now }
    {
        if word == "round" && !self.round {
            Some(Generators { round: true })
        } else {
            None
        }
    }

    /// With each of a list.
    fn with_each(self, list: &str) -> Option<Generators>
        ensures { option_map chosen_of result ≡ with_each (Some (chosen_of self)) (parts list.now) }
    {
        let (word, rest) = first_part(list);
        let chosen = self.with_one(word)?;
        match rest {
            None => Some(chosen),
            Some(rest) => chosen.with_each(rest),
        }
    }
}

/// The files that a cut is of, and what makes the cuts.
#[derive(Clone, Copy)]
pub struct Cut<'a> {
    pub model: &'a str,
    pub out: &'a str,
    pub proof: &'a str,
    pub start: Start<'a>,
    pub generators: Generators,
}

/// The files that a check is of.
#[derive(Clone, Copy)]
pub struct Check<'a> {
    pub model: &'a str,
    pub out: &'a str,
    pub proof: &'a str,
}

/// The files that a show is of.
#[derive(Clone, Copy)]
pub struct Show<'a> {
    pub model: &'a str,
    pub out: &'a str,
}

/// The files that an upgrade is of.
#[derive(Clone, Copy)]
pub struct Upgrade<'a> {
    pub proof: &'a str,
    pub renewed: &'a str,
}

/// What the words ask for.
#[derive(Clone, Copy)]
pub enum Command<'a> {
    Cut(Cut<'a>),
    Check(Check<'a>),
    Show(Show<'a>),
    Upgrade(Upgrade<'a>),
}

fn is_name(word: &str) -> bool
    ensures { result ≡ is_name word.now }
{
    !word.is_empty()
}

#[tactic(auto, unfolding(crate::specs::CommandLine::are_two))]
fn are_two(a: &str, b: &str) -> bool
    ensures { result ≡ are_two a.now b.now }
{
    is_name(a) && is_name(b) && a != b
}

#[tactic(auto, unfolding(crate::specs::CommandLine::are_three))]
fn are_three(a: &str, b: &str, c: &str) -> bool
    ensures { result ≡ are_three a.now b.now c.now }
{
    are_two(a, b) && is_name(c) && a != c && b != c
}

#[tactic(auto, unfolding(crate::specs::CommandLine::are_four))]
fn are_four(a: &str, b: &str, c: &str, d: &str) -> bool
    ensures { result ≡ are_four a.now b.now c.now d.now }
{
    are_three(a, b, c) && is_name(d) && a != d && b != d && c != d
}

/// The generators that a list names, or all that are built.
fn chosen(list: Option<&str>) -> Option<Generators>
    ensures { option_map chosen_of result ≡ chosen (maybe list.entry) }
{
    match list {
        None => Some(Generators { round: true }),
        Some(list) => Generators { round: false }.with_each(list),
    }
}

/// `cut MODEL OUT PROOF --point FILE [--gen LIST]`
#[tactic(auto, unfolding(crate::specs::CommandLine::cut_of))]
fn cut_of<'a>(reading: &Reading<'a>) -> Option<Command<'a>>
    ensures { option_map meant result ≡ cut_of (reading_of reading.now) }
{
    let model = reading.first?;
    let out = reading.second?;
    let proof = reading.third?;
    let point = reading.point?;
    let generators = chosen(reading.generators)?;
    if !are_four(model, out, proof, point) {
        return None;
    }
    Some(Command::Cut(Cut {
        model,
        out,
        proof,
        start: Start::Point(point),
        generators,
    }))
}

/// `check MODEL OUT PROOF`
#[tactic(auto, unfolding(crate::specs::CommandLine::check_of))]
fn check_of<'a>(reading: &Reading<'a>) -> Option<Command<'a>>
    ensures { option_map meant result ≡ check_of (reading_of reading.now) }
{
    let model = reading.first?;
    let out = reading.second?;
    let proof = reading.third?;
    if reading.point.is_some() || reading.generators.is_some() || !are_three(model, out, proof) {
        return None;
    }
    Some(Command::Check(Check { model, out, proof }))
}

/// `show MODEL OUT`
#[tactic(auto, unfolding(crate::specs::CommandLine::show_of))]
fn show_of<'a>(reading: &Reading<'a>) -> Option<Command<'a>>
    ensures { option_map meant result ≡ show_of (reading_of reading.now) }
{
    let model = reading.first?;
    let out = reading.second?;
    if reading.third.is_some()
        || reading.point.is_some()
        || reading.generators.is_some()
        || !are_two(model, out)
    {
        return None;
    }
    Some(Command::Show(Show { model, out }))
}

/// `upgrade PROOF NEW`
#[tactic(auto, unfolding(crate::specs::CommandLine::upgrade_of))]
fn upgrade_of<'a>(reading: &Reading<'a>) -> Option<Command<'a>>
    ensures { option_map meant result ≡ upgrade_of (reading_of reading.now) }
{
    let proof = reading.first?;
    let renewed = reading.second?;
    if reading.third.is_some()
        || reading.point.is_some()
        || reading.generators.is_some()
        || !are_two(proof, renewed)
    {
        return None;
    }
    Some(Command::Upgrade(Upgrade { proof, renewed }))
}

#[tactic(auto, unfolding(crate::specs::CommandLine::asked))]
fn asked<'a>(command: &str, reading: &Reading<'a>) -> Option<Command<'a>>
    ensures { option_map meant result ≡ asked command.now (reading_of reading.now) }
{
    match command {
        "cut" => cut_of(reading),
        "check" => check_of(reading),
        "show" => show_of(reading),
        "upgrade" => upgrade_of(reading),
        _ => None,
    }
}

/// What the words ask for, or nothing where they are no command.
pub fn command_of(words: &[String]) -> Option<Command<'_>>
    ensures { option_map meant result ≡ command_of (map string_bytes words.now) }
{
    let [command, rest @ ..] = words else {
        return None;
    };
    let reading = Reading::nothing().read(rest)?;
    match reading.turn {
        Turn::ValueOf(_) => None,
        _ => asked(command, &reading),
    }
}
