// What the words of the command line ask for.
ghost use Rattle.std.specs.Prelude.{◌≡◌, fold};
ghost use Rattle.std.specs.Option.{option_map};
ghost use Rattle.eft_top.specs.Words.{AskFor, IsAsked, texts, is_option as is_option_word};
ghost use Rattle.eft_top.specs.Reading.{asked as asked_of, at_stage, command_of, asked_command, run_of, plain_text as plain_text_of, cards_of as cards_of_text, listing_of as listing_of_text, deck_of, named_of, text_in, wanted_of, language_of as language_in, operands as operands_of, read as read_word, reading_of, start, with_count as with_counting, with_operand as with_operand_word, with_steps as with_number, with_word as with_open_word};

use crate::numbers::steps_in;
use ground::Dialect;

/// The limit of steps where none is given.
const USUAL_STEPS: u64 = 10_000_000;

/// What the words ask for.
#[derive(Clone, Copy)]
pub enum Asked<'a> {
    /// A run of the text in a file, of which at most so many statements begin, and whether its counts are shown.
    Run(u64, bool, Dialect, &'a str),
    /// The deck of the text in a file.
    Cards(Dialect, &'a str),
    /// The listing of the stack code of the text in a file.
    Listing(Dialect, &'a str),
    /// A run of the deck in a file, of which at most so many statements begin.
    Deck(u64, &'a str),
}

/// One operand or two, the number of `--steps` where there is one, and whether `--count` stands.
#[derive(Clone, Copy)]
pub struct Wanted<'a> {
    pub steps: Option<u64>,
    pub count: bool,
    pub first: &'a str,
    pub second: Option<&'a str>,
}

/// A text in a file.
#[derive(Clone, Copy)]
pub struct NamedText<'a> {
    pub language: Dialect,
    pub file: &'a str,
}

/// What may come next: options and operands, the number of `--steps`, operands alone, or nothing right.
#[derive(Clone, Copy)]
pub enum Stage {
    Open,
    Steps,
    Closed,
    Wrong,
}

/// What the words behind the command have said so far.
#[derive(Clone, Copy)]
pub struct Reading<'a> {
    pub stage: Stage,
    pub steps: Option<u64>,
    pub count: bool,
    pub first: Option<&'a str>,
    pub second: Option<&'a str>,
}

/// What the words ask for, where they are a command.
pub fn read_words(words: &Vec<String>) -> Option<Asked<'_>>
    ensures { IsAsked (AskFor (texts words.now.items)) (option_map asked_command result) }
{
    read_command(words.as_slice())
}

fn read_command(words: &[String]) -> Option<Asked<'_>>
    ensures { option_map asked_command result ≡ command_of (texts words.now) }
{
    match words {
        [command, rest @ ..] if command.as_str() == "run" => run_of(read_operands(rest)),
        [command, rest @ ..] if command.as_str() == "cards" => {
            cards_of(plain_text(read_operands(rest)))
        }
        [command, rest @ ..] if command.as_str() == "listing" => {
            listing_of(plain_text(read_operands(rest)))
        }
        [command, rest @ ..] if command.as_str() == "deck" => deck_of(read_operands(rest)),
        _ => None,
    }
}

fn run_of(wanted: Option<Wanted<'_>>) -> Option<Asked<'_>>
    ensures { option_map asked_command result ≡ run_of (option_map wanted_of wanted.entry) }
{
    let wanted = wanted?;
    let text = text_in(wanted)?;
    Some(Asked::Run(
        wanted.steps.unwrap_or(USUAL_STEPS),
        wanted.count,
        text.language,
        text.file,
    ))
}

/// A text that is not run has no options.
fn plain_text(wanted: Option<Wanted<'_>>) -> Option<NamedText<'_>>
    ensures { option_map named_of result ≡ plain_text_of (option_map wanted_of wanted.entry) }
{
    let wanted = wanted?;
    match (wanted.steps, wanted.count) {
        (None, false) => text_in(wanted),
        _ => None,
    }
}

fn cards_of(text: Option<NamedText<'_>>) -> Option<Asked<'_>>
    ensures { option_map asked_command result ≡ cards_of_text (option_map named_of text.entry) }
{
    let NamedText { language, file } = text?;
    Some(Asked::Cards(language, file))
}

fn listing_of(text: Option<NamedText<'_>>) -> Option<Asked<'_>>
    ensures { option_map asked_command result ≡ listing_of_text (option_map named_of text.entry) }
{
    let NamedText { language, file } = text?;
    Some(Asked::Listing(language, file))
}

/// A deck has no language, and no counts.
fn deck_of(wanted: Option<Wanted<'_>>) -> Option<Asked<'_>>
    ensures { option_map asked_command result ≡ deck_of (option_map wanted_of wanted.entry) }
{
    let Wanted {
        steps,
        count,
        first,
        second,
    } = wanted?;
    if count || second.is_some() || first.is_empty() {
        return None;
    }
    Some(Asked::Deck(steps.unwrap_or(USUAL_STEPS), first))
}

/// The text that two operands name.
fn text_in(wanted: Wanted<'_>) -> Option<NamedText<'_>>
    ensures { option_map named_of result ≡ text_in (wanted_of wanted.entry) }
{
    let file = wanted.second?;
    if file.is_empty() {
        return None;
    }
    let language = language_of(wanted.first)?;
    Some(NamedText { language, file })
}

/// The operands and the options behind a command.
fn read_operands(words: &[String]) -> Option<Wanted<'_>>
    ensures { option_map wanted_of result ≡ asked_of (fold read_word start (texts words.now)) }
{
    let mut reading = Reading {
        stage: Stage::Open,
        steps: None,
        count: false,
        first: None,
        second: None,
    };
    for word in words {
        reading = read(reading, word.as_str());
    }
    finish(reading)
}

fn read<'a>(reading: Reading<'a>, word: &'a str) -> Reading<'a>
    ensures { reading_of result ≡ read_word (reading_of reading.entry) word.now }
{
    match reading.stage {
        Stage::Open => with_word(reading, word),
        Stage::Steps => with_steps(reading, steps_in(word.as_bytes())),
        Stage::Closed => with_operand(reading, word),
        Stage::Wrong => reading,
    }
}

fn with_word<'a>(reading: Reading<'a>, word: &'a str) -> Reading<'a>
    ensures { reading_of result ≡ with_open_word word.now (reading_of reading.entry) }
{
    if word == "--" {
        return at_stage(reading, Stage::Closed);
    }
    if word == "--steps" {
        return at_stage(reading, Stage::Steps);
    }
    if let Some(number) = word.as_bytes().strip_prefix(b"--steps=") {
        return with_steps(reading, steps_in(number));
    }
    if word == "--count" {
        return with_count(reading);
    }
    if is_option(word.as_bytes()) {
        return at_stage(reading, Stage::Wrong);
    }
    with_operand(reading, word)
}

fn at_stage(reading: Reading<'_>, stage: Stage) -> Reading<'_>
    ensures { reading_of result ≡ at_stage stage (reading_of reading.entry) }
{
    Reading { stage, ..reading }
}

/// The number of `--steps`, which stands at most once.
fn with_steps(reading: Reading<'_>, number: Option<u64>) -> Reading<'_>
    ensures { reading_of result ≡ with_number number reading.entry.steps (reading_of reading.entry) }
{
    match (number, reading.steps) {
        (Some(number), None) => Reading {
            stage: Stage::Open,
            steps: Some(number),
            ..reading
        },
        _ => at_stage(reading, Stage::Wrong),
    }
}

/// `--count`, which stands at most once.
fn with_count(reading: Reading<'_>) -> Reading<'_>
    ensures { reading_of result ≡ with_counting reading.entry.count (reading_of reading.entry) }
{
    if reading.count {
        return at_stage(reading, Stage::Wrong);
    }
    Reading {
        count: true,
        ..reading
    }
}

/// The first operand, or the second one.
fn with_operand<'a>(reading: Reading<'a>, word: &'a str) -> Reading<'a>
    ensures { reading_of result ≡ with_operand_word (reading_of reading.entry).first (reading_of reading.entry).second word.now (reading_of reading.entry) }
{
    match (reading.first, reading.second) {
        (None, _) => Reading {
            first: Some(word),
            ..reading
        },
        (Some(_), None) => Reading {
            second: Some(word),
            ..reading
        },
        (Some(_), Some(_)) => at_stage(reading, Stage::Wrong),
    }
}

fn is_option(word: &[u8]) -> bool
    ensures { result ≡ is_option_word word.now }
{
    matches!(word, [b'-', _, ..])
}

fn finish(reading: Reading<'_>) -> Option<Wanted<'_>>
    ensures { option_map wanted_of result ≡ asked_of (reading_of reading.entry) }
{
    match reading.stage {
        Stage::Open | Stage::Closed => operands(reading),
        Stage::Steps | Stage::Wrong => None,
    }
}

fn operands(reading: Reading<'_>) -> Option<Wanted<'_>>
    ensures { option_map wanted_of result ≡ operands_of reading.entry.steps reading.entry.count (reading_of reading.entry).first (reading_of reading.entry).second }
{
    let first = reading.first?;
    Some(Wanted {
        steps: reading.steps,
        count: reading.count,
        first,
        second: reading.second,
    })
}

fn language_of(word: &str) -> Option<Dialect>
    ensures { result ≡ language_in word.now }
{
    if word == "ratfor" {
        Some(Dialect::Ratfor)
    } else if word == "efl" {
        Some(Dialect::Efl)
    } else {
        None
    }
}
