// The statements of a deck.
ghost use Rattle.std.specs.Prelude.{◌≡◌, ◌≤◌, ◌<◌, ◌+◌, ℕ, List, [], ◌∷◌, ◌++◌, None, Some, length, map, IfOk, IfErr, OnOk};
ghost use Rattle.card_reader.specs.Cards.{card as card_columns, piece_of};
ghost use Rattle.card_reader.specs.Reading.{bad_card as bad_card_at, end_line as end_line_at, over_limit, passed, read_deck_cards};
ghost use Rattle.card_reader.specs.Told.{IsLateCard, Refuses, begun_if, begun_of, card_lines_of, continued as continued_of, ended as ended_of, finished, limit_fault, told};

use crate::cards::{CardKind, card, kind_of};
use crate::counts::Counts;
use crate::records::first_record;
use ground::{Fault, FaultKind, List, Place, Refusal, Text};
use std::alloc::{AllocError, Global};

/// The bytes that a deck may have.
const MOST_BYTES: usize = 134_217_728;

/// The continuations that a statement may have.
const MOST_CONTINUATIONS: u32 = 19;

/// A statement with its label, or an END line. Its place is that of its first card.
#[derive(Drop)]
pub struct Line {
    pub label: Option<u32>,
    pub text: Text,
    pub place: Place,
    pub last: bool,
}

/// A statement that may still have continuations, as many as are left.
#[derive(Drop)]
pub struct Draft {
    label: Option<u32>,
    text: Vec<u8>,
    number: u32,
    left: u32,
}

fn place_at(number: u32) -> Place
    ensures { result ≡ Rattle.card_reader.specs.Reading.at number }
{
    Place {
        file: 0,
        line: number,
    }
}

fn bad_card(number: u32) -> Refusal
    ensures { Refuses (Some (bad_card_at number)) result }
{
    Refusal::Fault(Fault::new(place_at(number), FaultKind::BadCard))
}

fn limit(number: u32, limit: u64) -> Refusal
    ensures { Refuses (Some (over_limit number limit)) result }
{
    Refusal::Fault(Fault::limit(place_at(number), limit))
}

/// No continuation comes behind a comment.
fn ended(draft: Option<Draft>) -> Option<Draft>
    ensures { begun_if result ≡ ended_of (begun_if draft) }
{
    match draft {
        None => None,
        Some(draft) => Some(Draft { left: 0, ..draft }),
    }
}

fn begin(
    alloc: Global,
    label: Option<u32>,
    number: u32,
    columns: &[u8],
) -> Result<Draft, AllocError>
    requires { length columns.now ≡ 72 }
    ensures { IfOk result (λ d. begun_of d ≡ record { label = label; text = piece_of columns.now; number = number; left = 19 }) }
{
    let mut text = Vec::new(alloc);
    text.extend_from_slice(&columns[6..])?;
    Ok(Draft {
        label,
        text,
        number,
        left: MOST_CONTINUATIONS,
    })
}

fn continued(draft: Option<Draft>, number: u32, columns: &[u8]) -> Result<Draft, Refusal>
    requires { length columns.now ≡ 72 }
    ensures ok { IfOk result (λ d. continued_of (begun_if draft) (piece_of columns.now) ≡ Some (begun_of d)) }
    ensures err { IfErr result (λ r. IsLateCard (continued_of (begun_if draft) (piece_of columns.now)) number r) }
{
    match draft {
        None => Err(bad_card(number)),
        Some(draft) => {
            if draft.left == 0 {
                return Err(bad_card(number));
            }
            let left = draft.left - 1;
            let mut text = draft.text;
            text.extend_from_slice(&columns[6..])?;
            Ok(Draft {
                label: draft.label,
                text,
                number: draft.number,
                left,
            })
        }
    }
}

fn within_limits(counts: Counts, number: u32) -> Result<Counts, Refusal>
    ensures same { IfOk result (λ c. c ≡ counts) }
    ensures none { IfOk result (λ c. passed counts ≡ None) }
    ensures units { IfOk result (λ c. c.units ≤ 600) }
    ensures statements { IfOk result (λ c. c.statements ≤ 2000000) }
    ensures err { IfErr result (λ r. Refuses (limit_fault number (passed counts)) r) }
{
    match counts.passed() {
        None => Ok(counts),
        Some(which) => Err(limit(number, which)),
    }
}

fn finish(lines: &mut Vec<Line>, draft: Option<Draft>) -> Result<(), AllocError>
    ensures { OnOk result (card_lines_of lines.new.items ≡ card_lines_of lines.old.items ++ finished (begun_if draft)) }
{
    if let Some(draft) = draft {
        lines.push(Line {
            label: draft.label,
            text: Text::new(draft.text)?,
            place: place_at(draft.number),
            last: false,
        })?;
    }
    Ok(())
}

fn add_end(lines: &mut Vec<Line>, number: u32) -> Result<(), AllocError>
    ensures { OnOk result (card_lines_of lines.new.items ≡ card_lines_of lines.old.items ++ end_line_at number ∷ []) }
{
    lines.push(Line {
        label: None,
        text: Text::empty(),
        place: place_at(number),
        last: true,
    })?;
    Ok(())
}

/// Takes one card: the statements and the draft after it, and the counts.
fn take_card(
    alloc: Global,
    lines: &mut Vec<Line>,
    draft: Option<Draft>,
    counts: Counts,
    number: u32,
    columns: &[u8],
) -> Result<(Option<Draft>, Counts), Refusal>
    requires columns { length columns.now ≡ 72 }
    requires units { counts.units ≤ 600 }
    requires statements { counts.statements ≤ 2000000 }
    ensures told { IfOk result (λ r. (cards : List (List ℕ)) → told (card_lines_of lines.old.items) (begun_if draft) counts number (columns.now ∷ cards)
        ≡ told (card_lines_of lines.new.items) (begun_if r.0) r.1 (number + 1) cards) }
    ensures units { IfOk result (λ r. r.1.units ≤ 600) }
    ensures statements { IfOk result (λ r. r.1.statements ≤ 2000000) }
    ensures fault { IfErr result (λ r. (cards : List (List ℕ))
        → Refuses (told (card_lines_of lines.old.items) (begun_if draft) counts number (columns.now ∷ cards)).fault r) }
{
    match kind_of(columns) {
        CardKind::Wrong => Err(bad_card(number)),
        CardKind::Comment => Ok((ended(draft), counts)),
        CardKind::Continuation => {
            let draft = continued(draft, number, columns)?;
            Ok((Some(draft), counts))
        }
        CardKind::Ending => {
            let counts = within_limits(counts.after_end(), number)?;
            finish(lines, draft)?;
            add_end(lines, number)?;
            Ok((None, counts))
        }
        CardKind::Initial(label) => {
            let counts = within_limits(counts.after_initial(), number)?;
            finish(lines, draft)?;
            let draft = begin(alloc, label, number, columns)?;
            Ok((Some(draft), counts))
        }
    }
}

/// The statements of a deck, with its END lines.
pub fn lines_of(alloc: Global, bytes: &[u8]) -> Result<List<Line>, Refusal>
    ensures lines { IfOk result (λ lines. card_lines_of lines.items ≡ (read_deck_cards bytes.now).lines) }
    ensures faultless { OnOk result ((read_deck_cards bytes.now).fault ≡ None) }
    ensures fault { IfErr result (Refuses (read_deck_cards bytes.now).fault) }
{
    if bytes.len() > MOST_BYTES {
        return Err(limit(0, 1));
    }
    let mut lines = Vec::new(alloc);
    let mut draft = None;
    let mut counts = Counts {
        unfinished: false,
        units: 0,
        statements: 0,
    };
    let mut number = 1;
    let mut rest = bytes;
    while !rest.is_empty() {
        let (line, others) = first_record(rest);
        let columns = card(line);
        let (next_draft, next_counts) = take_card(
            alloc, &mut lines, draft, counts, number, &columns,
        )?;
        draft = next_draft;
        counts = next_counts;
        number += 1;
        rest = others;
    }
    if counts.unfinished || counts.units == 0 {
        return Err(bad_card(number));
    }
    finish(&mut lines, draft)?;
    Ok(lines)
}
