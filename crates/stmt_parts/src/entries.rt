// The lists of READ and WRITE, token by token (X3.9-1966, section 7.1.3).
ghost use Rattle.std.specs.Prelude.{◌≡◌, ◌∷◌, ◌++◌, [], ◌+◌, ◌^◌, ◌<◌, ◌≤◌, zero, Some, IfOk, length};
ghost use Rattle.f66_tree.specs.Syntax.{Many};
ghost use Rattle.f66_tree.specs.Views.{act_of, listed, par_of};
ghost use Rattle.stmt_reader.specs.Acts.{act_if};
ghost use Rattle.stmt_reader.specs.Cutting.{is_close as is_close_token};
ghost use Rattle.stmt_reader.specs.declared.token.Token.TheVariants.{Comma as CommaData, Number as NumberData, Open as OpenData};
ghost use Rattle.stmt_reader.specs.Entries.{Behind, Counted, Counts, Wants, Within, add_item as item_added, begin_control, close_control as control_closed, close_with as closed_with, entries_of, final, more_counts, record_of, step as step_at};
ghost use Rattle.stmt_reader.specs.Taking.{par_if, then_if};
ghost use Rattle.stmt_parts.specs.EntryStates.{added, control_of, depth_of, entries_if, entries_in, few_of, lists_of, state_of, transfer_by};

use crate::acts::par;
use crate::entry_stack::{Control, Few, Lists, Stage};
use f66_tree::{Entry, Name, Par, StmtKind, Way};
use ground::List;
use std::alloc::{AllocError, Global};
use stmt_reader::{Token, copy_token, place, read_expression};

/// The list that tokens give, which may be empty.
pub fn read_entries(alloc: Global, tokens: &[Token]) -> Result<Option<List<Entry>>, AllocError>
    requires { length tokens.now < 2 ^ 63 }
    ensures { IfOk result (λ r. entries_if r ≡ entries_of tokens.now) }
{
    if tokens.is_empty() {
        return Ok(Some(Vec::new(alloc)));
    }
    let mut lists = Lists::new(alloc);
    let mut stage = Stage::Wants;
    for token in tokens {
        stage = step(alloc, &mut lists, stage, token)?;
    }
    finish(alloc, lists, &stage)
}

fn finish(alloc: Global, mut lists: Lists, stage: &Stage) -> Result<Option<List<Entry>>, AllocError>
    ensures { IfOk result (λ r. entries_if r ≡ final (state_of stage.now (lists_of lists))) }
{
    match stage {
        Stage::Within(0, tokens) => {
            if add_item(alloc, &mut lists, tokens)? {
                Ok(lists.into_entries())
            } else {
                Ok(None)
            }
        }
        Stage::Behind => Ok(lists.into_entries()),
        _ => Ok(None),
    }
}

/// Takes one token.
fn step(alloc: Global, lists: &mut Lists, stage: Stage, token: &Token) -> Result<Stage, AllocError>
    requires { depth_of stage < 2 ^ 63 }
    ensures state { IfOk result (λ s. state_of s (lists_of lists.new) ≡ step_at (state_of stage (lists_of lists.old)) token.now) }
    ensures depth { IfOk result (λ s. depth_of s ≤ depth_of stage + 1) }
{
    match stage {
        Stage::Wants => begin(alloc, lists, token),
        Stage::Within(0, tokens) => behind_item(alloc, lists, tokens, token),
        Stage::Within(depth, tokens) => go_on(depth, tokens, token),
        Stage::Behind => Ok(behind(token)),
        Stage::Counts(name, before) => counts(name, before, token),
        Stage::Counted(name, control) => counted(alloc, lists, name, control, token),
        Stage::Lost => Ok(Stage::Lost),
    }
}

/// Takes a token where an entry is wanted.
fn begin(alloc: Global, lists: &mut Lists, token: &Token) -> Result<Stage, AllocError>
    ensures state { IfOk result (λ s. state_of s (lists_of lists.new) ≡ step_at (Wants (lists_of lists.old)) token.now) }
    ensures depth { IfOk result (λ s. depth_of s ≡ 0) }
{
    match token {
        Token::Open => {
            lists.open(alloc)?;
            Ok(Stage::Wants)
        }
        Token::Word(_) => {
            let item = with_token(Vec::new(alloc), token)?;
            Ok(Stage::Within(0, item))
        }
        _ => Ok(Stage::Lost),
    }
}

fn with_token(tokens: List<Token>, token: &Token) -> Result<List<Token>, AllocError>
    ensures { IfOk result (λ r. r.items ≡ tokens.items ++ token.now ∷ []) }
{
    let mut all = tokens;
    all.push(copy_token(token)?)?;
    Ok(all)
}

/// Takes a token behind an item with no parenthesis open in it.
fn behind_item(
    alloc: Global,
    lists: &mut Lists,
    item: List<Token>,
    token: &Token,
) -> Result<Stage, AllocError>
    ensures state { IfOk result (λ s. state_of s (lists_of lists.new) ≡ step_at (Within (lists_of lists.old) zero item.items) token.now) }
    ensures depth { IfOk result (λ s. depth_of s ≤ 1) }
{
    match token {
        Token::Comma => {
            if add_item(alloc, lists, &item)? {
                Ok(Stage::Wants)
            } else {
                Ok(Stage::Lost)
            }
        }
        Token::Equals => control(lists, &item),
        Token::Open => Ok(Stage::Within(1, with_token(item, token)?)),
        _ => Ok(Stage::Lost),
    }
}

/// Adds an item, if it is a variable or an element of an array.
fn add_item(alloc: Global, lists: &mut Lists, item: &[Token]) -> Result<bool, AllocError>
    ensures { IfOk result (λ b. added b (lists_of lists.new) ≡ item_added (lists_of lists.old) item.now) }
{
    let Some(e) = read_expression(alloc, item)? else {
        return Ok(false);
    };
    let Some(e) = place(e) else {
        return Ok(false);
    };
    lists.add(Entry::Item(e))?;
    Ok(true)
}

/// A lone name behind an entry, within parentheses, is the variable of an implied DO.
fn control(lists: &Lists, item: &[Token]) -> Result<Stage, AllocError>
    ensures state { IfOk result (λ s. state_of s (lists_of lists.now) ≡ begin_control (lists_of lists.now) item.now) }
    ensures depth { IfOk result (λ s. depth_of s ≡ 0) }
{
    if !lists.is_begun() {
        return Ok(Stage::Lost);
    }
    match item {
        [Token::Word(text)] => Ok(Stage::Counts(Name::new(text.clone()?), Few::None)),
        _ => Ok(Stage::Lost),
    }
}

/// Takes a token of an item in which parentheses are open.
fn go_on(depth: usize, item: List<Token>, token: &Token) -> Result<Stage, AllocError>
    requires some { 0 < depth }
    requires bound { depth < 2 ^ 63 }
    ensures state { (l : _) → IfOk result (λ s. state_of s l ≡ step_at (Within l depth item.items) token.now) }
    ensures depth { IfOk result (λ s. depth_of s ≤ depth + 1) }
{
    let item = with_token(item, token)?;
    match token {
        Token::Open => Ok(Stage::Within(depth + 1, item)),
        Token::Close => Ok(Stage::Within(depth - 1, item)),
        _ => Ok(Stage::Within(depth, item)),
    }
}

fn behind(token: &Token) -> Stage
    ensures state { (l : _) → state_of result l ≡ step_at (Behind l) token.now }
    ensures depth { depth_of result ≡ 0 }
{
    match token {
        Token::Comma => Stage::Wants,
        _ => Stage::Lost,
    }
}

/// Takes a parameter of an implied DO.
fn counts(name: Name, before: Few, token: &Token) -> Result<Stage, AllocError>
    ensures state { (l : _) → IfOk result (λ s. state_of s l ≡ step_at (Counts l name (few_of before)) token.now) }
    ensures depth { IfOk result (λ s. depth_of s ≡ 0) }
{
    match par(token)? {
        None => Ok(Stage::Lost),
        Some(par) => Ok(Stage::Counted(name, with_par(before, par))),
    }
}

fn with_par(before: Few, par: Par) -> Control
    ensures { control_of result ≡ few_of before ++ par_of par ∷ [] }
{
    match before {
        Few::None => Control::One(par),
        Few::One(a) => Control::Two(a, par),
        Few::Two(a, b) => Control::Three(a, b, par),
    }
}

/// Takes a token behind a parameter of an implied DO.
fn counted(
    alloc: Global,
    lists: &mut Lists,
    name: Name,
    control: Control,
    token: &Token,
) -> Result<Stage, AllocError>
    ensures state { IfOk result (λ s. state_of s (lists_of lists.new) ≡ step_at (Counted (lists_of lists.old) name (control_of control)) token.now) }
    ensures depth { IfOk result (λ s. depth_of s ≡ 0) }
{
    match token {
        Token::Comma => Ok(more(name, control)),
        Token::Close => close_control(lists, name, control),
        _ => Ok(Stage::Lost),
    }
}

/// Another parameter comes where fewer than three stand.
fn more(name: Name, control: Control) -> Stage
    ensures state { (l : _) → state_of result l ≡ more_counts l name (control_of control) }
    ensures depth { depth_of result ≡ 0 }
{
    match control {
        Control::One(a) => Stage::Counts(name, Few::One(a)),
        Control::Two(a, b) => Stage::Counts(name, Few::Two(a, b)),
        Control::Three(_, _, _) => Stage::Lost,
    }
}

/// Ends an implied DO, whose step is one where it has none.
fn close_control(lists: &mut Lists, name: Name, control: Control) -> Result<Stage, AllocError>
    ensures state { IfOk result (λ s. state_of s (lists_of lists.new) ≡ control_closed (lists_of lists.old) name (control_of control)) }
    ensures depth { IfOk result (λ s. depth_of s ≡ 0) }
{
    match control {
        Control::One(_) => Ok(Stage::Lost),
        Control::Two(a, b) => close_with(lists, name, a, b, Par::Number(1)),
        Control::Three(a, b, c) => close_with(lists, name, a, b, c),
    }
}

fn close_with(
    lists: &mut Lists,
    name: Name,
    first: Par,
    last: Par,
    step: Par,
) -> Result<Stage, AllocError>
    ensures state { IfOk result (λ s. state_of s (lists_of lists.new) ≡ closed_with (lists_of lists.old) (λ es. Many es name (par_of first) (par_of last) (par_of step))) }
    ensures depth { IfOk result (λ s. depth_of s ≡ 0) }
{
    match lists.close() {
        None => Ok(Stage::Lost),
        Some(inner) => {
            lists.add(Entry::Many(inner, name, first, last, step))?;
            Ok(Stage::Behind)
        }
    }
}

/// A READ or WRITE, behind its word: the unit and the format in parentheses, and the list.
pub fn read_transfer(
    alloc: Global,
    way: Way,
    tokens: &[Token],
) -> Result<Option<StmtKind>, AllocError>
    requires { length tokens.now < 2 ^ 63 }
    ensures { IfOk result (λ s. act_if s ≡ record_of (transfer_by way) tokens.now) }
{
    match tokens {
        [Token::Open, unit, tokens @ ..] => transfer_with(alloc, way, unit, tokens),
        _ => Ok(None),
    }
}

fn transfer_with(
    alloc: Global,
    way: Way,
    unit: &Token,
    tokens: &[Token],
) -> Result<Option<StmtKind>, AllocError>
    requires { length tokens.now < 2 ^ 63 }
    ensures { IfOk result (λ s. act_if s ≡ record_of (transfer_by way) (OpenData ∷ unit.now ∷ tokens.now)) }
{
    match tokens {
        [Token::Comma, tokens @ ..] => transfer_behind(alloc, way, unit, tokens),
        _ => Ok(None),
    }
}

fn transfer_behind(
    alloc: Global,
    way: Way,
    unit: &Token,
    tokens: &[Token],
) -> Result<Option<StmtKind>, AllocError>
    requires { length tokens.now < 2 ^ 63 }
    ensures { IfOk result (λ s. act_if s ≡ record_of (transfer_by way) (OpenData ∷ unit.now ∷ CommaData ∷ tokens.now)) }
{
    match tokens {
        [Token::Number(format), tokens @ ..] => {
            transfer_closed(alloc, way, unit, *format, tokens)
        }
        _ => Ok(None),
    }
}

fn transfer_closed(
    alloc: Global,
    way: Way,
    unit: &Token,
    format: u32,
    tokens: &[Token],
) -> Result<Option<StmtKind>, AllocError>
    requires { length tokens.now < 2 ^ 63 }
    ensures { IfOk result (λ s. act_if s ≡ record_of (transfer_by way) (OpenData ∷ unit.now ∷ CommaData ∷ NumberData format ∷ tokens.now)) }
{
    match tokens {
        [] => Ok(None),
        [token, tokens @ ..] => {
            if !is_close(token) {
                return Ok(None);
            }
            transfer(alloc, way, unit, format, tokens)
        }
    }
}

fn is_close(token: &Token) -> bool
    ensures { result ≡ is_close_token token.now }
{
    match token {
        Token::Close => true,
        _ => false,
    }
}

fn transfer(
    alloc: Global,
    way: Way,
    unit: &Token,
    format: u32,
    tokens: &[Token],
) -> Result<Option<StmtKind>, AllocError>
    requires { length tokens.now < 2 ^ 63 }
    ensures { IfOk result (λ s. act_if s ≡ then_if (par_if unit.now) (λ p. then_if (entries_of tokens.now) (λ es. Some (transfer_by way p format es)))) }
{
    let Some(unit) = par(unit)? else {
        return Ok(None);
    };
    let Some(list) = read_entries(alloc, tokens)? else {
        return Ok(None);
    };
    Ok(Some(transfer_of(way, unit, format, list)))
}

fn transfer_of(way: Way, unit: Par, format: u32, list: List<Entry>) -> StmtKind
    ensures { act_of result ≡ transfer_by way (par_of unit) format (listed (entries_in list)) }
{
    match way {
        Way::Reading => StmtKind::Read(unit, format, list),
        Way::Writing => StmtKind::Write(unit, format, list),
    }
}
