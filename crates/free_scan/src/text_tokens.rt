// The tokens of a text, line by line as they are asked for.
ghost use Rattle.std.specs.Prelude.{◌≡◌, ◌<◌, ℕ, List, [], ◌∷◌, ◌++◌, length, Some, IfOk, OnOk, MatchOption};
ghost use Rattle.ground.specs.declared.token.Dialect.{Dialect};
ghost use Rattle.free_scan.specs.Left.{HasNoLine, IsBehind, IsStart, lines_left};
ghost use Rattle.free_scan.specs.Lexemes.{with_tokens};
ghost use Rattle.free_scan.specs.Tokens.{scanned};
ghost use Rattle.free_scan.specs.declared.scanner.Outcome.TheVariants.{Goes};

use crate::lines::Character;
use crate::scanner::{LineStart, Outcome, scan_line, token_at};
use ground::{Dialect, Fault, List, Memory, Token, TokenKind};
use std::alloc::{AllocError, Global};
use std::collections::VecDeque;
use std::marker::Model;
use std::mem;

/// The tokens of a text, and the fault after them if it has one.
#[derive(Debug, Drop)]
pub struct Scanned {
    pub tokens: List<Token>,
    pub fault: Option<Fault>,
}

/// A text on its way through the scanner. Contracts see the tokens that are left of it, and the fault after them.
#[derive(Drop)]
pub struct Scanner<'a> {
    alloc: Global,
    dialect: Dialect,
    text: &'a [u8],
    file: u16,
    /// Where the lines go on or stop; nothing behind the end of the text.
    next: Option<Outcome>,
    characters: Vec<Character>,
    /// The tokens of the line at hand that are left.
    line: VecDeque<Token>,
}

impl<'a> Model for Scanner<'a> {
    ghost use Rattle.std.specs.Prelude.{◌<◌, length};
    ghost use Rattle.free_scan.specs.Left.{IsStart, lines_left};
    ghost use Rattle.free_scan.specs.Lexemes.{Reading, with_tokens};

    ghost Value = { Reading };

    ghost view = { λ s. with_tokens s.line.items (lines_left s.dialect s.text.now s.file s.next) };

    ghost invariant = { λ s. (length s.text.now < 4294967295) × IsStart s.text.now s.next };
}

/// Reads the line that starts here, or the end of the text.
fn read_one(
    alloc: Global,
    dialect: Dialect,
    text: &[u8],
    file: u16,
    start: LineStart,
    characters: &mut Vec<Character>,
    line: &mut Vec<Token>,
) -> Result<Option<Outcome>, AllocError>
    requires short { length text.now < 4294967295 }
    requires start { IsStart text.now (Some (Goes start)) }
    requires none { line.old.items ≡ [] }
    ensures read { IfOk result (λ next. lines_left dialect text.now file (Some (Goes start)) ≡ with_tokens line.new.items (lines_left dialect text.now file next)) }
    ensures start { IfOk result (λ next. IsStart text.now next) }
    ensures further { IfOk result (λ next. IsBehind start next) }
{
    if start.next < text.len() {
        let outcome = scan_line(alloc, dialect, text, file, start, characters, line)?;
        return Ok(Some(outcome));
    }
    line.push(token_at(file, start.number, TokenKind::TextEnd))?;
    Ok(None)
}

/// Reads lines until there is a token, or no line is left.
fn read_on(
    alloc: Global,
    dialect: Dialect,
    text: &[u8],
    file: u16,
    next: &mut Option<Outcome>,
    characters: &mut Vec<Character>,
    line: &mut Vec<Token>,
) -> Result<(), AllocError>
    requires short { length text.now < 4294967295 }
    requires start { IsStart text.now next.old }
    requires none { line.old.items ≡ [] }
    ensures read { OnOk result (lines_left dialect text.now file next.old ≡ with_tokens line.new.items (lines_left dialect text.now file next.new)) }
    ensures start { IsStart text.now next.new }
    ensures ended { OnOk result (line.new.items ≡ [] → HasNoLine next.new) }
{
    while line.is_empty() {
        let Some(Outcome::Goes(start)) = *next else {
            return Ok(());
        };
        *next = read_one(alloc, dialect, text, file, start, characters, line)?;
    }
    Ok(())
}

/// Has the next token at hand, where one is left.
fn fetch(
    alloc: Global,
    dialect: Dialect,
    text: &[u8],
    file: u16,
    next: &mut Option<Outcome>,
    characters: &mut Vec<Character>,
    line: &mut VecDeque<Token>,
) -> Result<(), AllocError>
    requires short { length text.now < 4294967295 }
    requires start { IsStart text.now next.old }
    ensures same { OnOk result (with_tokens line.new.items (lines_left dialect text.now file next.new) ≡ with_tokens line.old.items (lines_left dialect text.now file next.old)) }
    ensures start { IsStart text.now next.new }
    ensures ended { OnOk result (line.new.items ≡ [] → HasNoLine next.new) }
{
    if !line.is_empty() {
        return Ok(());
    }
    let mut fresh = mem::replace(line, VecDeque::new(alloc)).into_vec();
    read_on(alloc, dialect, text, file, next, characters, &mut fresh)?;
    *line = VecDeque::from_vec(fresh);
    Ok(())
}

/// Takes tokens back before those that are left.
fn take_back(line: &mut Vec<Token>, left: &mut VecDeque<Token>) -> Result<(), AllocError>
    ensures tokens { OnOk result (left.new.items ≡ line.old.items ++ left.old.items) }
    ensures none { OnOk result (line.new.items ≡ []) }
{
    while let Some(token) = line.pop() {
        left.push_front(token).map_err(AllocError::from)?;
    }
    Ok(())
}

impl<'a> Scanner<'a> {
    /// A text as the file of this number, from its beginning on.
    pub fn new(alloc: Global, dialect: Dialect, text: &'a [u8], file: u16) -> Scanner<'a>
        requires { length text.now < 4294967295 }
        ensures { result ≡ scanned dialect text.now file }
    {
        let start = LineStart {
            next: 0,
            number: 1,
            opened: 0,
            continues: false,
        };
        Scanner {
            alloc,
            dialect,
            text,
            file,
            next: Some(Outcome::Goes(start)),
            characters: Vec::new(alloc),
            line: VecDeque::new(alloc),
        }
    }

    /// Takes the next token.
    pub fn next(&mut self) -> Result<Option<Token>, AllocError>
        ensures token { IfOk result (λ next. MatchOption next ((self.old.tokens ≡ []) × (self.new.tokens ≡ [])) (λ token. self.old.tokens ≡ token ∷ self.new.tokens)) }
        ensures fault { OnOk result (self.new.fault ≡ self.old.fault) }
    {
        fetch(
            self.alloc,
            self.dialect,
            self.text,
            self.file,
            &mut self.next,
            &mut self.characters,
            &mut self.line,
        )?;
        Ok(self.line.pop_front())
    }

    /// Takes back a token that was taken.
    pub fn put_back(&mut self, token: Token) -> Result<(), AllocError>
        ensures tokens { OnOk result (self.new.tokens ≡ token ∷ self.old.tokens) }
        ensures fault { OnOk result (self.new.fault ≡ self.old.fault) }
    {
        self.line.push_front(token).map_err(AllocError::from)?;
        Ok(())
    }

    /// Takes the tokens of the line at hand, or of the next one that has some, in their order; none where none is left.
    pub fn take_line(&mut self, line: &mut Vec<Token>) -> Result<(), AllocError>
        requires { line.old.items ≡ [] }
        ensures tokens { OnOk result (self.old.tokens ≡ line.new.items ++ self.new.tokens) }
        ensures some { OnOk result (line.new.items ≡ [] → self.old.tokens ≡ []) }
        ensures fault { OnOk result (self.new.fault ≡ self.old.fault) }
    {
        fetch(
            self.alloc,
            self.dialect,
            self.text,
            self.file,
            &mut self.next,
            &mut self.characters,
            &mut self.line,
        )?;
        let room = mem::replace(line, Vec::new(self.alloc));
        let taken = mem::replace(&mut self.line, VecDeque::from_vec(room));
        *line = taken.into_vec();
        Ok(())
    }

    /// Takes back tokens that were taken.
    pub fn put_line(&mut self, line: &mut Vec<Token>) -> Result<(), AllocError>
        ensures tokens { OnOk result (self.new.tokens ≡ line.old.items ++ self.old.tokens) }
        ensures none { OnOk result (line.new.items ≡ []) }
        ensures fault { OnOk result (self.new.fault ≡ self.old.fault) }
    {
        take_back(line, &mut self.line)
    }

    /// The fault after the tokens, where none of them is left.
    pub fn fault(&mut self) -> Result<Option<Fault>, AllocError>
        ensures { IfOk result (λ fault. self.old.tokens ≡ [] → fault ≡ self.old.fault) }
    {
        fetch(
            self.alloc,
            self.dialect,
            self.text,
            self.file,
            &mut self.next,
            &mut self.characters,
            &mut self.line,
        )?;
        Ok(fault_behind(self.next))
    }
}

/// The fault behind which no line is left.
fn fault_behind(next: Option<Outcome>) -> Option<Fault>
    ensures { (d : Dialect) (text : List ℕ) (file : ℕ) → HasNoLine next → result ≡ (lines_left d text file next).fault }
{
    match next {
        Some(Outcome::Stops(fault)) => Some(fault),
        _ => None,
    }
}

/// The tokens of a text in the order in which they stand, and a fault right after the tokens before it: 1 BadByte,
/// 2 UnclosedQuote, 3 NumberTooLarge, 8 PercentLine, or 30 Limit with the number 11. The places have the number of the
/// file. The text has fewer than 4,294,967,295 bytes. The rules are those of Kernighan's paper on Ratfor and of
/// Feldman's on EFL, as docs/TEXT.md states them.
pub fn scan(alloc: Global, dialect: Dialect, text: &[u8], file: u16) -> Result<Scanned, Memory>
    requires { length text.now < 4294967295 }
    ensures tokens { IfOk result (λ all. all.tokens.items ≡ (scanned dialect text.now file).tokens) }
    ensures fault { IfOk result (λ all. all.fault ≡ (scanned dialect text.now file).fault) }
{
    let mut scanner = Scanner::new(alloc, dialect, text, file);
    let mut tokens = Vec::new(alloc);
    while let Some(token) = scanner.next()? {
        tokens.push(token).map_err(AllocError::from)?;
    }
    let fault = scanner.fault()?;
    Ok(Scanned { tokens, fault })
}
