// The tokens that are made, of which there are at most 200,000.
ghost use Rattle.std.specs.Prelude.{◌≡◌, ◌≤◌, ◌+◌, [], length, OnOk, vec_len, vec_capacity};
ghost use Rattle.macro_define.specs.Made.{Came, counted, made, put as put_token};
ghost use Rattle.macro_define.specs.Plain.{with_all};

use ground::{Fault, Place, Refusal, Token};
use std::alloc::{AllocError, Global};

/// The number of tokens of a text after expansion, each replaced name counted as one.
const TOKEN_LIMIT: usize = 200_000;
/// The number of that limit.
const TOKEN_LIMIT_NUMBER: u64 = 2;

/// The tokens so far, and how many more may be counted.
#[derive(Drop)]
pub struct Output {
    pub tokens: Vec<Token>,
    pub left: usize,
}

impl Output {
    pub fn new(alloc: Global) -> Self
        ensures tokens { result.tokens.items ≡ [] }
        ensures left { result.left ≡ 200000 }
    {
        Output {
            tokens: Vec::new(alloc),
            left: TOKEN_LIMIT,
        }
    }

    /// Counts a token, or the name of a macro, at this place.
    pub fn count(&mut self, place: Place) -> Result<(), Refusal>
        ensures { Came (counted place (made self.old)) result (made self.new) }
    {
        if self.left == 0 {
            return Err(Refusal::Fault(Fault::limit(place, TOKEN_LIMIT_NUMBER)));
        }
        self.left -= 1;
        Ok(())
    }

    /// Makes room for so many more tokens. The list grows by a sixteenth at a time, since it lives on while the tree is made.
    fn make_room(&mut self, more: usize) -> Result<(), AllocError>
        ensures same { made self.new ≡ made self.old }
        ensures room { OnOk result (vec_len self.new.tokens + more ≤ vec_capacity self.new.tokens) }
    {
        let count = self.tokens.len();
        if more > self.tokens.capacity() - count {
            self.tokens
                .reserve_exact(more.saturating_add(count / 16 + 64))?;
        }
        Ok(())
    }

    /// Counts a token and adds it.
    pub fn put(&mut self, token: Token) -> Result<(), Refusal>
        ensures { Came (put_token token (made self.old)) result (made self.new) }
    {
        self.count(token.place)?;
        self.make_room(1)?;
        self.tokens.push_reserved(token);
        Ok(())
    }

    /// Counts tokens, no more than are left, and adds them.
    pub fn put_all(&mut self, tokens: &mut Vec<Token>) -> Result<(), AllocError>
        requires { length tokens.old.items ≤ self.old.left }
        ensures put { OnOk result (made self.new ≡ with_all tokens.old.items (made self.old)) }
        ensures none { OnOk result (tokens.new.items ≡ []) }
    {
        let count = tokens.len();
        self.make_room(count)?;
        self.tokens.append(tokens)?;
        self.left -= count;
        Ok(())
    }
}
