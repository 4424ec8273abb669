// Headers of units from tokens.
ghost use Rattle.std.specs.Prelude.{◌≡◌, ◌++◌, ◌∷◌, [], IfOk, Some, codes, map};
ghost use Rattle.f66_tree.specs.Views.{chained, formula_of};
ghost use Rattle.stmt_reader.specs.Acts.{header_if, names_if};
ghost use Rattle.stmt_reader.specs.Declarations.{block_of, function_in as function_of_tree, function_of, header_of, name_in as name_of_tree, names_onto, subroutine_in as subroutine_of_tree, subroutine_of};
ghost use Rattle.stmt_reader.specs.Taking.{after_word as behind_word, then_if};

use crate::expressions::read_expression;
use crate::token::Token;
use crate::words::after_word;
use f66_tree::{Expr, Header, Name, TypeWord};
use ground::List;
use std::alloc::{AllocError, Global};

/// The header that tokens give, if they give one.
pub fn read_header_tokens(alloc: Global, tokens: &[Token]) -> Result<Option<Header>, AllocError>
    ensures { IfOk result (λ h. header_if h ≡ header_of tokens.now) }
{
    if let Some(header) = subroutine(alloc, tokens)? {
        return Ok(Some(header));
    }
    if let Some(header) = function(alloc, b"FUNCTION", None, tokens)? {
        return Ok(Some(header));
    }
    if let Some(header) = function(alloc, b"INTEGERFUNCTION", Some(TypeWord::Integer), tokens)? {
        return Ok(Some(header));
    }
    if let Some(header) = function(alloc, b"LOGICALFUNCTION", Some(TypeWord::Logical), tokens)? {
        return Ok(Some(header));
    }
    if let Some(header) = function(alloc, b"REALFUNCTION", Some(TypeWord::Other), tokens)? {
        return Ok(Some(header));
    }
    if let Some(header) = function(
        alloc,
        b"DOUBLEPRECISIONFUNCTION",
        Some(TypeWord::Other),
        tokens,
    )? {
        return Ok(Some(header));
    }
    if let Some(header) = function(alloc, b"COMPLEXFUNCTION", Some(TypeWord::Other), tokens)? {
        return Ok(Some(header));
    }
    block(alloc, tokens)
}

fn block(alloc: Global, tokens: &[Token]) -> Result<Option<Header>, AllocError>
    ensures { IfOk result (λ h. header_if h ≡ then_if (behind_word (codes "BLOCKDATA") tokens.now) block_of) }
{
    match after_word(alloc, b"BLOCKDATA", tokens)? {
        None => Ok(None),
        Some(rest) => {
            if rest.is_empty() {
                Ok(Some(Header::Block))
            } else {
                Ok(None)
            }
        }
    }
}

fn subroutine(alloc: Global, tokens: &[Token]) -> Result<Option<Header>, AllocError>
    ensures { IfOk result (λ h. header_if h ≡ subroutine_of tokens.now) }
{
    let Some(rest) = after_word(alloc, b"SUBROUTINE", tokens)? else {
        return Ok(None);
    };
    match read_expression(alloc, &rest)? {
        None => Ok(None),
        Some(e) => subroutine_in(alloc, e),
    }
}

fn subroutine_in(alloc: Global, e: Expr) -> Result<Option<Header>, AllocError>
    ensures { IfOk result (λ h. header_if h ≡ subroutine_of_tree (formula_of e)) }
{
    match e {
        Expr::Ref(name) => Ok(Some(Header::Sub(name, Vec::new(alloc)))),
        Expr::Item(item) => {
            let (name, list) = Box::into_inner(item);
            match names_in(Vec::new(alloc), &list)? {
                None => Ok(None),
                Some(dummies) => Ok(Some(Header::Sub(name, dummies))),
            }
        }
        _ => Ok(None),
    }
}

fn function(
    alloc: Global,
    letters: &[u8],
    word: Option<TypeWord>,
    tokens: &[Token],
) -> Result<Option<Header>, AllocError>
    ensures { IfOk result (λ h. header_if h ≡ function_of letters.now word tokens.now) }
{
    let Some(rest) = after_word(alloc, letters, tokens)? else {
        return Ok(None);
    };
    match read_expression(alloc, &rest)? {
        None => Ok(None),
        Some(e) => function_in(alloc, word, e),
    }
}

fn function_in(alloc: Global, word: Option<TypeWord>, e: Expr) -> Result<Option<Header>, AllocError>
    ensures { IfOk result (λ h. header_if h ≡ function_of_tree word (formula_of e)) }
{
    match e {
        Expr::Item(item) => {
            let (name, list) = Box::into_inner(item);
            match names_in(Vec::new(alloc), &list)? {
                None => Ok(None),
                Some(dummies) => Ok(Some(Header::Func(word, name, dummies))),
            }
        }
        _ => Ok(None),
    }
}

/// The names with those of a list behind them, if all of these are names.
fn names_in(names: List<Name>, list: &[Expr]) -> Result<Option<List<Name>>, AllocError>
    ensures { IfOk result (λ r. names_if r ≡ names_onto names.items (chained (map formula_of list.now))) }
{
    match list {
        [] => Ok(Some(names)),
        [e, list @ ..] => match name_in(e)? {
            None => Ok(None),
            Some(name) => {
                let mut names = names;
                names.push(name)?;
                names_in(names, list)
            }
        },
    }
}

fn name_in(e: &Expr) -> Result<Option<Name>, AllocError>
    ensures { IfOk result (λ name. name ≡ name_of_tree (formula_of e.now)) }
{
    match e {
        Expr::Ref(name) => Ok(Some(name.copy()?)),
        _ => Ok(None),
    }
}
