// The statement that tokens give.
ghost use Rattle.std.specs.Prelude.{◌≡◌, ◌^◌, ◌<◌, Some, IfOk, codes, length};
ghost use Rattle.f66_tree.specs.Syntax.{Act, When};
ghost use Rattle.f66_tree.specs.Views.{act_of};
ghost use Rattle.stmt_reader.specs.Acts.{act_if};
ghost use Rattle.stmt_reader.specs.Declarations.{commons_of, dimensions_of, equivalences_of, presets_of, specification_of, types_of};
ghost use Rattle.stmt_reader.specs.Entries.{record_of};
ghost use Rattle.stmt_reader.specs.Formats.{format_of};
ghost use Rattle.stmt_reader.specs.Statements.{branch_of, call_of, computed_of, condition_of, goto_of, loop_of, sign_of, statement_of};
ghost use Rattle.stmt_reader.specs.Taking.{after_word as behind_word, nothing_more, or_else, then_if};
ghost use Rattle.stmt_parts.specs.EntryStates.{transfer_by};
ghost use Rattle.stmt_lines.specs.Orders.{if_alone, branches_or_more, calls_or_more, commons_or_more, complexes_or_more, continues_or_more, formats_or_more, jumps_or_more, reals_or_more, records_of, returns_or_more, stops_or_more};

use f66_tree::{StmtKind, TypeWord, Way};
use std::alloc::{AllocError, Global};
use stmt_formats::read_format;
use stmt_parts::{
    read_call, read_common, read_computed, read_condition, read_data, read_dimension,
    read_equivalence, read_goto, read_loop, read_signs, read_stop, read_transfer, read_types,
};
use stmt_reader::{Token, after_word, read_assignment};

/// The statement that tokens give: an assignment, else a DO, else what their first letters name.
pub fn read_act(alloc: Global, tokens: &[Token]) -> Result<Option<StmtKind>, AllocError>
    requires { length tokens.now < 2 ^ 63 }
    ensures { IfOk result (λ s. act_if s ≡ statement_of tokens.now) }
{
    match read_assignment(alloc, tokens)? {
        Some(kind) => Ok(Some(kind)),
        None => match counted(alloc, tokens)? {
            Some(kind) => Ok(Some(kind)),
            None => branch_or_more(alloc, tokens),
        },
    }
}

fn branch_or_more(alloc: Global, tokens: &[Token]) -> Result<Option<StmtKind>, AllocError>
    requires { length tokens.now < 2 ^ 63 }
    ensures { IfOk result (λ s. act_if s ≡ branches_or_more tokens.now) }
{
    match branch(alloc, tokens)? {
        Some(kind) => Ok(Some(kind)),
        None => match conditional(alloc, tokens)? {
            Some(kind) => Ok(Some(kind)),
            None => format_or_more(alloc, tokens),
        },
    }
}

fn format_or_more(alloc: Global, tokens: &[Token]) -> Result<Option<StmtKind>, AllocError>
    ensures { IfOk result (λ s. act_if s ≡ formats_or_more tokens.now) }
{
    match format(alloc, tokens)? {
        Some(kind) => Ok(Some(kind)),
        None => specification(alloc, tokens),
    }
}

fn counted(alloc: Global, tokens: &[Token]) -> Result<Option<StmtKind>, AllocError>
    ensures { IfOk result (λ s. act_if s ≡ then_if (behind_word (codes "DO") tokens.now) loop_of) }
{
    match after_word(alloc, b"DO", tokens)? {
        None => Ok(None),
        Some(rest) => read_loop(alloc, &rest),
    }
}

fn conditional(alloc: Global, tokens: &[Token]) -> Result<Option<StmtKind>, AllocError>
    ensures { IfOk result (λ s. act_if s ≡ then_if (behind_word (codes "IF") tokens.now) (λ rest. then_if (condition_of rest) (λ c. then_if (branch_of c.1) (λ a. Some (When c.0 a))))) }
{
    match after_word(alloc, b"IF", tokens)? {
        None => Ok(None),
        Some(rest) => conditional_branch(alloc, &rest),
    }
}

fn conditional_branch(alloc: Global, tokens: &[Token]) -> Result<Option<StmtKind>, AllocError>
    requires { length tokens.now < 2 ^ 63 }
    ensures { IfOk result (λ s. act_if s ≡ then_if (condition_of tokens.now) (λ c. then_if (branch_of c.1) (λ a. Some (When c.0 a)))) }
{
    let Some((condition, at)) = read_condition(alloc, tokens)? else {
        return Ok(None);
    };
    let Some(kind) = branch(alloc, &tokens[at..])? else {
        return Ok(None);
    };
    Ok(Some(StmtKind::When(condition, Box::new(alloc, kind)?)))
}

fn format(alloc: Global, tokens: &[Token]) -> Result<Option<StmtKind>, AllocError>
    ensures { IfOk result (λ s. act_if s ≡ then_if (behind_word (codes "FORMAT") tokens.now) format_of) }
{
    match after_word(alloc, b"FORMAT", tokens)? {
        None => Ok(None),
        Some(rest) => read_format(alloc, &rest),
    }
}

/// A statement that may stand behind the condition of a logical IF.
fn branch(alloc: Global, tokens: &[Token]) -> Result<Option<StmtKind>, AllocError>
    requires { length tokens.now < 2 ^ 63 }
    ensures { IfOk result (λ s. act_if s ≡ branch_of tokens.now) }
{
    match read_assignment(alloc, tokens)? {
        Some(kind) => Ok(Some(kind)),
        None => transfer_of_control(alloc, tokens),
    }
}

fn transfer_of_control(alloc: Global, tokens: &[Token]) -> Result<Option<StmtKind>, AllocError>
    ensures { IfOk result (λ s. act_if s ≡ jumps_or_more tokens.now) }
{
    match jump(alloc, tokens)? {
        Some(kind) => Ok(Some(kind)),
        None => match sign(alloc, tokens)? {
            Some(kind) => Ok(Some(kind)),
            None => call_or_more(alloc, tokens),
        },
    }
}

fn call_or_more(alloc: Global, tokens: &[Token]) -> Result<Option<StmtKind>, AllocError>
    ensures { IfOk result (λ s. act_if s ≡ calls_or_more tokens.now) }
{
    match call(alloc, tokens)? {
        Some(kind) => Ok(Some(kind)),
        None => continue_or_more(alloc, tokens),
    }
}

fn continue_or_more(alloc: Global, tokens: &[Token]) -> Result<Option<StmtKind>, AllocError>
    ensures { IfOk result (λ s. act_if s ≡ continues_or_more tokens.now) }
{
    if is_bare(alloc, b"CONTINUE", tokens)? {
        return Ok(Some(StmtKind::Continue));
    }
    stop_or_more(alloc, tokens)
}

fn stop_or_more(alloc: Global, tokens: &[Token]) -> Result<Option<StmtKind>, AllocError>
    ensures { IfOk result (λ s. act_if s ≡ stops_or_more tokens.now) }
{
    match read_stop(tokens) {
        Some(kind) => Ok(Some(kind)),
        None => return_or_more(alloc, tokens),
    }
}

fn return_or_more(alloc: Global, tokens: &[Token]) -> Result<Option<StmtKind>, AllocError>
    ensures { IfOk result (λ s. act_if s ≡ returns_or_more tokens.now) }
{
    if is_bare(alloc, b"RETURN", tokens)? {
        return Ok(Some(StmtKind::Return));
    }
    read_or_write(alloc, tokens)
}

fn read_or_write(alloc: Global, tokens: &[Token]) -> Result<Option<StmtKind>, AllocError>
    ensures { IfOk result (λ s. act_if s ≡ records_of tokens.now) }
{
    match transfer(alloc, b"READ", Way::Reading, tokens)? {
        Some(kind) => Ok(Some(kind)),
        None => transfer(alloc, b"WRITE", Way::Writing, tokens),
    }
}

fn jump(alloc: Global, tokens: &[Token]) -> Result<Option<StmtKind>, AllocError>
    ensures { IfOk result (λ s. act_if s ≡ then_if (behind_word (codes "GOTO") tokens.now) (λ rest. or_else (goto_of rest) (computed_of rest))) }
{
    match after_word(alloc, b"GOTO", tokens)? {
        None => Ok(None),
        Some(rest) => match read_goto(&rest) {
            Some(kind) => Ok(Some(kind)),
            None => read_computed(alloc, &rest),
        },
    }
}

fn sign(alloc: Global, tokens: &[Token]) -> Result<Option<StmtKind>, AllocError>
    ensures { IfOk result (λ s. act_if s ≡ then_if (behind_word (codes "IF") tokens.now) sign_of) }
{
    match after_word(alloc, b"IF", tokens)? {
        None => Ok(None),
        Some(rest) => sign_behind(alloc, &rest),
    }
}

fn sign_behind(alloc: Global, tokens: &[Token]) -> Result<Option<StmtKind>, AllocError>
    requires { length tokens.now < 2 ^ 63 }
    ensures { IfOk result (λ s. act_if s ≡ sign_of tokens.now) }
{
    match read_condition(alloc, tokens)? {
        None => Ok(None),
        Some((condition, at)) => read_signs(alloc, condition, &tokens[at..]),
    }
}

fn call(alloc: Global, tokens: &[Token]) -> Result<Option<StmtKind>, AllocError>
    ensures { IfOk result (λ s. act_if s ≡ then_if (behind_word (codes "CALL") tokens.now) call_of) }
{
    match after_word(alloc, b"CALL", tokens)? {
        None => Ok(None),
        Some(rest) => read_call(alloc, &rest),
    }
}

/// Whether the tokens are these letters alone.
fn is_bare(alloc: Global, letters: &[u8], tokens: &[Token]) -> Result<bool, AllocError>
    ensures { IfOk result (λ b. (a : Act) → if_alone b a ≡ then_if (behind_word letters.now tokens.now) (nothing_more a)) }
{
    match after_word(alloc, letters, tokens)? {
        None => Ok(false),
        Some(rest) => Ok(rest.is_empty()),
    }
}

fn transfer(
    alloc: Global,
    letters: &[u8],
    way: Way,
    tokens: &[Token],
) -> Result<Option<StmtKind>, AllocError>
    ensures { IfOk result (λ s. act_if s ≡ then_if (behind_word letters.now tokens.now) (record_of (transfer_by way))) }
{
    match after_word(alloc, letters, tokens)? {
        None => Ok(None),
        Some(rest) => read_transfer(alloc, way, &rest),
    }
}

/// A type statement, DIMENSION, COMMON, EQUIVALENCE or DATA.
fn specification(alloc: Global, tokens: &[Token]) -> Result<Option<StmtKind>, AllocError>
    ensures { IfOk result (λ s. act_if s ≡ specification_of tokens.now) }
{
    match types(alloc, b"INTEGER", TypeWord::Integer, tokens)? {
        Some(kind) => Ok(Some(kind)),
        None => match types(alloc, b"LOGICAL", TypeWord::Logical, tokens)? {
            Some(kind) => Ok(Some(kind)),
            None => real_or_more(alloc, tokens),
        },
    }
}

fn real_or_more(alloc: Global, tokens: &[Token]) -> Result<Option<StmtKind>, AllocError>
    ensures { IfOk result (λ s. act_if s ≡ reals_or_more tokens.now) }
{
    match types(alloc, b"REAL", TypeWord::Other, tokens)? {
        Some(kind) => Ok(Some(kind)),
        None => match types(alloc, b"DOUBLEPRECISION", TypeWord::Other, tokens)? {
            Some(kind) => Ok(Some(kind)),
            None => complex_or_more(alloc, tokens),
        },
    }
}

fn complex_or_more(alloc: Global, tokens: &[Token]) -> Result<Option<StmtKind>, AllocError>
    ensures { IfOk result (λ s. act_if s ≡ complexes_or_more tokens.now) }
{
    match types(alloc, b"COMPLEX", TypeWord::Other, tokens)? {
        Some(kind) => Ok(Some(kind)),
        None => match dimension(alloc, tokens)? {
            Some(kind) => Ok(Some(kind)),
            None => common_or_more(alloc, tokens),
        },
    }
}

fn common_or_more(alloc: Global, tokens: &[Token]) -> Result<Option<StmtKind>, AllocError>
    ensures { IfOk result (λ s. act_if s ≡ commons_or_more tokens.now) }
{
    match common(alloc, tokens)? {
        Some(kind) => Ok(Some(kind)),
        None => match equivalence(alloc, tokens)? {
            Some(kind) => Ok(Some(kind)),
            None => data(alloc, tokens),
        },
    }
}

fn types(
    alloc: Global,
    letters: &[u8],
    word: TypeWord,
    tokens: &[Token],
) -> Result<Option<StmtKind>, AllocError>
    ensures { IfOk result (λ s. act_if s ≡ then_if (behind_word letters.now tokens.now) (types_of word)) }
{
    match after_word(alloc, letters, tokens)? {
        None => Ok(None),
        Some(rest) => read_types(alloc, word, &rest),
    }
}

fn dimension(alloc: Global, tokens: &[Token]) -> Result<Option<StmtKind>, AllocError>
    ensures { IfOk result (λ s. act_if s ≡ then_if (behind_word (codes "DIMENSION") tokens.now) dimensions_of) }
{
    match after_word(alloc, b"DIMENSION", tokens)? {
        None => Ok(None),
        Some(rest) => read_dimension(alloc, &rest),
    }
}

fn common(alloc: Global, tokens: &[Token]) -> Result<Option<StmtKind>, AllocError>
    ensures { IfOk result (λ s. act_if s ≡ then_if (behind_word (codes "COMMON") tokens.now) commons_of) }
{
    match after_word(alloc, b"COMMON", tokens)? {
        None => Ok(None),
        Some(rest) => read_common(alloc, &rest),
    }
}

fn equivalence(alloc: Global, tokens: &[Token]) -> Result<Option<StmtKind>, AllocError>
    ensures { IfOk result (λ s. act_if s ≡ then_if (behind_word (codes "EQUIVALENCE") tokens.now) equivalences_of) }
{
    match after_word(alloc, b"EQUIVALENCE", tokens)? {
        None => Ok(None),
        Some(rest) => read_equivalence(alloc, &rest),
    }
}

fn data(alloc: Global, tokens: &[Token]) -> Result<Option<StmtKind>, AllocError>
    ensures { IfOk result (λ s. act_if s ≡ then_if (behind_word (codes "DATA") tokens.now) presets_of) }
{
    match after_word(alloc, b"DATA", tokens)? {
        None => Ok(None),
        Some(rest) => read_data(alloc, &rest),
    }
}
