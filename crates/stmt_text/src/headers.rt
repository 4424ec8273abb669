// The texts of headers.
ghost use Rattle.std.specs.Prelude.{◌≡◌, ◌∷◌, ◌≤◌, length, IsSome, IfSome, ◌↔◌};
ghost use Rattle.f66_tree.specs.Syntax.{FuncUnit, SubUnit};
ghost use Rattle.f66_tree.specs.Views.{header_of};
ghost use Rattle.stmt_text.specs.Emitting.{Emits};
ghost use Rattle.stmt_text.specs.Characters.{opening, closing};
ghost use Rattle.stmt_text.specs.Texts.{commas, header_text as text_of_header, header_then, in_parentheses, name_text, result_text};

use crate::lists::{push_names, type_word};
use crate::writer::{StatementText, push, push_all};
use f66_tree::{Header, Name, TypeWord};

/// The text of a header, which is empty for a main, unless it passes twenty cards.
pub fn header_text(header: &Header) -> Option<StatementText>
    ensures fits { IsSome result ↔ (length (text_of_header (header_of header.now)) ≤ 1320) }
    ensures text { IfSome result (λ text. text.items ≡ text_of_header (header_of header.now)) }
{
    let mut text = StatementText::new();
    push_header(&mut text, header)?;
    prove!(text.len() <= 1320);
    Some(text)
}

fn push_header(out: &mut StatementText, header: &Header) -> Option<()>
    ensures { Emits result out.old.items out.new.items (header_then (header_of header.now)) }
{
    match header {
        Header::Main => Some(()),
        Header::Sub(name, dummies) => push_subroutine(out, name, dummies),
        Header::Func(word, name, dummies) => push_function(out, *word, name, dummies),
        Header::Block => push_all(out, b"BLOCK DATA"),
    }
}

fn push_subroutine(out: &mut StatementText, name: &Name, dummies: &[Name]) -> Option<()>
    ensures { Emits result out.old.items out.new.items (header_then (SubUnit name.now dummies.now)) }
{
    push_all(out, b"SUBROUTINE ")?;
    push_all(out, name.as_bytes())?;
    push_dummies(out, dummies)
}

/// The dummies of a subroutine in parentheses, where there are any.
fn push_dummies(out: &mut StatementText, list: &[Name]) -> Option<()>
    ensures { Emits result out.old.items out.new.items (in_parentheses name_text list.now) }
{
    if list.is_empty() {
        return Some(());
    }
    push_enclosed_names(out, list)
}

fn push_enclosed_names(out: &mut StatementText, list: &[Name]) -> Option<()>
    ensures { Emits result out.old.items out.new.items (λ k. opening ∷ commas name_text list.now (closing ∷ k)) }
{
    push(out, b'(')?;
    push_names(out, list)?;
    push(out, b')')
}

fn push_function(
    out: &mut StatementText,
    word: Option<TypeWord>,
    name: &Name,
    dummies: &[Name],
) -> Option<()>
    ensures { Emits result out.old.items out.new.items (header_then (FuncUnit word name.now dummies.now)) }
{
    push_result(out, word)?;
    push_all(out, b"FUNCTION ")?;
    push_all(out, name.as_bytes())?;
    push_enclosed_names(out, dummies)
}

fn push_result(out: &mut StatementText, word: Option<TypeWord>) -> Option<()>
    ensures { Emits result out.old.items out.new.items (result_text word) }
{
    match word {
        None => Some(()),
        Some(word) => push_all(out, type_word(word)),
    }
}
