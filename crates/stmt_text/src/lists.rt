// The texts of lists, with commas between their members.
ghost use Rattle.std.specs.Prelude.{◌≡◌, ◌∷◌, map};
ghost use Rattle.f66_tree.specs.Views.{declared_of, par_of};
ghost use Rattle.stmt_text.specs.Emitting.{Emits};
ghost use Rattle.stmt_text.specs.Characters.{opening, closing};
ghost use Rattle.stmt_text.specs.Texts.{commas, declared_text, in_parentheses, is_one as is_step_one, label_text, member, loop_text, name_text, par_text, step_text, type_text};

use crate::writer::{StatementText, push, push_all, push_number};
use f66_tree::{Declared, Name, Par, TypeWord};

/// Adds labels.
pub fn push_labels(out: &mut StatementText, list: &[u32]) -> Option<()>
    ensures { Emits result out.old.items out.new.items (commas label_text list.now) }
{
    for (i, label) in list.iter().enumerate() {
        push_label_member(out, i, label)?;
    }
    Some(())
}

fn push_label_member(out: &mut StatementText, i: usize, label: &u32) -> Option<()>
    ensures { Emits result out.old.items out.new.items (λ k. member i (label_text label.now k)) }
{
    push_separator(out, i)?;
    push_number(out, u64::from(*label))
}

fn push_par_member(out: &mut StatementText, i: usize, par: &Par) -> Option<()>
    ensures { Emits result out.old.items out.new.items (λ k. member i (par_text (par_of par.now) k)) }
{
    push_separator(out, i)?;
    push_par(out, par)
}

/// Adds a comma before each member but the first.
pub fn push_separator(out: &mut StatementText, i: usize) -> Option<()>
    ensures { Emits result out.old.items out.new.items (member i) }
{
    if i == 0 { Some(()) } else { push(out, b',') }
}

/// Adds a constant or a name.
pub fn push_par(out: &mut StatementText, par: &Par) -> Option<()>
    ensures { Emits result out.old.items out.new.items (par_text (par_of par.now)) }
{
    match par {
        Par::Number(n) => push_number(out, n.unsigned_abs()),
        Par::Variable(name) => push_all(out, name.as_bytes()),
    }
}

fn push_pars(out: &mut StatementText, list: &[Par]) -> Option<()>
    ensures { Emits result out.old.items out.new.items (commas par_text (map par_of list.now)) }
{
    for (i, par) in list.iter().enumerate() {
        push_par_member(out, i, par)?;
    }
    Some(())
}

fn push_enclosed(out: &mut StatementText, list: &[Par]) -> Option<()>
    ensures { Emits result out.old.items out.new.items (λ k. opening ∷ commas par_text (map par_of list.now) (closing ∷ k)) }
{
    push(out, b'(')?;
    push_pars(out, list)?;
    push(out, b')')
}

/// Adds dimensions in parentheses, where there are any.
fn push_sizes(out: &mut StatementText, list: &[Par]) -> Option<()>
    ensures { Emits result out.old.items out.new.items (in_parentheses par_text (map par_of list.now)) }
{
    if list.is_empty() {
        return Some(());
    }
    push_enclosed(out, list)
}

fn is_one(par: &Par) -> bool
    ensures { result ≡ is_step_one (par_of par.now) }
{
    match par {
        Par::Number(n) => *n == 1,
        Par::Variable(_) => false,
    }
}

/// The step of a DO, which is left out where it is 1.
fn push_step(out: &mut StatementText, step: &Par) -> Option<()>
    ensures { Emits result out.old.items out.new.items (step_text (par_of step.now)) }
{
    if is_one(step) {
        return Some(());
    }
    push(out, b',')?;
    push_par(out, step)
}

/// Adds v=a,b or v=a,b,c.
pub fn push_loop(
    out: &mut StatementText,
    variable: &Name,
    first: &Par,
    last: &Par,
    step: &Par,
) -> Option<()>
    ensures { Emits result out.old.items out.new.items (loop_text variable.now (par_of first.now) (par_of last.now) (par_of step.now)) }
{
    push_all(out, variable.as_bytes())?;
    push(out, b'=')?;
    push_par(out, first)?;
    push(out, b',')?;
    push_par(out, last)?;
    push_step(out, step)
}

/// Adds names.
pub fn push_names(out: &mut StatementText, list: &[Name]) -> Option<()>
    ensures { Emits result out.old.items out.new.items (commas name_text list.now) }
{
    for (i, name) in list.iter().enumerate() {
        push_name_member(out, i, name)?;
    }
    Some(())
}

fn push_name_member(out: &mut StatementText, i: usize, name: &Name) -> Option<()>
    ensures { Emits result out.old.items out.new.items (λ k. member i (name_text name.now k)) }
{
    push_separator(out, i)?;
    push_all(out, name.as_bytes())
}

fn push_declared(out: &mut StatementText, declared: &Declared) -> Option<()>
    ensures { Emits result out.old.items out.new.items (declared_text (declared_of declared.now)) }
{
    push_all(out, declared.name.as_bytes())?;
    push_sizes(out, &declared.sizes)
}

fn push_declared_member(out: &mut StatementText, i: usize, declared: &Declared) -> Option<()>
    ensures { Emits result out.old.items out.new.items (λ k. member i (declared_text (declared_of declared.now) k)) }
{
    push_separator(out, i)?;
    push_declared(out, declared)
}

/// Adds names with their dimensions.
pub fn push_declarations(out: &mut StatementText, list: &[Declared]) -> Option<()>
    ensures { Emits result out.old.items out.new.items (commas declared_text (map declared_of list.now)) }
{
    for (i, declared) in list.iter().enumerate() {
        push_declared_member(out, i, declared)?;
    }
    Some(())
}

/// The word of a type, with its blank.
pub fn type_word(word: TypeWord) -> &'static [u8]
    ensures { result.now ≡ type_text word }
{
    match word {
        TypeWord::Integer => b"INTEGER ",
        TypeWord::Logical => b"LOGICAL ",
        TypeWord::Other => b"REAL ",
    }
}
