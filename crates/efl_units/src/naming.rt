// The names of a program, and those of its units one after another.
ghost use Rattle.std.specs.Prelude.{◌≡◌, ◌+◌, ℕ, length, IfOk, OnOk};
ghost use Rattle.f66_tree.specs.Syntax.{Text};
ghost use Rattle.efl_tree.specs.Views.{program_of};
ghost use Rattle.efl_scope.specs.Marks.{program_variables};
ghost use Rattle.efl_typed_tree.specs.Views.{stmts_of};
ghost use Rattle.efl_variables.specs.Numbered.{AreVariables};
ghost use Rattle.efl_emit.specs.Names.{callee_of, home_of, label_of, made_of, own_of};
ghost use Rattle.efl_lowered.specs.Labels.{all_labels};
ghost use Rattle.efl_naming.specs.Choice.{callee_name, home_name};
ghost use Rattle.efl_units.specs.Numbers.{label_in};

use crate::{callees, homes, labels_in};
use efl_emit::Naming;
use efl_tree::EflProgram;
use efl_typed_tree::TypedStmt;
use efl_variables::Variables;
use efl_whole::numbers_of;
use f66_tree::Name;
use ground::Text;
use std::alloc::{AllocError, Global};
use std::collections::HashMap;

/// The names of the variables and procedures of a program, before its first unit.
pub fn program_naming<'a>(
    alloc: Global,
    program: &EflProgram,
    variables: &Variables,
) -> Result<Naming<'a>, AllocError>
    ensures homes { IfOk result (λ naming. AreVariables (program_variables (program_of program.now)) variables.now → (v : ℕ) → home_of naming v ≡ home_name (program_of program.now) v) }
    ensures callees { IfOk result (λ naming. (n : ℕ) → callee_of naming n ≡ callee_name (program_of program.now) n) }
{
    let numbers = numbers_of(alloc, &program.procedures)?;
    let homes = homes(alloc, &numbers, &variables.list)?;
    let callees = callees(alloc, &program.procedures)?;
    Ok(Naming {
        homes,
        callees,
        own: Name::new(Text::empty()),
        labels: HashMap::new(alloc),
        first: 0,
    })
}

/// The unit of the procedure with this number comes: its own name, and its labels.
pub fn name_unit<'a>(
    alloc: Global,
    naming: &mut Naming<'a>,
    number: usize,
    body: &'a [TypedStmt],
) -> Result<(), AllocError>
    ensures homes { OnOk result ((v : ℕ) → home_of naming.new v ≡ home_of naming.old v) }
    ensures callees { OnOk result ((n : ℕ) → callee_of naming.new n ≡ callee_of naming.old n) }
    ensures own { OnOk result (own_of naming.new ≡ callee_of naming.old number) }
    ensures labels { OnOk result ((l : Text) → label_of naming.new l ≡ label_in (all_labels (stmts_of body.now)) l) }
    ensures made { OnOk result ((i : ℕ) → made_of naming.new i ≡ length (all_labels (stmts_of body.now)) + 1 + i) }
{
    let own = naming.callee(number)?;
    let labels = labels_in(alloc, body)?;
    let first = labels.first_free()?;
    naming.own = own;
    naming.labels = labels.table;
    naming.first = first;
    Ok(())
}
