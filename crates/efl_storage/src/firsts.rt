// The first procedure of each common area.
ghost use Rattle.std.specs.Prelude.{◌≡◌, List, Some, None, map, option_map, IfOk, OnOk};
ghost use Rattle.std.specs.List.{list_any};
ghost use Rattle.std.specs.Option.{option_or};
ghost use Rattle.std.specs.Str.{bytes_eq};
ghost use Rattle.rule_table.specs.Words.{is_some_and};
ghost use Rattle.efl_tree.specs.Syntax.{Text as Word, EflProcedure as ProcedureSeen};
ghost use Rattle.efl_tree.specs.Views.{decls_of, decl_kind_of, procedure_of};
ghost use Rattle.efl_scope.specs.ScopeRules.{is_of, area_of as area_seen};
ghost use Rattle.efl_types.specs.Storage.{is_first_of};
ghost use Rattle.efl_storage.specs.Firsts.{first_in, first_if, AreFirsts};

use efl_tree::{EflDecl, EflDeclKind, EflProcedure};
use std::alloc::{AllocError, Global};
use std::collections::HashMap;

/// The number of the first procedure of each area. Contracts see by `AreFirsts` of which procedures.
#[derive(Drop)]
pub struct Firsts<'a> {
    pub table: HashMap<&'a [u8], usize>,
}

impl<'a> Firsts<'a> {
    /// Whether a procedure is the first with the area of a variable, or the variable is in none.
    pub fn is_first(&self, unit: usize, area: Option<&[u8]>) -> bool
        ensures { (us : List ProcedureSeen) → AreFirsts us self.now → result ≡ is_first_of us unit (option_map (λ q. q.now) area.entry) }
    {
        match area {
            None => true,
            Some(area) => match self.table.get(area) {
                None => false,
                Some(first) => *first == unit,
            },
        }
    }

    fn note(&mut self, unit: usize, area: &'a [u8]) -> Result<(), AllocError>
        ensures { OnOk result ((q : Word) → first_in self.new q ≡ option_or (first_in self.old q) (first_if (bytes_eq q area.now) unit)) }
    {
        if !self.table.contains_key(area) {
            self.table.insert(area, unit)?;
        }
        Ok(())
    }

    fn note_if_any(&mut self, unit: usize, area: Option<&'a [u8]>) -> Result<(), AllocError>
        ensures { OnOk result ((q : Word) →
            first_in self.new q ≡ option_or (first_in self.old q) (first_if (is_some_and (bytes_eq q) (option_map (λ x. x.now) area.entry)) unit)) }
    {
        match area {
            None => Ok(()),
            Some(area) => self.note(unit, area),
        }
    }
}

/// The first procedure of each area of a program.
pub fn first_areas<'a>(
    alloc: Global,
    procedures: &'a [EflProcedure],
) -> Result<Firsts<'a>, AllocError>
    ensures { IfOk result (λ firsts. AreFirsts (map procedure_of procedures.now) firsts) }
{
    let mut firsts = Firsts {
        table: HashMap::new(alloc),
    };
    for (unit, procedure) in procedures.iter().enumerate() {
        note_areas(unit, &procedure.declarations, &mut firsts)?;
    }
    Ok(firsts)
}

fn note_areas<'a>(
    unit: usize,
    declarations: &'a [EflDecl],
    firsts: &mut Firsts<'a>,
) -> Result<(), AllocError>
    ensures { OnOk result ((q : Word) →
        first_in firsts.new q ≡ option_or (first_in firsts.old q) (first_if (list_any (λ d. is_of q d.kind) (decls_of declarations.now)) unit)) }
{
    for declaration in declarations {
        firsts.note_if_any(unit, area_of(&declaration.kind))?;
    }
    Ok(())
}

/// The area of a declaration.
fn area_of(kind: &EflDeclKind) -> Option<&[u8]>
    ensures { option_map (λ q. q.now) result ≡ area_seen (decl_kind_of kind.now) }
{
    match kind {
        EflDeclKind::Variables(Some(area), _, _) => Some(area.as_bytes()),
        EflDeclKind::Area(area, _) => Some(area.as_bytes()),
        _ => None,
    }
}
