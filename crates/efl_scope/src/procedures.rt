// The first fault of a procedure.
ghost use Rattle.std.specs.Prelude.{◌≡◌, OnOk, IfOk, map};
ghost use Rattle.efl_tree.specs.Views.{type_of, type_if_any, procedure_of};
ghost use Rattle.rule_table.specs.Words.{is_some_and};
ghost use Rattle.efl_scope.specs.ScopeRules.{is_out as is_out_seen, no_name};
ghost use Rattle.efl_scope.specs.Sights.{rule_of_header, header_type_seen, procedure_seen};
ghost use Rattle.efl_scope.specs.AreaViews.{agreeing_of};
ghost use Rattle.efl_scope.specs.NameViews.{names_in};
ghost use Rattle.efl_scope.specs.WalkViews.{walk_of};

use crate::{
    Areas, Blocks, Declared, Kinds, Loops, NameChain, NameSet, ScopeRule, Walk, declare_formals,
    is_out, or_rule, see_block_declarations, see_list_of, see_type,
};
use efl_tree::{EflProcedure, EflType};
use ground::Fault;
use std::alloc::{AllocError, Global};

/// The first fault of a procedure, where these areas agree.
pub fn procedure_fault(
    alloc: Global,
    agreeing: &Areas,
    procedure: &EflProcedure,
) -> Result<Option<Fault>, AllocError>
    ensures { IfOk result (λ fault. fault ≡ (procedure_seen (agreeing_of agreeing.now) (procedure_of procedure.now)).fault) }
{
    let mut formals = Declared::new(alloc);
    declare_formals(&procedure.formals, &mut formals)?;
    let mut walk = Walk::new(alloc);
    walk.note(
        procedure.place,
        header_rule(&procedure.result, formals.again),
    );
    see_header_type(alloc, &procedure.result, &mut walk)?;
    let others = NameChain::Inside(&formals.names, &NameChain::Outside);
    let kinds = see_block_declarations(
        alloc,
        agreeing,
        &others,
        &procedure.declarations,
        Kinds::new(alloc),
        &Blocks::Outside,
        &mut walk,
    )?;
    let known = Blocks::Inside(&kinds, &Blocks::Outside);
    see_list_of(
        alloc,
        agreeing,
        &procedure.body,
        &known,
        &NameChain::Outside,
        &Loops::Outside,
        &mut walk,
    )?;
    Ok(walk.fault)
}

/// What a header with this type breaks, of which it is known whether a formal stands again.
fn header_rule(kind: &Option<EflType>, again: bool) -> Option<ScopeRule>
    ensures { result ≡ rule_of_header (type_if_any kind.now) again }
{
    let out = or_rule(None, names_out(kind), ScopeRule::OutOfProfileType);
    or_rule(out, again, ScopeRule::DuplicateName)
}

fn names_out(kind: &Option<EflType>) -> bool
    ensures { result ≡ is_some_and (is_out_seen no_name) (type_if_any kind.now) }
{
    match kind {
        None => false,
        Some(kind) => is_out(kind, &Blocks::Outside),
    }
}

/// The groups of a header's type, whose structures are names of no block.
fn see_header_type<'a>(
    alloc: Global,
    kind: &'a Option<EflType>,
    walk: &mut Walk<'a>,
) -> Result<(), AllocError>
    ensures { OnOk result (walk_of walk.new ≡ header_type_seen (type_if_any kind.now) (walk_of walk.old)) }
{
    match kind {
        None => Ok(()),
        Some(kind) => {
            let mut kinds = Kinds::new(alloc);
            see_type(alloc, false, kind, &mut kinds, &Blocks::Outside, walk)
        }
    }
}
