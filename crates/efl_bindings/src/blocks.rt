// The variables that a block declares.
ghost use Rattle.std.specs.Prelude.{◌≡◌, true, IfOk, OnOk};
ghost use Rattle.efl_tree.specs.Views.{type_of, vars_of, decls_of, decl_kind_of};
ghost use Rattle.efl_scope.specs.DataTypes.{Scalar as ScalarType};
ghost use Rattle.efl_scope.specs.Scopes.{Blocks, data_type};
ghost use Rattle.efl_built.specs.Unbuilt.{is_plain};
ghost use Rattle.efl_bindings.specs.Sites.{OpensTo};
ghost use Rattle.efl_bindings.specs.Declarations.{AreDeclared, Declares, DeclaresAll};

use crate::homes::Home;
use crate::{Site, Table};
use efl_tree::{EflDecl, EflDeclKind, EflType, EflVar};
use efl_typed_tree::Scalar;
use ground::Kind;
use std::alloc::{AllocError, Global};

/// The variables of the block of these declarations, which stands at a site.
pub fn block_table<'a>(
    alloc: Global,
    declarations: &'a [EflDecl],
    site: &Site,
) -> Result<Table<'a>, AllocError>
    ensures { IfOk result (λ table. OpensTo (decls_of declarations.now) site.now table) }
{
    let home = Home {
        unit: site.unit,
        place: site.place,
        variables: site.variables,
    };
    declared_table(alloc, declarations, &home)
}

/// The variables of declarations.
pub fn declared_table<'a>(
    alloc: Global,
    list: &'a [EflDecl],
    home: &Home,
) -> Result<Table<'a>, AllocError>
    ensures { IfOk result (λ table. AreDeclared home.now (decls_of list.now) table) }
{
    let mut table = Table::new(alloc);
    for declaration in list {
        declare(&declaration.kind, home, &mut table)?;
    }
    Ok(table)
}

fn declare<'a>(kind: &'a EflDeclKind, home: &Home, table: &mut Table<'a>) -> Result<(), AllocError>
    ensures { OnOk result (Declares home.now table.old (decl_kind_of kind.now) table.new) }
{
    match kind {
        EflDeclKind::Variables(_, kind, list) => declare_all(list, plain_kind(kind), home, table),
        _ => Ok(()),
    }
}

/// Scalars of one type come.
fn declare_all<'a>(
    list: &'a [EflVar],
    kind: Kind,
    home: &Home,
    table: &mut Table<'a>,
) -> Result<(), AllocError>
    ensures { OnOk result (DeclaresAll home.now kind table.old (vars_of list.now) table.new) }
{
    for variable in list {
        let name = variable.name.as_bytes();
        let scalar = Scalar {
            variable: home.number(name),
            kind,
        };
        table.declare(name, scalar)?;
    }
    Ok(())
}

/// The type that `integer` or `logical` gives.
pub fn plain_kind(kind: &EflType) -> Kind
    ensures { (bs : Blocks) → is_plain (type_of kind.now) ≡ true → data_type bs (type_of kind.now) ≡ ScalarType result }
{
    match kind {
        EflType::Logical => Kind::Logical,
        _ => Kind::Integer,
    }
}
