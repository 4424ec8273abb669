// The labelled common blocks of a unit.
ghost use Rattle.std.specs.Prelude.{◌≡◌, ◌||◌, ℕ, List, OnOk, IfOk, Some, map};
ghost use Rattle.std.specs.List.{list_any};
ghost use Rattle.f66_tree.specs.Views.{act_of, area_of, line_of, routine_of};
ghost use Rattle.f66_program.specs.Association.{same_block};
ghost use Rattle.f66_program.specs.Linking.{names_block};
ghost use Rattle.storage_assoc.specs.Listings.{IsListing, has_name};

use crate::listing::{Listing, list_name, no_names};
use f66_tree::{Area, Stmt, StmtKind};
use std::alloc::{AllocError, Global};

/// The names of the labelled common blocks that statements name, numbered from 1 on (X3.9-1966, section 7.2.1.3).
pub(crate) fn labels_of<'a>(
    alloc: Global,
    statements: &'a [Stmt],
) -> Result<Listing<'a>, AllocError>
    ensures listing { IfOk result (λ l. IsListing 1 l) }
    ensures listed { IfOk result (λ l. (q : List ℕ) → has_name l q ≡ list_any (λ s. names_block (Some q) s.act) (map line_of statements.now)) }
{
    let mut labels = no_names(alloc);
    add_labels(&mut labels, statements)?;
    Ok(labels)
}

/// Lists the labels of the blocks that statements name, behind those that are listed.
pub fn add_labels<'a>(labels: &mut Listing<'a>, statements: &'a [Stmt]) -> Result<(), AllocError>
    requires { IsListing 1 labels.old }
    ensures listing { OnOk result (IsListing 1 labels.new) }
    ensures listed { OnOk result ((q : List ℕ) → has_name labels.new q ≡ (has_name labels.old q || list_any (λ s. names_block (Some q) s.act) (map line_of statements.now))) }
{
    for statement in statements {
        list_labels(labels, &statement.kind)?;
    }
    Ok(())
}

/// Lists the labels of the blocks that a statement names.
fn list_labels<'a>(labels: &mut Listing<'a>, kind: &'a StmtKind) -> Result<(), AllocError>
    requires { IsListing 1 labels.old }
    ensures listing { OnOk result (IsListing 1 labels.new) }
    ensures listed { OnOk result ((q : List ℕ) → has_name labels.new q ≡ (has_name labels.old q || names_block (Some q) (act_of kind.now))) }
{
    match kind {
        StmtKind::Common(areas) => list_areas(labels, areas),
        _ => Ok(()),
    }
}

fn list_areas<'a>(labels: &mut Listing<'a>, areas: &'a [Area]) -> Result<(), AllocError>
    requires { IsListing 1 labels.old }
    ensures listing { OnOk result (IsListing 1 labels.new) }
    ensures listed { OnOk result ((q : List ℕ) → has_name labels.new q
        ≡ (has_name labels.old q || list_any (λ a. same_block (Some q) a.name) (map area_of areas.now))) }
{
    for area in areas {
        list_area(labels, area)?;
    }
    Ok(())
}

fn list_area<'a>(labels: &mut Listing<'a>, area: &'a Area) -> Result<(), AllocError>
    requires { IsListing 1 labels.old }
    ensures listing { OnOk result (IsListing 1 labels.new) }
    ensures listed { OnOk result ((q : List ℕ) → has_name labels.new q ≡ (has_name labels.old q || same_block (Some q) area.now.name)) }
{
    match &area.name {
        Some(name) => list_name(1, labels, name.as_bytes()),
        None => Ok(()),
    }
}
