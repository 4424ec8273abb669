// What a walk over a procedure has seen so far.
ghost use Rattle.std.specs.Prelude.{◌≡◌, OnOk};
ghost use Rattle.efl_tree.specs.Views.{decl_kind_of};
ghost use Rattle.efl_scope.specs.ScopeRules.{area_of};
ghost use Rattle.efl_scope.specs.Sights.{noting, or_rule as or_rule_of, starting, with_area, with_labels, fault_if};
ghost use Rattle.efl_scope.specs.WalkViews.{walk_of};

use crate::{Declared, NameSet, ScopeRule, declare_labels};
use efl_tree::EflDeclKind;
use ground::{Fault, Place, Text};
use std::alloc::{AllocError, Global};

/// What a walk over a procedure has seen so far.
#[derive(Drop)]
pub struct Walk<'a> {
    pub labels: Declared<'a>,
    /// The areas that it has declared.
    pub areas: NameSet<'a>,
    /// The first fault.
    pub fault: Option<Fault>,
}

impl<'a> Walk<'a> {
    /// Before the first part. It takes no memory.
    pub fn new(alloc: Global) -> Walk<'a>
        ensures { walk_of result ≡ starting }
    {
        Walk {
            labels: Declared::new(alloc),
            areas: NameSet::new(alloc),
            fault: None,
        }
    }

    /// A part breaks this rule first, or none.
    pub fn note(&mut self, place: Place, rule: Option<ScopeRule>)
        ensures { walk_of self.new ≡ noting place rule (walk_of self.old) }
    {
        if self.fault.is_none() {
            self.fault = fault_if_any(place, rule);
        }
    }

    /// The labels of a statement come.
    pub fn take_labels(&mut self, labels: &'a [Text]) -> Result<(), AllocError>
        ensures { OnOk result (walk_of self.new ≡ with_labels labels.now (walk_of self.old)) }
    {
        self.labels.again = false;
        declare_labels(labels, &mut self.labels)
    }

    /// A declaration comes, in an area where it names one.
    pub fn take_area(&mut self, kind: &'a EflDeclKind) -> Result<(), AllocError>
        ensures { OnOk result (walk_of self.new ≡ with_area (area_of (decl_kind_of kind.now)) (walk_of self.old)) }
    {
        match kind {
            EflDeclKind::Variables(Some(area), _, _) => self.areas.insert(area.as_bytes()),
            EflDeclKind::Area(area, _) => self.areas.insert(area.as_bytes()),
            _ => Ok(()),
        }
    }
}

fn fault_if_any(place: Place, rule: Option<ScopeRule>) -> Option<Fault>
    ensures { result ≡ fault_if place rule }
{
    match rule {
        None => None,
        Some(rule) => Some(Fault {
            kind: rule.kind(),
            place,
            number: 0,
        }),
    }
}

/// A rule that is broken, where none before it is.
pub fn or_rule(before: Option<ScopeRule>, broken: bool, rule: ScopeRule) -> Option<ScopeRule>
    ensures { result ≡ or_rule_of before broken rule }
{
    match before {
        Some(first) => Some(first),
        None if broken => Some(rule),
        None => None,
    }
}
