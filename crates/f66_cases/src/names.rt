// The rules of names for one statement, also where it has a form that is not built, and names that no source has.

use crate::reading::statements;
use f66_names::Saying;
use f66_tree::{Header, Stmt};
use ground::Text;
use name_alloc::Names;
use rule_table::Rule;
use std::alloc::{AllocError, Global};
use std::process::Abort;
use std::test::Fail;
use unit_rules::{broken_rule, unit_names_of};

/// The rule that the last of some statements breaks.
fn rule_of_last(alloc: Global, statements: &[Stmt]) -> Result<Option<Rule>, AllocError> {
    let header = Header::Main;
    let mut sayings = Vec::new(alloc);
    for statement in statements {
        sayings.push(Saying::Act(&statement.kind))?;
    }
    let names = unit_names_of(alloc, &header, &sayings)?;
    match statements.split_last() {
        Some((last, before)) => broken_rule(
            alloc,
            &names,
            before.len(),
            &last.kind,
            &mut Vec::new(alloc),
        ),
        None => Ok(None),
    }
}

fn outcome(alloc: Global, text: &str) -> Result<&'static str, AllocError> {
    let statements = statements(alloc, text)?;
    let rule = rule_of_last(alloc, &statements)?;
    match rule {
        Some(rule) => Ok(rule.kind().word()),
        None => Ok("sound"),
    }
}

#[test]
fn rules_of_names(rt: HostRuntime) -> Result<(), Fail> {
    for (text, wanted) in [
        ("SET I, 1 RATHERLONG@1", "NameTooLong"),
        ("DIMENSION K 3; SET K, true", "NotAssignable"),
        ("SET I, J 1 +", "sound"),
    ] {
        let found = outcome(rt.alloc(), text)?;
        assert_eq!(rt; found, wanted, "{text}");
    }
    Ok(())
}

/// A name that stands for one of the source.
fn expect_name(
    rt: &impl Abort,
    alloc: Global,
    names: &mut Names,
    source: &str,
    wanted: &str,
) -> Result<(), Fail> {
    let source = Text::from_slice(alloc, source.as_bytes())?;
    assert!(rt; names.made() < 10, "few made");
    assert!(rt; names.taken() < 10, "few taken");
    let name = names.keep_or_rename(&source).ok().ok_or("memory")?;
    assert!(rt; name.as_bytes() == wanted.as_bytes(), "{wanted}");
    Ok(())
}

// The made names were counted by hand.
#[test]
fn free_names(rt: HostRuntime) -> Result<(), Fail> {
    let mut names = Names::new(rt.alloc());
    for (source, wanted) in [
        ("K", "K"),
        ("Z00001", "Z00001"),
        ("MOD", "Z00002"),
        ("K", "Z00003"),
        ("SEVENTH", "Z00004"),
    ] {
        expect_name(&rt, rt.alloc(), &mut names, source, wanted)?;
    }
    Ok(())
}
