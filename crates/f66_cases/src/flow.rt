// Units and their first faults by the rules on order, labels and DO ranges alone, worked out by hand from the standard.
ghost use Rattle.std.specs.Prelude.{◌≡◌, ◌<◌, ℕ, false};

use crate::reading::statements;
use f66_flow::{Flow, Scope, broken_rule, flow_of, header_rule};
use f66_tree::Header;
use rule_table::Rule;
use std::alloc::{AllocError, Global};
use std::process::Abort;
use std::test::Fail;

/// Units, whether the rules of order of a whole one are asked or those of one in parts, and the first fault by them. Of COMMON,
/// EQUIVALENCE and DATA the words alone stand among them.
const FLOW: &str = "
 | whole | Syntax at 0
 | part | sound
9 FORMAT; INTEGER | whole | Syntax at 0
STOP | whole | sound
INTEGER; 9 FORMAT; COMMON; EQUIVALENCE; DATA; CONTINUE; DATA; 8 FORMAT; STOP | whole | sound
CONTINUE; INTEGER; STOP | whole | Syntax at 2
DATA; DIMENSION; STOP | part | Syntax at 2
STOP; COMMON | part | Syntax at 2
CONTINUE; EQUIVALENCE; RETURN | whole | Syntax at 2
STOP; CONTINUE; 9 FORMAT | whole | Syntax at 2
STOP; CONTINUE | part | sound
10 CONTINUE; GO 10; 9 FORMAT; DATA | whole | sound
STOP; IF true ? STOP | whole | Syntax at 2
10 CONTINUE; SIGN 1, 10 10 10 | whole | sound
10 CONTINUE; SELECT I 10 10 | whole | sound
RETURN | whole | sound
0 STOP | whole | BadLabel at 1
99999 STOP | whole | sound
100000 STOP | part | BadLabel at 1
10 CONTINUE; 10 STOP | whole | BadLabel at 2
GO 10; 10 STOP | whole | sound
GO 20; 10 STOP | part | BadLabel at 1
GO 9; 9 FORMAT; STOP | whole | BadLabel at 1
SELECT I 10 20; 10 STOP | whole | BadLabel at 1
SIGN 1, 10 10 20; 10 STOP | whole | BadLabel at 1
IF true ? GO 20; 10 STOP | whole | BadLabel at 1
WRITE 6 9; READ 5 9; 9 FORMAT; STOP | whole | sound
READ 5 10; 10 STOP | whole | BadLabel at 1
IF true ? WRITE 6 9; STOP | part | BadLabel at 1
DO 10 I 1 9 1; STOP | whole | BadLabel at 1
DO 10 I 1 9 1; STOP | part | sound
DO 9 I 1 9 1; 9 FORMAT; STOP | whole | BadLabel at 1
DO 10 I 1 9 1; 10 CONTINUE; STOP | whole | sound
10 CONTINUE; DO 10 I 1 9 1; STOP | whole | DoNesting at 2
10 CONTINUE; DO 10 I 1 9 1; STOP | part | sound
10 DO 10 I 1 9 1; STOP | whole | DoNesting at 1
DO 10 I 1 9 1; 10 GO 20; 20 STOP | whole | DoNesting at 1
DO 10 I 1 9 1; 10 IF true ? STOP; STOP | whole | DoNesting at 1
DO 10 I 1 9 1; 10 DO 20 I 1 9 1; 20 CONTINUE; STOP | whole | DoNesting at 1
DO 20 I 1 9 1; DO 10 I 1 9 1; 10 CONTINUE; 20 CONTINUE; STOP | whole | sound
DO 10 I 1 9 1; DO 20 I 1 9 1; 10 CONTINUE; 20 CONTINUE; STOP | whole | DoNesting at 2
DO 10 I 1 9 1; DO 10 I 1 9 1; IF true ? GO 10; 10 CONTINUE; STOP | whole | sound
DO 10 I 1 9 1; IF true ? GO 10; DO 10 I 1 9 1; 10 CONTINUE; STOP | whole | DoNesting at 2
GO 10; DO 20 I 1 9 1; 10 CONTINUE; 20 CONTINUE; STOP | whole | DoNesting at 1
GO 10; DO 20 I 1 9 1; 10 CONTINUE; 20 CONTINUE; STOP | part | sound
DO 20 I 1 9 1; IF true ? GO 30; 20 CONTINUE; 30 STOP | whole | sound
DO 20 I 1 9 1; 10 CONTINUE; 20 CONTINUE; SELECT I 20 10 | whole | DoNesting at 4
DO 20 I 1 9 1; 10 CONTINUE; 20 CONTINUE; SIGN 1, 10 10 10 | whole | DoNesting at 4
CONTINUE; 0 INTEGER; STOP | whole | Syntax at 2
DO 10 I 1 9 1; 10 STOP; GO 99 | whole | DoNesting at 1
";

/// The first part of a unit that breaks one of these rules: 0 for its header, or a statement's number from 1.
fn first_broken(scope: Scope, header: &Header, flow: &Flow) -> Option<(usize, Rule)> {
    if let Some(rule) = header_rule(scope, header, flow) {
        return Some((0, rule));
    }
    for (i, statement) in flow.labels.statements.iter().enumerate() {
        if let Some(rule) = broken_rule(scope, header, flow, i, statement) {
            return Some((i + 1, rule));
        }
    }
    None
}

fn outcome(alloc: Global, text: &str, scope: Scope) -> Result<String, AllocError> {
    let statements = statements(alloc, text)?;
    let flow = flow_of(alloc, &statements)?;
    let header = Header::Main;
    match first_broken(scope, &header, &flow) {
        Some((number, rule)) => {
            let word = rule.kind().word();
            Ok(format!(in alloc; "{word} at {number}")?)
        }
        None => Ok("sound".to_string(alloc)?),
    }
}

fn expect(rt: &impl Abort, alloc: Global, row: &str) -> Result<(), Fail> {
    let (text, rest) = row.split_once(" | ").ok_or("no bar")?;
    let (scope, wanted) = rest.split_once(" | ").ok_or("no second bar")?;
    let scope = if scope == "whole" {
        Scope::Whole
    } else {
        Scope::Part
    };
    let found = outcome(alloc, text, scope)?;
    assert_eq!(rt; found.as_str(), wanted, "{text}");
    Ok(())
}

#[test]
fn rules_of_flow(rt: HostRuntime) -> Result<(), Fail> {
    for row in FLOW.lines() {
        if !row.is_empty() {
            expect(&rt, rt.alloc(), row)?;
        }
    }
    Ok(())
}
