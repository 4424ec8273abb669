// Whether the statements of a list need a name for the values of switches.
ghost use Rattle.std.specs.Prelude.{◌≡◌};
ghost use Rattle.rat_tree.specs.Views.{command, commands};
ghost use Rattle.rat_lower.specs.Code.{has_switch, have_switch};

use rat_tree::{RatKind, RatStmt};

/// Whether a switch stands in a list.
#[cycle(switch)]
pub fn have_switch(list: &[RatStmt]) -> bool
    ensures { result ≡ have_switch (commands list.now) }
{
    for statement in list {
        if has_switch(statement) {
            return true;
        }
    }
    false
}

#[cycle(switch)]
fn has_switch(statement: &RatStmt) -> bool
    ensures { result ≡ has_switch (command statement.now) }
{
    match &statement.kind {
        RatKind::Block(list) => have_switch(list),
        RatKind::If(_, body, Some(other)) => has_switch(body) || has_switch(other),
        RatKind::If(_, body, None)
        | RatKind::While(_, body)
        | RatKind::For(_, body)
        | RatKind::Repeat(body, _)
        | RatKind::Do(_, body) => has_switch(body),
        RatKind::Switch(_, _) => true,
        RatKind::Empty
        | RatKind::Break(_)
        | RatKind::Next(_)
        | RatKind::Return(_)
        | RatKind::Plain(_) => false,
    }
}
