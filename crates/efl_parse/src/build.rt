// What each production makes of its parts.
ghost use Rattle.std.specs.Prelude.{◌≡◌, IfOk};
ghost use Rattle.efl_parse_values.specs.Values.{value, values};
ghost use Rattle.efl_parse.specs.Build.{build as built, build_lists as lists_built, build_statements as statements_built, build_records as records_built};

use crate::phrases::build_expressions;
use efl_parse_expressions::parts::second_by;
use efl_parse_statements::{lists, procedures, records, statements};
use efl_parse_table::Production;
use efl_parse_values::{Value, more_by, no_items};
use efl_tree::{EflCase, EflName, EflProcedure, EflStmt, ReadItem, WriteItem};
use std::alloc::{AllocError, Global};

/// What a production makes of its parts. It takes those that it needs.
#[tactic(auto, unfolding(crate::specs::Build::build))]
pub fn build(
    alloc: Global,
    production: Production,
    parts: &mut Vec<Value>,
) -> Result<Value, AllocError>
    ensures { IfOk result (λ v. value v ≡ built production (values parts.old.items)) }
{
    match production {
        Production::Whole => procedures::program_by(alloc, parts),
        Production::MoreProcedures => more_by::<EflProcedure>(alloc, parts),
        Production::NoProcedure => Ok(no_items::<EflProcedure>(alloc)),
        Production::OneProcedure => procedures::procedure_by(alloc, parts),
        Production::TypedHeader => procedures::typed_header_by(alloc, parts),
        Production::PlainHeader => procedures::plain_header_by(alloc, parts),
        Production::NamedHeading => procedures::named_heading_by(alloc, parts),
        Production::MainHeading => Ok(procedures::main_heading(alloc)),
        Production::SomeFormals => Ok(second_by(parts)),
        Production::SomeNames | Production::MoreFormal => more_by::<EflName>(alloc, parts),
        Production::NoFormals | Production::NoNames | Production::NoMoreFormal => Ok(no_items::<
            EflName,
        >(alloc)),
        _ => build_lists(alloc, production, parts),
    }
}

/// What a production of a list makes, or what any of those below makes.
#[tactic(auto, unfolding(crate::specs::Build::build_lists))]
fn build_lists(
    alloc: Global,
    production: Production,
    parts: &mut Vec<Value>,
) -> Result<Value, AllocError>
    ensures { IfOk result (λ v. value v ≡ lists_built production (values parts.old.items)) }
{
    match production {
        Production::OuterImplicit => lists::implicit_by(alloc, parts),
        Production::OuterCommon => lists::common_by(alloc, parts),
        Production::OuterDeclaration | Production::InnerDeclaration => lists::declaration_by(
            alloc, parts,
        ),
        Production::OuterNamed | Production::InnerNamed => lists::opened_by(alloc, parts),
        Production::OuterStatement | Production::InnerStatement => lists::statements_by(
            alloc, parts,
        ),
        Production::OuterDone | Production::InnerDone => Ok(lists::no_lists(alloc)),
        Production::OuterVariables | Production::InnerVariables => lists::declares_by(alloc, parts),
        Production::OuterItem | Production::InnerItem => lists::begins_by(alloc, parts),
        Production::StatementsMore => more_by::<EflStmt>(alloc, parts),
        Production::StatementsDone => Ok(no_items::<EflStmt>(alloc)),
        Production::ListedNamed => lists::begun_by(alloc, parts),
        Production::StatementAct => lists::act_by(alloc, parts),
        _ => build_statements(alloc, production, parts),
    }
}

/// What a production of a statement makes, or what any of those below makes.
#[tactic(auto, unfolding(crate::specs::Build::build_statements))]
fn build_statements(
    alloc: Global,
    production: Production,
    parts: &mut Vec<Value>,
) -> Result<Value, AllocError>
    ensures { IfOk result (λ v. value v ≡ statements_built production (values parts.old.items)) }
{
    match production {
        Production::Empty => statements::empty_by(alloc, parts),
        Production::Braces => statements::braces_by(alloc, parts),
        Production::StepStatement => statements::step_by(alloc, parts),
        Production::IfStatement => statements::if_by(alloc, parts),
        Production::WhileStatement => statements::while_by(alloc, parts),
        Production::ForStatement => statements::for_by(alloc, parts),
        Production::RepeatStatement => statements::repeat_by(alloc, parts),
        Production::DoStatement => statements::do_by(alloc, parts),
        Production::SwitchStatement => statements::switch_by(alloc, parts),
        Production::LeaveStatement => statements::leave_by(alloc, parts),
        Production::ReturnStatement => statements::return_by(alloc, parts),
        Production::GotoStatement => statements::goto_by(alloc, parts),
        Production::GoToStatement => statements::go_to_by(alloc, parts),
        Production::WriteStatement => records::write_by(alloc, parts),
        Production::ReadStatement => records::read_by(alloc, parts),
        Production::UntilTest => statements::until_by(parts),
        Production::MoreClauses => more_by::<EflCase>(alloc, parts),
        Production::NoClause => Ok(no_items::<EflCase>(alloc)),
        Production::CaseClause => statements::case_by(alloc, parts),
        Production::DefaultClause => statements::default_by(alloc, parts),
        Production::MoreIntegral => more_by::<i64>(alloc, parts),
        Production::NoMoreIntegral => Ok(no_items::<i64>(alloc)),
        Production::CountFirst => statements::count_first_by(parts),
        Production::KindFirst => statements::kind_first_by(parts),
        Production::BareLeaving => Ok(statements::bare_leaving()),
        Production::NoElse
        | Production::NoUntil
        | Production::NoKind
        | Production::NoCount
        | Production::NoOutcome => Ok(Value::Nothing),
        _ => build_records(alloc, production, parts),
    }
}

/// What a production of a record makes, or what any of those below makes.
#[tactic(auto, unfolding(crate::specs::Build::build_records))]
fn build_records(
    alloc: Global,
    production: Production,
    parts: &mut Vec<Value>,
) -> Result<Value, AllocError>
    ensures { IfOk result (λ v. value v ≡ records_built production (values parts.old.items)) }
{
    match production {
        Production::MoreWrite => more_by::<WriteItem>(alloc, parts),
        Production::NoMoreWrite => Ok(no_items::<WriteItem>(alloc)),
        Production::ValueItem => records::value_item_by(alloc, parts),
        Production::SkipWrite => records::skip_write_by(alloc, parts),
        Production::CharsItem => records::chars_by(alloc, parts),
        Production::MoreRead => more_by::<ReadItem>(alloc, parts),
        Production::NoMoreRead => Ok(no_items::<ReadItem>(alloc)),
        Production::TakeItem => records::take_item_by(alloc, parts),
        Production::SkipRead => records::skip_read_by(parts),
        Production::WidthEdit => records::width_edit_by(parts),
        Production::CharEdit => Ok(records::char_edit()),
        _ => build_expressions(alloc, production, parts),
    }
}
