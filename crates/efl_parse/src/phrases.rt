// What the productions of expressions, acts, types and declarations make of their parts.
ghost use Rattle.std.specs.Prelude.{◌≡◌, IfOk};
ghost use Rattle.efl_parse_values.specs.Values.{value, values};
ghost use Rattle.efl_parse.specs.Phrases.{build_expressions as expressions_built, build_acts as acts_built, build_types as types_built, build_declarations as declarations_built};

use efl_parse_expressions::parts::{enclosed_by, last_by, second_by, third_by};
use efl_parse_expressions::{acts, declarations, expressions, types};
use efl_parse_table::Production;
use efl_parse_values::{Value, more_by, no_items};
use efl_tree::{EflBound, EflConst, EflExpr, EflGroup, EflPreset, EflVar};
use std::alloc::{AllocError, Global};

/// What a production of an expression or place makes, or what any of those below makes.
#[tactic(auto, unfolding(crate::specs::Phrases::build_expressions))]
pub fn build_expressions(
    alloc: Global,
    production: Production,
    parts: &mut Vec<Value>,
) -> Result<Value, AllocError>
    ensures { IfOk result (λ v. value v ≡ expressions_built production (values parts.old.items)) }
{
    match production {
        Production::NamedExpr | Production::NamedPrime => acts::named_by(alloc, parts),
        Production::AtomExpr | Production::NegatedExpr => expressions::twice_joined_by(
            alloc, parts,
        ),
        Production::PrefixedExpr | Production::PrimeUnary => expressions::joined_by(alloc, parts),
        Production::Affirmed => expressions::thrice_joined_by(alloc, parts),
        Production::AfterFactor => expressions::after_factor_by(alloc, parts),
        Production::OrMore | Production::SumMore | Production::TimesMore | Production::OverMore =>
            expressions::more_joins_by(alloc, parts),
        Production::AndMore => expressions::more_bare_joins_by(alloc, parts),
        Production::Compared => expressions::one_twice_joined_by(alloc, parts),
        Production::Raised => expressions::one_join_by(alloc, parts),
        Production::OrDone
        | Production::AndDone
        | Production::NotCompared
        | Production::SumDone
        | Production::TermDone
        | Production::NotRaised => Ok(expressions::no_joins(alloc)),
        Production::Negated => expressions::negated_by(alloc, parts),
        Production::Signed => expressions::signed_by(alloc, parts),
        Production::Stepped => Ok(expressions::stepped_by(alloc, parts)),
        Production::NumberAtom => Ok(expressions::number_by(parts)),
        Production::TruthAtom => Ok(expressions::truth_by(parts)),
        Production::GroupAtom => expressions::group_by(alloc, parts),
        Production::Arguments | Production::MoreExpr => more_by::<EflExpr>(alloc, parts),
        Production::NoMoreExpr | Production::NoSubscripts => Ok(no_items::<EflExpr>(alloc)),
        Production::Place => Ok(expressions::path_by(alloc, parts)),
        Production::SomeSubscripts => Ok(second_by(parts)),
        Production::MemberStep => expressions::member_by(alloc, parts),
        Production::OverlayStep => expressions::overlay_by(alloc, parts),
        Production::NoSteps => Ok(expressions::no_steps(alloc)),
        _ => build_acts(alloc, production, parts),
    }
}

/// What a production of an act makes, or what any of those below makes.
#[tactic(auto, unfolding(crate::specs::Phrases::build_acts))]
fn build_acts(
    alloc: Global,
    production: Production,
    parts: &mut Vec<Value>,
) -> Result<Value, AllocError>
    ensures { IfOk result (λ v. value v ≡ acts_built production (values parts.old.items)) }
{
    match production {
        Production::ExprPlace | Production::DeedPlace | Production::DeedStored => Ok(acts::steps_by(
            alloc, parts,
        )),
        Production::ExprEmpty => acts::called_with_joins_by(alloc, parts),
        Production::ExprFull => Ok(acts::arguments_and_steps_by(alloc, parts)),
        Production::ExprJoined => acts::reached_with_joins_by(alloc, parts),
        Production::PrimePlace => Ok(acts::reached_by(alloc, parts)),
        Production::PrimeEmpty | Production::DeedEmpty | Production::DeedCalled => Ok(acts::called(
            alloc,
        )),
        Production::PrimeFull => Ok(acts::reached_with_arguments_by(alloc, parts)),
        Production::DeedFull => Ok(acts::arguments_by(alloc, parts)),
        Production::StepDeed => Ok(acts::step_deed_by(alloc, parts)),
        Production::PlainStoring => acts::stored_by(alloc, parts),
        Production::OperatorStoring => acts::stored_with_operator_by(alloc, parts),
        Production::NamedPart => acts::named_by(alloc, parts),
        Production::NoPart | Production::NoWhole | Production::NoStep => Ok(Value::Nothing),
        Production::Condition | Production::ActRest => Ok(second_by(parts)),
        _ => build_types(alloc, production, parts),
    }
}

/// What a production of a type or variable makes, or what any of those below makes.
#[tactic(auto, unfolding(crate::specs::Phrases::build_types))]
fn build_types(
    alloc: Global,
    production: Production,
    parts: &mut Vec<Value>,
) -> Result<Value, AllocError>
    ensures { IfOk result (λ v. value v ≡ types_built production (values parts.old.items)) }
{
    match production {
        Production::ImplicitBase | Production::ImplicitNamedShape | Production::Shape => Ok(
            second_by(parts),
        ),
        Production::ImplicitName => Ok(types::named_before_by(parts)),
        Production::ImplicitStruct | Production::StructType => Ok(types::struct_by(parts)),
        Production::ImplicitShape => Ok(types::nameless_before_by(alloc, parts)),
        Production::ImplicitStructName | Production::StructTypeName => Ok(types::type_named_by(
            parts,
        )),
        Production::ImplicitBare | Production::NoShape | Production::NoUpper => Ok(Value::Nothing),
        Production::NamedType => Ok(types::named_by(parts)),
        Production::NamelessShape => Ok(types::nameless_by(alloc, parts)),
        Production::PlainType | Production::FloatingType => Ok(types::plain_by(parts)),
        Production::LongType => Ok(types::long_by(parts)),
        Production::MoreGroups => more_by::<EflGroup>(alloc, parts),
        Production::NoGroup => Ok(no_items::<EflGroup>(alloc)),
        Production::Group => Ok(types::group_by(alloc, parts)),
        Production::Variables | Production::MoreVariable => more_by::<EflVar>(alloc, parts),
        Production::NoMoreVariable => Ok(no_items::<EflVar>(alloc)),
        Production::Variable => Ok(types::variable_by(alloc, parts)),
        Production::SomeBounds => enclosed_by::<EflBound>(alloc, parts),
        Production::MoreBound => more_by::<EflBound>(alloc, parts),
        Production::NoBounds | Production::NoMoreBound => Ok(no_items::<EflBound>(alloc)),
        Production::StarBound => Ok(types::star_bound()),
        Production::WholeBound => Ok(types::bound_by(parts)),
        Production::WholeUpper => Ok(types::upper_by(parts)),
        Production::StarUpper => Ok(types::star_upper()),
        Production::SignedIntegral => Ok(types::signed_integer_by(parts)),
        Production::PlainIntegral => Ok(types::integer_by(parts)),
        _ => build_declarations(alloc, production, parts),
    }
}

/// What a production of a declaration makes; any other gives what its last part does.
#[tactic(auto, unfolding(crate::specs::Phrases::build_declarations))]
fn build_declarations(
    alloc: Global,
    production: Production,
    parts: &mut Vec<Value>,
) -> Result<Value, AllocError>
    ensures { IfOk result (λ v. value v ≡ declarations_built production (values parts.old.items)) }
{
    match production {
        Production::BaseDeclaration => declarations::base_by(alloc, parts),
        Production::StructDeclaration => declarations::struct_by(alloc, parts),
        Production::InitialDeclaration => declarations::initial_by(alloc, parts),
        Production::ShapeVariables => declarations::shape_variables_by(alloc, parts),
        Production::StructNamed => declarations::struct_named_by(alloc, parts),
        Production::StructVariables => Ok(declarations::struct_variables_by(alloc, parts)),
        Production::StructShape => Ok(declarations::struct_shape_by(alloc, parts)),
        Production::ShapeAndVariables => Ok(second_by(parts)),
        Production::ShapeAlone => Ok(no_items::<EflVar>(alloc)),
        Production::CommonList => Ok(third_by(parts)),
        Production::Range => Ok(declarations::range_by(parts)),
        Production::NoEnd | Production::Once => Ok(Value::Nothing),
        Production::MoreRange => more_by::<(u8, u8)>(alloc, parts),
        Production::NoMoreRange => Ok(no_items::<(u8, u8)>(alloc)),
        Production::Preset => declarations::preset_by(alloc, parts),
        Production::OneValue => declarations::one_value_by(alloc, parts),
        Production::ListedValues => declarations::listed_values_by(alloc, parts),
        Production::MorePreset => more_by::<EflPreset>(alloc, parts),
        Production::NoMorePreset => Ok(no_items::<EflPreset>(alloc)),
        Production::NumberMany => Ok(declarations::number_datum_by(parts)),
        Production::OtherMany => Ok(declarations::other_datum_by(parts)),
        Production::MoreMany => more_by::<(u32, EflConst)>(alloc, parts),
        Production::NoMoreMany => Ok(no_items::<(u32, EflConst)>(alloc)),
        Production::NumberConstant => Ok(declarations::number_constant_by(parts)),
        Production::SignedConstant => Ok(declarations::signed_constant_by(parts)),
        Production::TruthConstant => Ok(declarations::truth_constant_by(parts)),
        _ => Ok(last_by(parts)),
    }
}
