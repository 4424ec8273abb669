// What the productions of lists make, and of statements that begin with a name.
ghost use Rattle.std.specs.Prelude.{◌≡◌, ◌∷◌, [], None, reverse, IfOk};
ghost use Rattle.efl_tree.specs.Syntax.{Implicit, Variables, Named, AndStmt, NoStmt};
ghost use Rattle.efl_tree.specs.Views.{decl_kind_of, decl_of, decls_of, vars_of, stmt_of, stmts_of};
ghost use Rattle.efl_parse_values.specs.Kinds.{Declares};
ghost use Rattle.efl_parse_values.specs.Values.{value, values, at, stmt, lists, opening, opening_of, rest_of};
ghost use Rattle.efl_parse_values.specs.Parts.{place_in, name_in, type_in, range_in, as_ranges, as_vars, decl_in, as_stmt, as_stmts, decls_in, body_in};
ghost use Rattle.efl_parse_statements.specs.Lists.{shared as shared_so, with_label, acted, begun as begun_so, begins, opened as opened_so, opened_by as opened_so_by};

use efl_parse_expressions::acts::complete;
use efl_parse_values::{
    Item, Lists, Opening, Rest, StatementValue, TypeValue, Value, into_decl, into_lists, into_rest,
    into_statement, into_type, into_word, more_by, ordered, place_of, pop_value, skip, take_place,
};
use efl_tree::{EflDecl, EflDeclKind, EflGroup, EflKind, EflName, EflStmt, EflType, EflVar};
use ground::{List, Place, Text};
use std::alloc::{AllocError, Global};

fn lists_value(part: Lists) -> Value
    ensures { value result ≡ lists (decls_of (reverse part.declarations.items)) (stmts_of (reverse part.body.items)) }
{
    Value::Statement(StatementValue::Lists(part))
}

/// Lists with nothing in them.
pub fn no_lists(alloc: Global) -> Value
    ensures { value result ≡ lists [] NoStmt }
{
    lists_value(Lists {
        declarations: Vec::new(alloc),
        body: Vec::new(alloc),
    })
}

/// Lists with one more declaration in front.
fn more_declarations(first: EflDecl, mut rest: Lists) -> Result<Value, AllocError>
    ensures { IfOk result (λ v. value v ≡ lists (decl_of first ∷ decls_of (reverse rest.declarations.items)) (stmts_of (reverse rest.body.items))) }
{
    rest.declarations.push(first)?;
    Ok(lists_value(rest))
}

/// Statements with one more in front, and no declarations.
fn only_statements(
    alloc: Global,
    first: EflStmt,
    mut body: Vec<EflStmt>,
) -> Result<Value, AllocError>
    ensures { IfOk result (λ v. value v ≡ lists [] (AndStmt (stmt_of first) (stmts_of (reverse body.items)))) }
{
    body.push(first)?;
    let declarations = Vec::new(alloc);
    Ok(lists_value(Lists { declarations, body }))
}

pub fn statements_by(alloc: Global, parts: &mut Vec<Value>) -> Result<Value, AllocError>
    ensures { IfOk result (λ v. value v ≡ lists [] (AndStmt (as_stmt (at 1 (values parts.old.items))) (as_stmts (at 0 (values parts.old.items))))) }
{
    let body = EflStmt::into_list(alloc, pop_value(parts));
    let first = into_statement(alloc, pop_value(parts));
    only_statements(alloc, first, body)
}

fn declaration(alloc: Global, part: Value) -> EflDecl
    ensures { decl_of result ≡ record { kind = decl_in (value part); place = place_in (value part) } }
{
    let place = place_of(&part);
    let kind = into_decl(alloc, part);
    EflDecl { kind, place }
}

pub fn declaration_by(alloc: Global, parts: &mut Vec<Value>) -> Result<Value, AllocError>
    ensures { IfOk result (λ v. value v ≡ lists (record { kind = decl_in (at 1 (values parts.old.items)); place = place_in (at 1 (values parts.old.items)) } ∷ decls_in (at 0 (values parts.old.items))) (body_in (at 0 (values parts.old.items)))) }
{
    let rest = into_lists(alloc, pop_value(parts));
    let first = declaration(alloc, pop_value(parts));
    more_declarations(first, rest)
}

/// `implicit`, with its ranges of letters and their type.
fn implicit(alloc: Global, parts: &mut Vec<Value>) -> Result<EflDecl, AllocError>
    ensures { IfOk result (λ d. decl_of d ≡ record { kind = Implicit (range_in (at 3 (values parts.old.items)) ∷ as_ranges (at 2 (values parts.old.items))) (type_in (at 0 (values parts.old.items))); place = place_in (at 5 (values parts.old.items)) }) }
{
    let kind = into_type(pop_value(parts));
    skip(parts);
    let ranges = ordered::<(u8, u8)>(alloc, more_by::<(u8, u8)>(alloc, parts)?);
    skip(parts);
    let place = take_place(pop_value(parts));
    Ok(EflDecl {
        kind: EflDeclKind::Implicit(ranges, kind),
        place,
    })
}

pub fn implicit_by(alloc: Global, parts: &mut Vec<Value>) -> Result<Value, AllocError>
    ensures { IfOk result (λ v. value v ≡ lists (record { kind = Implicit (range_in (at 4 (values parts.old.items)) ∷ as_ranges (at 3 (values parts.old.items))) (type_in (at 1 (values parts.old.items))); place = place_in (at 6 (values parts.old.items)) } ∷ decls_in (at 0 (values parts.old.items))) (body_in (at 0 (values parts.old.items)))) }
{
    let rest = into_lists(alloc, pop_value(parts));
    let first = implicit(alloc, parts)?;
    more_declarations(first, rest)
}

fn shared(alloc: Global, name: Text, part: Value) -> EflDeclKind
    ensures { decl_kind_of result ≡ shared_so name (value part) }
{
    match part {
        Value::Type(TypeValue::Group(group)) => EflDeclKind::Variables(
            Some(name),
            group.kind,
            group.variables,
        ),
        other => EflDeclKind::Area(name, ordered::<EflGroup>(alloc, other)),
    }
}

/// `common`, with its area's name and variables.
fn common(alloc: Global, parts: &mut Vec<Value>) -> EflDecl
    ensures { decl_of result ≡ record { kind = shared_so (name_in (at 2 (values parts.old.items))) (at 0 (values parts.old.items)); place = place_in (at 4 (values parts.old.items)) } }
{
    let part = pop_value(parts);
    skip(parts);
    let name = into_word(pop_value(parts));
    let kind = shared(alloc, name, part);
    skip(parts);
    let place = take_place(pop_value(parts));
    EflDecl { kind, place }
}

pub fn common_by(alloc: Global, parts: &mut Vec<Value>) -> Result<Value, AllocError>
    ensures { IfOk result (λ v. value v ≡ lists (record { kind = shared_so (name_in (at 3 (values parts.old.items))) (at 1 (values parts.old.items)); place = place_in (at 5 (values parts.old.items)) } ∷ decls_in (at 0 (values parts.old.items))) (body_in (at 0 (values parts.old.items)))) }
{
    let rest = into_lists(alloc, pop_value(parts));
    let first = common(alloc, parts);
    more_declarations(first, rest)
}

fn statement_value(alloc: Global, statement: EflStmt) -> Result<Value, AllocError>
    ensures { IfOk result (λ v. value v ≡ stmt (stmt_of statement)) }
{
    let statement = Box::new(alloc, statement)?;
    Ok(Value::Statement(StatementValue::Statement(statement)))
}

/// Puts a label in front of others.
fn label(word: Text, labels: &mut List<Text>) -> Result<(), AllocError>
    ensures { IfOk result (λ done. labels.new.items ≡ word ∷ labels.old.items) }
{
    labels.insert(0, word)?;
    Ok(())
}

/// The act that a name begins, as a statement.
fn act(alloc: Global, place: Place, word: Text, rest: Rest) -> Result<EflStmt, AllocError>
    ensures { IfOk result (λ s. stmt_of s ≡ acted place word (rest_of rest)) }
{
    let act = complete(alloc, EflName::new(word), rest)?;
    Ok(EflStmt {
        labels: Vec::new(alloc),
        place,
        kind: EflKind::Act(act),
    })
}

fn begun(alloc: Global, place: Place, word: Text, part: Value) -> Result<Value, AllocError>
    ensures { IfOk result (λ v. value v ≡ begun_so place word (value part)) }
{
    match part {
        Value::Statement(StatementValue::Statement(mut statement)) => {
            label(word, &mut statement.labels)?;
            Ok(Value::Statement(StatementValue::Statement(statement)))
        }
        other => {
            let statement = act(alloc, place, word, into_rest(alloc, other))?;
            statement_value(alloc, statement)
        }
    }
}

pub fn begun_by(alloc: Global, parts: &mut Vec<Value>) -> Result<Value, AllocError>
    ensures { IfOk result (λ v. value v ≡ begun_so (place_in (at 1 (values parts.old.items))) (name_in (at 1 (values parts.old.items))) (at 0 (values parts.old.items))) }
{
    let part = pop_value(parts);
    let first = pop_value(parts);
    let place = place_of(&first);
    let word = into_word(first);
    begun(alloc, place, word, part)
}

pub fn act_by(alloc: Global, parts: &mut Vec<Value>) -> Result<Value, AllocError>
    ensures { IfOk result (λ v. value v ≡ begun_so (place_in (at 2 (values parts.old.items))) (name_in (at 2 (values parts.old.items))) (at 1 (values parts.old.items))) }
{
    skip(parts);
    begun_by(alloc, parts)
}

fn opening_value(alloc: Global, part: Opening) -> Result<Value, AllocError>
    ensures { IfOk result (λ v. value v ≡ opening (opening_of part)) }
{
    let part = Box::new(alloc, part)?;
    Ok(Value::Statement(StatementValue::Opening(part)))
}

pub fn declares_by(alloc: Global, parts: &mut Vec<Value>) -> Result<Value, AllocError>
    ensures { IfOk result (λ v. value v ≡ opening (Declares (as_vars (at 2 (values parts.old.items))) (decls_in (at 0 (values parts.old.items))) (body_in (at 0 (values parts.old.items))))) }
{
    let rest = into_lists(alloc, pop_value(parts));
    skip(parts);
    let variables = EflVar::into_list(alloc, pop_value(parts));
    opening_value(alloc, Opening::Declares(variables, rest))
}

fn begin(alloc: Global, part: Value, body: Vec<EflStmt>) -> Opening
    ensures { opening_of result ≡ begins (value part) (stmts_of (reverse body.items)) }
{
    match part {
        Value::Statement(StatementValue::Statement(statement)) => Opening::Labels(
            Box::into_inner(statement),
            body,
        ),
        other => Opening::Begins(into_rest(alloc, other), body),
    }
}

pub fn begins_by(alloc: Global, parts: &mut Vec<Value>) -> Result<Value, AllocError>
    ensures { IfOk result (λ v. value v ≡ opening (begins (at 1 (values parts.old.items)) (as_stmts (at 0 (values parts.old.items))))) }
{
    let body = EflStmt::into_list(alloc, pop_value(parts));
    let part = pop_value(parts);
    opening_value(alloc, begin(alloc, part, body))
}

/// Variables of a type that is a name.
fn named_variables(word: Text, mut list: Vec<EflVar>) -> EflDeclKind
    ensures { decl_kind_of result ≡ Variables None (Named word) (vars_of (reverse list.items)) }
{
    list.reverse();
    EflDeclKind::Variables(None, EflType::Named(EflName::new(word)), list)
}

/// Lists that begin with a declaration whose type is a name.
fn declared(
    place: Place,
    word: Text,
    variables: Vec<EflVar>,
    rest: Lists,
) -> Result<Value, AllocError>
    ensures { IfOk result (λ v. value v ≡ lists (record { kind = Variables None (Named word) (vars_of (reverse variables.items)); place = place } ∷ decls_of (reverse rest.declarations.items)) (stmts_of (reverse rest.body.items))) }
{
    let kind = named_variables(word, variables);
    more_declarations(EflDecl { kind, place }, rest)
}

/// Statements that begin with an act, whose first word is a name.
fn started(
    alloc: Global,
    place: Place,
    word: Text,
    rest: Rest,
    body: Vec<EflStmt>,
) -> Result<Value, AllocError>
    ensures { IfOk result (λ v. value v ≡ lists [] (AndStmt (acted place word (rest_of rest)) (stmts_of (reverse body.items)))) }
{
    let first = act(alloc, place, word, rest)?;
    only_statements(alloc, first, body)
}

/// A statement with one more label.
fn with_one_more(alloc: Global, word: Text, statement: EflStmt) -> Result<EflStmt, AllocError>
    ensures { IfOk result (λ s. stmt_of s ≡ with_label word (stmt_of statement)) }
{
    let mut statement = Box::new(alloc, statement)?;
    label(word, &mut statement.labels)?;
    Ok(Box::into_inner(statement))
}

/// Statements whose first has one more label.
fn labelled(
    alloc: Global,
    word: Text,
    first: EflStmt,
    body: Vec<EflStmt>,
) -> Result<Value, AllocError>
    ensures { IfOk result (λ v. value v ≡ lists [] (AndStmt (with_label word (stmt_of first)) (stmts_of (reverse body.items)))) }
{
    let first = with_one_more(alloc, word, first)?;
    only_statements(alloc, first, body)
}

fn open(alloc: Global, place: Place, word: Text, part: Opening) -> Result<Value, AllocError>
    ensures { IfOk result (λ v. value v ≡ opened_so_by place word (opening_of part)) }
{
    match part {
        Opening::Declares(variables, rest) => declared(place, word, variables, rest),
        Opening::Begins(rest, body) => started(alloc, place, word, rest, body),
        Opening::Labels(first, body) => labelled(alloc, word, first, body),
    }
}

fn opened(alloc: Global, place: Place, word: Text, part: Value) -> Result<Value, AllocError>
    ensures { IfOk result (λ v. value v ≡ opened_so place word (value part)) }
{
    match part {
        Value::Statement(StatementValue::Opening(part)) => open(
            alloc,
            place,
            word,
            Box::into_inner(part),
        ),
        other => Ok(other),
    }
}

/// A list that begins with a name.
pub fn opened_by(alloc: Global, parts: &mut Vec<Value>) -> Result<Value, AllocError>
    ensures { IfOk result (λ v. value v ≡ opened_so (place_in (at 1 (values parts.old.items))) (name_in (at 1 (values parts.old.items))) (at 0 (values parts.old.items))) }
{
    let part = pop_value(parts);
    let first = pop_value(parts);
    let place = place_of(&first);
    let word = into_word(first);
    opened(alloc, place, word, part)
}
