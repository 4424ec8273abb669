// Constant subscripts, and how many elements of an array stand before one.
ghost use Rattle.std.specs.Prelude.{◌≡◌, ◌+◌, ◌*◌, ◌<◌, nat_eq, neg_ℤ, length, slice_get, slice_index_or};
ghost use Rattle.std.specs.Option.{option_and_then, option_map};
ghost use Rattle.efl_tree.specs.Syntax.{Plus, Minus};
ghost use Rattle.efl_tree.specs.Views.{expr_of, exprs_of};
ghost use Rattle.efl_scope.specs.DataTypes.{low_of, many_from};
ghost use Rattle.efl_types.specs.Presets.{constant, steps_to as steps_to_seen, elements_before as elements_before_seen};
ghost use Rattle.efl_scoped.specs.Told.{capped};
ghost use Rattle.efl_initial_values.specs.Offsets.{number_in, steps_if};

use efl_tree::{EflBound, EflExpr};

/// How many places count, which are one more than a variable may have.
pub const LIMIT: u64 = 32768;

/// A sum up to the limit.
pub fn add(a: u64, b: u64) -> u64
    ensures { result ≡ capped (a + b) }
{
    a.saturating_add(b).min(LIMIT)
}

/// A product up to the limit.
pub fn multiply(a: u64, b: u64) -> u64
    ensures { result ≡ capped (a * b) }
{
    a.saturating_mul(b).min(LIMIT)
}

/// How many elements stand before one, the first subscript going fastest.
pub fn elements_before(bounds: &[EflBound], subscripts: &[EflExpr]) -> Option<u64>
    ensures { result ≡ option_map capped (elements_before_seen 1 bounds.now (exprs_of subscripts.now)) }
{
    if !are_as_many(bounds, subscripts) {
        return None;
    }
    let mut before = 0;
    let mut step = 1;
    for number in 0..bounds.len() {
        let bound = bound_at(bounds, number);
        match steps_at(bound, subscripts, number) {
            None => return None,
            Some(steps) => {
                let product = multiply(steps, step);
                before = add(before, product);
            }
        }
        step = multiply(step, many(bound));
    }
    Some(before.min(LIMIT))
}

fn are_as_many(bounds: &[EflBound], subscripts: &[EflExpr]) -> bool
    ensures { result ≡ nat_eq (length bounds.now) (length subscripts.now) }
{
    bounds.len() == subscripts.len()
}

fn bound_at(bounds: &[EflBound], number: usize) -> EflBound
    requires { number < length bounds.now }
    ensures { result ≡ slice_index_or bounds.now number result }
{
    bounds[number]
}

fn steps_at(bound: EflBound, subscripts: &[EflExpr], number: usize) -> Option<u64>
    ensures { result ≡ steps_if bound (slice_get subscripts.now number) }
{
    match subscripts.get(number) {
        None => None,
        Some(subscript) => steps(bound, subscript),
    }
}

/// How many steps a constant subscript goes on, within its bounds.
fn steps(bound: EflBound, subscript: &EflExpr) -> Option<u64>
    ensures { result ≡ option_and_then (steps_to_seen bound) (constant (expr_of subscript.now)) }
{
    match subscript {
        EflExpr::Int(number) => steps_to(bound, *number),
        EflExpr::Plus(inner) => steps_on(bound, inner),
        EflExpr::Minus(inner) => steps_back(bound, inner),
        EflExpr::Truth(_)
        | EflExpr::At(_)
        | EflExpr::Call(_, _)
        | EflExpr::Group(_)
        | EflExpr::Not(_)
        | EflExpr::Up(_)
        | EflExpr::Down(_)
        | EflExpr::Pair(_, _, _)
        | EflExpr::Assign(_, _, _) => None,
    }
}

/// The steps to what stands behind a plus.
fn steps_on(bound: EflBound, inner: &EflExpr) -> Option<u64>
    ensures { result ≡ option_and_then (steps_to_seen bound) (constant (Plus (expr_of inner.now))) }
{
    match number(inner) {
        None => None,
        Some(number) => steps_to(bound, number),
    }
}

/// The steps to what stands behind a minus.
fn steps_back(bound: EflBound, inner: &EflExpr) -> Option<u64>
    ensures { result ≡ option_and_then (steps_to_seen bound) (constant (Minus (expr_of inner.now))) }
{
    match number(inner) {
        None => None,
        Some(number) => steps_to_opposite(bound, number),
    }
}

/// The number that an expression is.
fn number(expression: &EflExpr) -> Option<i64>
    ensures { result ≡ number_in (expr_of expression.now) }
{
    match expression {
        EflExpr::Int(number) => Some(*number),
        EflExpr::Truth(_)
        | EflExpr::At(_)
        | EflExpr::Call(_, _)
        | EflExpr::Group(_)
        | EflExpr::Plus(_)
        | EflExpr::Minus(_)
        | EflExpr::Not(_)
        | EflExpr::Up(_)
        | EflExpr::Down(_)
        | EflExpr::Pair(_, _, _)
        | EflExpr::Assign(_, _, _) => None,
    }
}

fn steps_to_opposite(bound: EflBound, number: i64) -> Option<u64>
    ensures { result ≡ steps_to_seen bound (neg_ℤ number) }
{
    if number == i64::MIN {
        return above_all(bound);
    }
    steps_to(bound, -number)
}

/// None, since each bound is below what is opposite to the least number.
fn above_all(bound: EflBound) -> Option<u64>
    ensures { result ≡ steps_to_seen bound (neg_ℤ i64.MIN) }
{
    match bound.high {
        None => None,
        Some(_high) => None,
    }
}

fn steps_to(bound: EflBound, number: i64) -> Option<u64>
    ensures { result ≡ steps_to_seen bound number }
{
    let low = low(bound);
    match bound.high {
        Some(high) if low <= number && number <= high => Some(number.abs_diff(low)),
        _ => None,
    }
}

fn low(bound: EflBound) -> i64
    ensures { result ≡ low_of bound }
{
    bound.low.unwrap_or(1)
}

/// How many subscripts are allowed.
fn many(bound: EflBound) -> u64
    ensures { capped result ≡ capped (many_from (low_of bound) bound.high) }
{
    let low = low(bound);
    match bound.high {
        None => 1,
        Some(high) if high < low => 0,
        Some(high) => high.abs_diff(low).saturating_add(1),
    }
}
