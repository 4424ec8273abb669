// The units that lines give, or the first line at fault.
ghost use Rattle.std.specs.Prelude.{◌≡◌, ◌<◌, List, [], ◌∷◌, Ok, length, map, IfOk, IfErr, IfSome, MatchOption};
ghost use Rattle.card_reader.specs.Reading.{CardLine};
ghost use Rattle.card_reader.specs.Told.{card_line_of, card_lines_of};
ghost use Rattle.stmt_reader.specs.Acts.{header_if};
ghost use Rattle.f66_tree.specs.Views.{header_of, lines_of, routine_of};
ghost use Rattle.deck_reader.specs.Units.{rest_of, units_of as units_said};
ghost use Rattle.deck_reader.specs.Steps.{EndsBefore, IsLineRefusal, IsUnitBefore, Opens};

use card_reader::Line;
use f66_tree::{Header, Stmt, Unit};
use ground::{List, Place, Refusal};
use std::alloc::Global;
use stmt_lines::{read_header, read_statement};

/// The statements up to the first END line, and the lines behind it; None where there is none.
fn read_statements(alloc: Global, lines: &[Line]) -> Result<Option<(List<Stmt>, &[Line])>, Refusal>
    ensures read { IfOk result (λ o. MatchOption o (rest_of (card_lines_of lines.now) ≡ Ok [])
        (λ r. EndsBefore (card_lines_of lines.now) (lines_of r.0.items) (card_lines_of r.1.now))) }
    ensures refused { IfErr result (IsLineRefusal (rest_of (card_lines_of lines.now))) }
{
    let mut statements = Vec::new(alloc);
    let mut left = lines;
    while let Some((line, others)) = left.split_first() {
        if line.last {
            return Ok(Some((statements, others)));
        }
        let statement = read_statement(alloc, line)?;
        let Ok(()) = statements.push(statement) else {
            return Err(Refusal::Memory);
        };
        left = others;
    }
    Ok(None)
}

/// The unit with this header whose statements begin here, and the lines behind its END line; None where there is none.
fn read_rest(
    alloc: Global,
    header: Header,
    place: Place,
    lines: &[Line],
) -> Result<Option<(Unit, &[Line])>, Refusal>
    ensures ends { IfOk result (λ o. MatchOption o (rest_of (card_lines_of lines.now) ≡ Ok [])
        (λ r. EndsBefore (card_lines_of lines.now) (routine_of r.0).lines (card_lines_of r.1.now))) }
    ensures header { IfOk result (λ o. IfSome o (λ r. (routine_of r.0).header ≡ header_of header)) }
    ensures place { IfOk result (λ o. IfSome o (λ r. r.0.place ≡ place)) }
    ensures refused { IfErr result (IsLineRefusal (rest_of (card_lines_of lines.now))) }
{
    match read_statements(alloc, lines)? {
        None => Ok(None),
        Some((statements, others)) => Ok(Some((
            Unit {
                header,
                statements,
                place,
            },
            others,
        ))),
    }
}

/// The header that the first line of a unit says, if it says one.
fn opening(alloc: Global, line: &Line) -> Result<Option<Header>, Refusal>
    ensures read { IfOk result (λ h. (rest : List CardLine) → Opens (card_line_of line.now) (header_if h) rest) }
    ensures refused { IfErr result (λ r. (rest : List CardLine) → IsLineRefusal (units_said (card_line_of line.now ∷ rest)) r) }
{
    if line.last {
        Ok(None)
    } else {
        read_header(alloc, line)
    }
}

/// The unit that begins with this line, and the lines behind its END line; None where it has none.
fn read_unit(alloc: Global, lines: &[Line]) -> Result<Option<(Unit, &[Line])>, Refusal>
    ensures read { IfOk result (λ o. MatchOption o (units_said (card_lines_of lines.now) ≡ Ok [])
        (λ r. IsUnitBefore (card_lines_of lines.now) (routine_of r.0) (card_lines_of r.1.now))) }
    ensures refused { IfErr result (IsLineRefusal (units_said (card_lines_of lines.now))) }
{
    let Some((first, others)) = lines.split_first() else {
        return Ok(None);
    };
    match opening(alloc, first)? {
        None => read_rest(alloc, Header::Main, first.place, lines),
        Some(header) => read_rest(alloc, header, first.place, others),
    }
}

/// The units of lines, each up to its END line.
pub fn units_of(alloc: Global, lines: &[Line]) -> Result<List<Unit>, Refusal>
    ensures read { IfOk result (λ units. units_said (card_lines_of lines.now) ≡ Ok (map routine_of units.items)) }
    ensures refused { IfErr result (IsLineRefusal (units_said (card_lines_of lines.now))) }
{
    let mut units = Vec::new(alloc);
    let mut left = lines;
    while let Some((unit, others)) = read_unit(alloc, left)? {
        let Ok(()) = units.push(unit) else {
            return Err(Refusal::Memory);
        };
        left = others;
    }
    Ok(units)
}
