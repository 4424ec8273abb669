// Units of FORTRAN, read from text.
//
// A unit that is no main has its header in front, with ` : ` behind it: `SUBROUTINE S K`, `FUNCTION J K`, `LOGICAL FUNCTION L K`
// or `BLOCK`. A unit's statements have `; ` between them, and each stands on the line of its number. A statement is its word and what
// belongs to it, behind its label and its test; an expression has its operators behind their operands.
//
// | Text | Tree |
// |---|---|
// | `K 1 +` `K 10 <` `K neg` `L not` `K group` | K+1; K.LT.10; -K; .NOT.L; (K) |
// | `+ - * / ** < = and or`, `neg pos not group` | the operators; the signs, .NOT. and parentheses |
// | `12` `-1` `true` `letter` | a number, also one that no text has; .TRUE.; a Hollerith text |
// | `7 K MOD@2` `M@0` | MOD(7,K); M with nothing in its parentheses |
// | `10 SET K, J 1 +` | 10 K = J+1 |
// | `IF K 1 < ? GO 10` | IF (K.LT.1) GO TO 10 |
// | `SELECT K 10 20` `SIGN K, 10 20 30` | GO TO (10,20),K; IF (K) 10,20,30 |
// | `DO 10 K 1 9 2` | DO 10 K = 1,9,2 |
// | `CONTINUE` `STOP` `STOP 17` `RETURN` `CALL S K, 1` | the same; CALL S(K,1) |
// | `WRITE 6 9 K, I M@1, DO 1 I 1 9 2` | WRITE (6,9) K,(M(I),I=1,9,2): an implied DO takes so many entries before it |
// | `9 FORMAT 2I5,1HX` | 9 FORMAT (2I5,1HX), with `7*` for 7 asterisks, and with counts and widths that no text has |
// | `INTEGER K, M 5` | INTEGER K,M(5), and so with LOGICAL, REAL, DIMENSION and COMMON |
// | `EQUIVALENCE K, J` `DATA K, 1` | EQUIVALENCE (K,J); DATA K/1/ |

use crate::formats::fields_in;
use f66_tree::{
    Area, Counting, Declared, Entry, Expr, Header, Name, Operator, Par, PresetPart, Stmt, StmtKind,
    TypeWord, Unit, applied, paired,
};
use ground::{List, Place, Text};
use std::alloc::{AllocError, Global};

/// The place of a line.
pub fn at(line: u32) -> Place {
    Place { file: 0, line }
}

/// A unit, which is a main where no header is in front.
pub fn unit(alloc: Global, text: &str) -> Result<Unit, AllocError> {
    let (header, said) = match text.split_once(" : ") {
        Some((words, said)) => (header_of(alloc, words)?, said),
        None => (Header::Main, text),
    };
    let statements = statements(alloc, said)?;
    Ok(Unit {
        header,
        statements,
        place: at(0),
    })
}

fn header_of(alloc: Global, text: &str) -> Result<Header, AllocError> {
    let (word, rest) = cut(text);
    match word {
        "SUBROUTINE" => {
            let (own, dummies) = cut(rest);
            let own = name(alloc, own)?;
            Ok(Header::Sub(own, names(alloc, dummies)?))
        }
        "FUNCTION" => function(alloc, None, rest),
        "INTEGER" => function(alloc, Some(TypeWord::Integer), cut(rest).1),
        "LOGICAL" => function(alloc, Some(TypeWord::Logical), cut(rest).1),
        "REAL" => function(alloc, Some(TypeWord::Other), cut(rest).1),
        _ => Ok(Header::Block),
    }
}

fn function(alloc: Global, word: Option<TypeWord>, rest: &str) -> Result<Header, AllocError> {
    let (own, dummies) = cut(rest);
    let own = name(alloc, own)?;
    Ok(Header::Func(word, own, names(alloc, dummies)?))
}

fn names(alloc: Global, text: &str) -> Result<List<Name>, AllocError> {
    let mut list = Vec::new(alloc);
    for word in text.split_whitespace() {
        let next = name(alloc, word)?;
        list.push(next)?;
    }
    Ok(list)
}

/// The statements of a unit.
pub fn statements(alloc: Global, text: &str) -> Result<List<Stmt>, AllocError> {
    let mut list = Vec::new(alloc);
    for (line, part) in (1u32..).zip(text.split("; ")) {
        if !part.is_empty() {
            let next = statement(alloc, part, line)?;
            list.push(next)?;
        }
    }
    Ok(list)
}

/// A statement at a line.
pub fn statement(alloc: Global, text: &str, line: u32) -> Result<Stmt, AllocError> {
    let (label, said) = labelled(text);
    let kind = conditional(alloc, said)?;
    Ok(Stmt {
        label,
        place: at(line),
        kind,
    })
}

/// A name.
pub fn name(alloc: Global, word: &str) -> Result<Name, AllocError> {
    Ok(Name::new(Text::from_slice(alloc, word.as_bytes())?))
}

/// The first word of a text, and what stands behind it.
fn cut(text: &str) -> (&str, &str) {
    text.split_once(' ').unwrap_or((text, ""))
}

fn number(word: &str) -> u32 {
    word.parse::<u32>().unwrap_or(0)
}

/// A number in front is the label.
fn labelled(text: &str) -> (Option<u32>, &str) {
    let (first, rest) = cut(text);
    match first.parse::<u32>() {
        Ok(label) => (Some(label), rest),
        Err(_) => (None, text),
    }
}

fn conditional(alloc: Global, said: &str) -> Result<StmtKind, AllocError> {
    let Some((tests, last)) = said.rsplit_once(" ? ") else {
        return plain(alloc, said);
    };
    let mut kind = plain(alloc, last)?;
    for test in tests.rsplit(" ? ") {
        kind = when(alloc, test, kind)?;
    }
    Ok(kind)
}

fn when(alloc: Global, test: &str, kind: StmtKind) -> Result<StmtKind, AllocError> {
    let kind = Box::new(alloc, kind)?;
    let (_, test) = cut(test);
    let test = expression(alloc, test)?;
    Ok(StmtKind::When(test, kind))
}

fn plain(alloc: Global, said: &str) -> Result<StmtKind, AllocError> {
    let (word, rest) = cut(said);
    match word {
        "CONTINUE" => Ok(StmtKind::Continue),
        "RETURN" => Ok(StmtKind::Return),
        "STOP" => Ok(StmtKind::Stop(rest.parse::<u16>().ok())),
        "GO" => Ok(StmtKind::Goto(number(rest))),
        "SELECT" => selection(alloc, rest),
        "SIGN" => sign(alloc, rest),
        "DO" => counted_loop(alloc, rest),
        "SET" => assignment(alloc, rest),
        "CALL" => invocation(alloc, rest),
        "READ" => reading(alloc, rest),
        "WRITE" => writing(alloc, rest),
        _ => specification(alloc, word, rest),
    }
}

fn specification(alloc: Global, word: &str, rest: &str) -> Result<StmtKind, AllocError> {
    match word {
        "FORMAT" => Ok(StmtKind::Format(fields_in(alloc, rest)?)),
        "INTEGER" => typed(alloc, TypeWord::Integer, rest),
        "LOGICAL" => typed(alloc, TypeWord::Logical, rest),
        "REAL" => typed(alloc, TypeWord::Other, rest),
        "DIMENSION" => Ok(StmtKind::Dimension(declarations(alloc, rest)?)),
        "COMMON" => common(alloc, rest),
        "EQUIVALENCE" => equivalence(alloc, rest),
        "DATA" => preset(alloc, rest),
        _ => Err(AllocError),
    }
}

fn selection(alloc: Global, rest: &str) -> Result<StmtKind, AllocError> {
    let (index, rest) = cut(rest);
    let mut labels = Vec::new(alloc);
    for word in rest.split(' ') {
        labels.push(number(word))?;
    }
    let index = name(alloc, index)?;
    Ok(StmtKind::Computed(labels, index))
}

fn sign(alloc: Global, rest: &str) -> Result<StmtKind, AllocError> {
    let (tested, labels) = rest.split_once(", ").unwrap_or((rest, ""));
    let (below, labels) = cut(labels);
    let (zero, above) = cut(labels);
    let tested = expression(alloc, tested)?;
    Ok(StmtKind::Sign(tested, number(below), number(zero), number(above)))
}

/// The variable and the parameters of a DO.
fn range(alloc: Global, text: &str) -> Result<(Name, Par, Par, Par), AllocError> {
    let (variable, rest) = cut(text);
    let (first, rest) = cut(rest);
    let (last, step) = cut(rest);
    let variable = name(alloc, variable)?;
    let first = par(alloc, first)?;
    let last = par(alloc, last)?;
    let step = par(alloc, step)?;
    Ok((variable, first, last, step))
}

fn counted_loop(alloc: Global, rest: &str) -> Result<StmtKind, AllocError> {
    let (label, rest) = cut(rest);
    let (variable, first, last, step) = range(alloc, rest)?;
    let counting = Counting {
        variable,
        first,
        last,
        step,
    };
    Ok(StmtKind::Loop(number(label), Box::new(alloc, counting)?))
}

fn assignment(alloc: Global, rest: &str) -> Result<StmtKind, AllocError> {
    let (left, right) = rest.split_once(", ").unwrap_or((rest, ""));
    let left = expression(alloc, left)?;
    let right = expression(alloc, right)?;
    Ok(StmtKind::Assign(left, right))
}

fn invocation(alloc: Global, rest: &str) -> Result<StmtKind, AllocError> {
    let (called, arguments) = cut(rest);
    let called = name(alloc, called)?;
    let arguments = expressions(alloc, arguments)?;
    Ok(StmtKind::Invoke(called, arguments))
}

fn reading(alloc: Global, rest: &str) -> Result<StmtKind, AllocError> {
    let (unit, rest) = cut(rest);
    let (label, items) = cut(rest);
    let unit = par(alloc, unit)?;
    let list = entries(alloc, items)?;
    Ok(StmtKind::Read(unit, number(label), list))
}

fn writing(alloc: Global, rest: &str) -> Result<StmtKind, AllocError> {
    let (unit, rest) = cut(rest);
    let (label, items) = cut(rest);
    let unit = par(alloc, unit)?;
    let list = entries(alloc, items)?;
    Ok(StmtKind::Write(unit, number(label), list))
}

fn entries(alloc: Global, text: &str) -> Result<List<Entry>, AllocError> {
    let mut list = Vec::new(alloc);
    for part in text.split(", ") {
        if !part.is_empty() {
            let next = entry(alloc, &mut list, part)?;
            list.push(next)?;
        }
    }
    Ok(list)
}

fn entry(alloc: Global, before: &mut List<Entry>, text: &str) -> Result<Entry, AllocError> {
    match text.strip_prefix("DO ") {
        Some(text) => implied(alloc, before, text),
        None => Ok(Entry::Item(expression(alloc, text)?)),
    }
}

fn implied(alloc: Global, before: &mut List<Entry>, text: &str) -> Result<Entry, AllocError> {
    let (count, text) = cut(text);
    let (variable, first, last, step) = range(alloc, text)?;
    let list = last_entries(alloc, before, number(count))?;
    Ok(Entry::Many(list, variable, first, last, step))
}

fn last_entries(
    alloc: Global,
    before: &mut List<Entry>,
    count: u32,
) -> Result<List<Entry>, AllocError> {
    let mut list = Vec::new(alloc);
    for _ in 0..count {
        if let Some(entry) = before.pop() {
            list.push(entry)?;
        }
    }
    list.reverse();
    Ok(list)
}

fn typed(alloc: Global, word: TypeWord, rest: &str) -> Result<StmtKind, AllocError> {
    Ok(StmtKind::Typed(word, declarations(alloc, rest)?))
}

fn declarations(alloc: Global, text: &str) -> Result<List<Declared>, AllocError> {
    let mut list = Vec::new(alloc);
    for part in text.split(", ") {
        if !part.is_empty() {
            let next = declared(alloc, part)?;
            list.push(next)?;
        }
    }
    Ok(list)
}

/// A name with its dimensions.
fn declared(alloc: Global, text: &str) -> Result<Declared, AllocError> {
    let (word, rest) = cut(text);
    let mut sizes = Vec::new(alloc);
    for size in rest.split_whitespace() {
        let size = par(alloc, size)?;
        sizes.push(size)?;
    }
    let name = name(alloc, word)?;
    Ok(Declared { name, sizes })
}

fn par(alloc: Global, word: &str) -> Result<Par, AllocError> {
    match word.parse::<i64>() {
        Ok(value) => Ok(Par::Number(value)),
        Err(_) => Ok(Par::Variable(name(alloc, word)?)),
    }
}

/// Blank common.
fn common(alloc: Global, rest: &str) -> Result<StmtKind, AllocError> {
    let list = declarations(alloc, rest)?;
    let mut areas = Vec::new(alloc);
    areas.push(Area { name: None, list })?;
    Ok(StmtKind::Common(areas))
}

/// One group.
fn equivalence(alloc: Global, rest: &str) -> Result<StmtKind, AllocError> {
    let group = expressions(alloc, rest)?;
    let mut groups = Vec::new(alloc);
    groups.push(group)?;
    Ok(StmtKind::Equivalence(groups))
}

/// One value for one place, or nothing.
fn preset(alloc: Global, rest: &str) -> Result<StmtKind, AllocError> {
    let mut parts = Vec::new(alloc);
    if let Some((place, value)) = rest.split_once(", ") {
        let part = initial(alloc, place, value)?;
        parts.push(part)?;
    }
    Ok(StmtKind::Preset(parts))
}

fn initial(alloc: Global, place: &str, value: &str) -> Result<PresetPart, AllocError> {
    let places = expressions(alloc, place)?;
    let mut values = Vec::new(alloc);
    let value = expression(alloc, value)?;
    values.push((1u32, value))?;
    Ok(PresetPart { places, values })
}

fn expressions(alloc: Global, text: &str) -> Result<List<Expr>, AllocError> {
    let mut list = Vec::new(alloc);
    for part in text.split(", ") {
        if !part.is_empty() {
            let next = expression(alloc, part)?;
            list.push(next)?;
        }
    }
    Ok(list)
}

fn expression(alloc: Global, text: &str) -> Result<Expr, AllocError> {
    let mut stack = Vec::new(alloc);
    for word in text.split(' ') {
        let next = operation(alloc, &mut stack, word)?;
        stack.push(next)?;
    }
    stack.pop().ok_or(AllocError)
}

/// What a word makes of the operands before it.
fn operation(alloc: Global, stack: &mut List<Expr>, word: &str) -> Result<Expr, AllocError> {
    if let Ok(value) = word.parse::<i64>() {
        return Ok(Expr::Int(value));
    }
    if let Some(operator) = operator_of(word) {
        return pair(alloc, stack, operator);
    }
    if let Some((function, count)) = word.split_once('@') {
        return item(alloc, stack, function, number(count));
    }
    match word {
        "neg" => Ok(Expr::Minus(operand(alloc, stack)?)),
        "pos" => Ok(Expr::Plus(operand(alloc, stack)?)),
        "not" => Ok(Expr::Not(operand(alloc, stack)?)),
        "group" => Ok(Expr::Group(operand(alloc, stack)?)),
        "true" => Ok(Expr::Truth(true)),
        "letter" => Ok(Expr::Letter(b'A')),
        _ => Ok(Expr::Ref(name(alloc, word)?)),
    }
}

fn operator_of(word: &str) -> Option<Operator> {
    match word {
        "+" => Some(Operator::Add),
        "-" => Some(Operator::Sub),
        "*" => Some(Operator::Mul),
        "/" => Some(Operator::Div),
        "**" => Some(Operator::Power),
        "<" => Some(Operator::Lt),
        "=" => Some(Operator::Eq),
        "and" => Some(Operator::And),
        "or" => Some(Operator::Or),
        _ => None,
    }
}

fn last(stack: &mut List<Expr>) -> Result<Expr, AllocError> {
    match stack.pop() {
        Some(e) => Ok(e),
        None => Err(AllocError),
    }
}

fn operand(alloc: Global, stack: &mut List<Expr>) -> Result<Box<Expr>, AllocError> {
    let e = last(stack)?;
    Ok(Box::new(alloc, e)?)
}

fn pair(alloc: Global, stack: &mut List<Expr>, operator: Operator) -> Result<Expr, AllocError> {
    let second = last(stack)?;
    let first = last(stack)?;
    paired(alloc, operator, first, second)
}

/// A name with the last operands in its parentheses.
fn item(alloc: Global, stack: &mut List<Expr>, word: &str, count: u32) -> Result<Expr, AllocError> {
    let mut list = Vec::new(alloc);
    for _ in 0..count {
        if let Some(e) = stack.pop() {
            list.push(e)?;
        }
    }
    list.reverse();
    let name = name(alloc, word)?;
    applied(name, list)
}
