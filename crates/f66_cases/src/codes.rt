// Stack code and whether it is valid, each rule broken alone, worked out by hand from the rules.

use f66_tree::Operator;
use format_io::plan;
use ground::{Kind, List, Memory, Place};
use stack_code::{Op, verify};
use std::alloc::{AllocError, Global};
use std::process::Abort;
use std::test::Fail;

/// Codes for one plan and four storage units: their instructions with their operands, and whether they are valid.
const CODES: &str = "
Begin; Halt | valid
Begin; Jump 0; Halt | valid
Begin; Spot 0 1; PushInt 1; PushInt 3; PushInt 1; LoopStart 1 2; Begin; PushInt 6; WriteStart 0; Spot 0 1; PutItem Integer; Finish; Spot 0 1; LoopTurn 1 2 6; Begin; Halt | valid
Begin; Call 3 0; Halt; Begin; Return | valid
Begin; Call 2 0; Begin; Halt | valid
Begin; Spot 0 1; Call 4 1; Halt; Begin; Dummy 0; LoadInt; JumpSign 8 8 8; Return | valid
Begin; Call 3 0; Halt; Begin; Call 6 0; Return; Begin; Return | valid
Begin; PushInt 6; WriteStart 0; Step; Spot 0 1; PutItem Integer; Jump 3 | valid
Begin; PushInt 6; WriteStart 0; PushInt 1; Halt | valid
Begin; PushInt 1; JumpTable | valid
Begin; PushInt 1; JumpTable 0 3; HaltWith 7 | valid
Begin; Halt; Add; PutItem Integer | valid
Begin; PushInt -2147483647; Known 0 1; Minus; JumpSign 5 5 5; Halt | valid
Begin; PushLog 1; Not; PushLog 0; And; JumpFalse 6; Halt | valid
Begin; Spot 0 4; PushInt 1; PushInt 4; Element 1; PushInt 7; Store; Halt | valid
Begin; PushInt 5; ReadStart 0; Spot 0 4; PushInt 4; TakeRow Integer 1; Finish; Halt | valid
 | not valid
PushInt 1; Halt | not valid
Begin | not valid
Begin; PushInt 1 | not valid
Begin; Jump 3; Halt | not valid
Begin; Halt; Jump 9 | not valid
Begin; Spot 3 2; Halt | not valid
Begin; Spot 0 0; Halt | not valid
Begin; PushInt 1; Lend 4; Halt | not valid
Begin; Spot 0 1; PushInt 1; PushInt 1; PushInt 1; LoopStart 4 0; Halt | not valid
Begin; Spot 0 1; LoopTurn 0 4 0; Halt | not valid
Begin; PushInt 6; WriteStart 1; Halt | not valid
Begin; PushInt 2147483648; Halt | not valid
Begin; PushInt 1; PushInt 1; Known 0 2; Halt | not valid
Begin; PushInt 1; Known 6 1; Halt | not valid
Begin; PushInt 1; PushInt 2; Compare +; Halt | not valid
Begin; PushInt 1; Add; Halt | not valid
Begin; PushLog 1; PushInt 1; Add; Halt | not valid
Begin; PushInt 1; Not; Halt | not valid
Begin; PushInt 1; LoadInt; Halt | not valid
Begin; Spot 0 1; Spot 1 1; Store; Halt | not valid
Begin; PushLog 1; JumpFalse 4; PushInt 1; Halt | not valid
Begin; Dummy 0; Halt | not valid
Begin; Spot 0 1; Call 4 1; Halt; Begin; Dummy 1; Forget; Return | not valid
Begin; Spot 0 1; Call 5 1; Call 5 0; Halt; Begin; Return | not valid
Begin; Spot 0 1; PutItem Integer; Halt | not valid
Begin; PushInt 6; WriteStart 0; Spot 0 1; TakeItem Integer; Finish; Halt | not valid
Begin; PushInt 5; ReadStart 0; Spot 0 1; PutItem Integer; Finish; Halt | not valid
Begin; Finish; Halt | not valid
Begin; PushInt 6; WriteStart 0; Begin; Halt | not valid
Begin; PushInt 6; WriteStart 0; PushInt 6; WriteStart 0; Halt | not valid
Begin; PushInt 6; WriteStart 0; Call 5 0; Halt; Begin; Return | not valid
Begin; Call 3 0; Halt; Begin; PushInt 6; WriteStart 0; Return | not valid
Begin; PushLog 1; JumpFalse 5; PushInt 6; WriteStart 0; Halt | not valid
Begin; Return | not valid
Begin; Call 2 0; Begin; Return | not valid
Begin; Call 3 0; Halt; Begin; PushInt 1; Return | not valid
Begin; Call 0 0; Halt | not valid
Begin; Call 3 0; Halt; Begin; Call 3 0; Return | not valid
Begin; Call 3 0; Halt; Begin; Call 6 0; Return; Begin; Call 3 0; Return | not valid
Begin; Halt; Begin; Call 2 0; Return | not valid
Begin; Call 3 0; Halt; Return | not valid
Begin; Jump 1; Halt | not valid
Begin; PushInt 1; JumpSign 1 3 3; Halt | not valid
Begin; PushInt 1; JumpTable 1; Halt | not valid
";

fn cut(text: &str) -> (&str, &str) {
    text.split_once(' ').unwrap_or((text, ""))
}

fn number(word: &str) -> u32 {
    word.parse::<u32>().unwrap_or(0)
}

fn small(word: &str) -> u8 {
    word.parse::<u8>().unwrap_or(0)
}

/// An instruction without operands.
fn plain(name: &str) -> Op {
    match name {
        "Begin" => Op::Begin(Place { file: 0, line: 1 }),
        "Step" => Op::Step,
        "LoadInt" => Op::LoadInt,
        "Store" => Op::Store,
        "Forget" => Op::Forget,
        "Add" => Op::Add,
        "Minus" => Op::Minus,
        "Not" => Op::Not,
        "And" => Op::And,
        "Return" => Op::Return,
        "Finish" => Op::Finish,
        "PutItem Integer" => Op::PutItem(Kind::Integer),
        "TakeItem Integer" => Op::TakeItem(Kind::Integer),
        _ => Op::Halt,
    }
}

/// An instruction with numbers for operands.
fn numbered(name: &str, first: &str, second: &str, third: &str) -> Op {
    let a = number(first);
    let b = number(second);
    match name {
        "PushInt" => Op::PushInt(first.parse::<i64>().unwrap_or(0)),
        "PushLog" => Op::PushLog(first == "1"),
        "Spot" => Op::Spot(a, b),
        "Dummy" => Op::Dummy(a),
        "Element" => Op::Element(small(first)),
        "Lend" => Op::Lend(a),
        "Compare" => Op::Compare(Operator::Add),
        "Known" => Op::Known(small(first), b),
        "Jump" => Op::Jump(a),
        "JumpFalse" => Op::JumpFalse(a),
        "JumpSign" => Op::JumpSign(a, b, number(third)),
        "LoopStart" => Op::LoopStart(a, b),
        "LoopTurn" => Op::LoopTurn(a, b, number(third)),
        "Call" => Op::Call(a, b),
        "WriteStart" => Op::WriteStart(a),
        "ReadStart" => Op::ReadStart(a),
        "TakeRow" => Op::TakeRow(Kind::Integer, small(second)),
        _ => Op::HaltWith(7),
    }
}

/// The targets of a computed branch.
fn table(alloc: Global, rest: &str) -> Result<Op, AllocError> {
    let mut targets = Vec::new(alloc);
    for word in rest.split_whitespace() {
        targets.push(number(word))?;
    }
    Ok(Op::JumpTable(targets))
}

/// One instruction: its name, and its operands behind it.
fn op(alloc: Global, text: &str) -> Result<Op, AllocError> {
    let (name, rest) = cut(text);
    if name == "JumpTable" {
        return table(alloc, rest);
    }
    if rest.is_empty() || rest == "Integer" {
        return Ok(plain(text));
    }
    let (first, others) = cut(rest);
    let (second, third) = cut(others);
    Ok(numbered(name, first, second, third))
}

fn ops(alloc: Global, text: &str) -> Result<List<Op>, AllocError> {
    let mut list = Vec::new(alloc);
    for part in text.split("; ") {
        if !part.is_empty() {
            let next = op(alloc, part)?;
            list.push(next)?;
        }
    }
    Ok(list)
}

/// Whether the code is valid for one plan and four storage units.
fn is_valid(alloc: Global, text: &str) -> Result<bool, Memory> {
    let ops = ops(alloc, text)?;
    let fields = Vec::new(alloc);
    let mut plans = Vec::new(alloc);
    let one = plan(alloc, &fields)?;
    if let Err(e) = plans.push(one) {
        return Err(AllocError::from(e).into());
    }
    if ops.len() > 1000 {
        return Ok(false);
    }
    let code = verify(alloc, ops, plans, 4)?;
    Ok(code.is_some())
}

fn expect(rt: &impl Abort, alloc: Global, row: &str) -> Result<(), Fail> {
    let (text, wanted) = row.split_once(" | ").ok_or("no bar")?;
    let found = is_valid(alloc, text).ok().ok_or("out of memory")?;
    assert_eq!(rt; found, wanted == "valid", "{text}");
    Ok(())
}

#[test]
fn codes_are_valid_or_not(rt: HostRuntime) -> Result<(), Fail> {
    for row in CODES.lines() {
        if !row.is_empty() {
            expect(&rt, rt.alloc(), row)?;
        }
    }
    Ok(())
}
