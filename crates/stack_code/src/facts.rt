// What holds at each instruction of a code, found by following all ways.
ghost use Rattle.std.specs.Prelude.{◌≡◌, ◌<◌, ◌≤◌, ◌^◌, ℕ, length, vec_len, IfOk, MatchOption};
ghost use Rattle.stack_code.specs.Views.{instruction_of, code_of};
ghost use Rattle.stack_code.specs.ValidCode.{IsIn, call_in};
ghost use Rattle.stack_code.specs.Facts.{Meets, AllReached, HasWay, IsTold, IsToldAll, IsSpread, IsPass, IsClosed, IsEnteredAt, AreEntered, Known, IsInvalid, AreAll};
ghost use Rattle.stack_code.specs.declared.fact.Fact.{Fact};

use crate::ways::ways_of;
use crate::{Fact, Op};
use std::alloc::{AllocError, Global};

/// How what leads to an instruction meets what is known there.
#[derive(Clone, Copy)]
enum Met {
    Same,
    New,
    Clash,
}

/// What looking at an instruction comes to: all to which it leads is known, and of no earlier one anything was new; or
/// something was; or the code is not valid.
#[derive(Clone, Copy)]
enum Spread {
    Settled,
    Earlier,
    Wrong,
}

fn meet(facts: &mut Vec<Option<Fact>>, at: usize, fact: Fact) -> Met
    requires { at < vec_len facts.old }
    ensures { Meets result facts.old.items facts.new.items at fact }
{
    match &facts[at] {
        Some(known) => {
            if fact.is_same(known) {
                Met::Same
            } else {
                Met::Clash
            }
        }
        None => {
            facts[at] = Some(fact);
            Met::New
        }
    }
}

/// What holds behind the instruction at `pc` is told to one of those to which it leads.
fn tell(
    ops: &[Op],
    facts: &mut Vec<Option<Fact>>,
    pc: usize,
    to: usize,
    behind: &Fact,
) -> Result<Spread, AllocError>
    requires long { length facts.old.items ≡ length ops.now }
    requires reached { AllReached (code_of ops.now) facts.old.items }
    requires way { HasWay (code_of ops.now) to behind.now }
    ensures { IfOk result (λ r. IsTold (code_of ops.now) facts.old.items facts.new.items pc to behind.now r) }
{
    if to >= facts.len() {
        return Ok(Spread::Wrong);
    }
    let fact = behind.copy()?;
    match meet(facts, to, fact) {
        Met::Same => Ok(Spread::Settled),
        Met::Clash => Ok(Spread::Wrong),
        Met::New => {
            if to <= pc {
                Ok(Spread::Earlier)
            } else {
                Ok(Spread::Settled)
            }
        }
    }
}

/// What holds behind the instruction at `pc` is told to all to which it leads.
fn tell_all(
    ops: &[Op],
    facts: &mut Vec<Option<Fact>>,
    pc: usize,
    ways: &[usize],
    behind: &Fact,
) -> Result<Spread, AllocError>
    requires long { length facts.old.items ≡ length ops.now }
    requires reached { AllReached (code_of ops.now) facts.old.items }
    requires way { (to : ℕ) → IsIn to ways.now → HasWay (code_of ops.now) to behind.now }
    ensures { IfOk result (λ r. IsToldAll (code_of ops.now) facts.old.items facts.new.items pc ways.now behind.now r) }
{
    let mut earlier = false;
    for to in ways {
        match tell(ops, facts, pc, *to, behind)? {
            Spread::Settled => {}
            Spread::Earlier => earlier = true,
            Spread::Wrong => return Ok(Spread::Wrong),
        }
    }
    if earlier {
        Ok(Spread::Earlier)
    } else {
        Ok(Spread::Settled)
    }
}

/// The instruction at `pc` is looked at.
fn look_at(
    alloc: Global,
    ops: &[Op],
    facts: &mut Vec<Option<Fact>>,
    pc: usize,
) -> Result<Spread, AllocError>
    requires few { length ops.now < 2 ^ 63 }
    requires long { length facts.old.items ≡ length ops.now }
    requires within { pc < length ops.now }
    requires reached { AllReached (code_of ops.now) facts.old.items }
    ensures { IfOk result (λ r. IsSpread (code_of ops.now) facts.old.items facts.new.items pc r) }
{
    let op = &ops[pc];
    match &facts[pc] {
        None => Ok(Spread::Settled),
        Some(fact) => match fact.behind(op)? {
            None => Ok(Spread::Wrong),
            Some(behind) => {
                let ways = ways_of(alloc, op, pc)?;
                let told = tell_all(ops, facts, pc, &ways, &behind)?;
                Ok(told)
            }
        },
    }
}

/// All instructions are looked at once.
fn pass(alloc: Global, ops: &[Op], facts: &mut Vec<Option<Fact>>) -> Result<Spread, AllocError>
    requires few { length ops.now < 2 ^ 63 }
    requires long { length facts.old.items ≡ length ops.now }
    requires reached { AllReached (code_of ops.now) facts.old.items }
    ensures { IfOk result (λ r. IsPass (code_of ops.now) facts.old.items facts.new.items r) }
{
    let mut earlier = false;
    for pc in 0..ops.len() {
        match look_at(alloc, ops, facts, pc)? {
            Spread::Settled => {}
            Spread::Earlier => earlier = true,
            Spread::Wrong => return Ok(Spread::Wrong),
        }
    }
    if earlier {
        Ok(Spread::Earlier)
    } else {
        Ok(Spread::Settled)
    }
}

/// Looks at the instructions until nothing is new; whether nothing was wrong.
fn close(alloc: Global, ops: &[Op], facts: &mut Vec<Option<Fact>>) -> Result<bool, AllocError>
    requires few { length ops.now < 2 ^ 63 }
    requires long { length facts.old.items ≡ length ops.now }
    requires reached { AllReached (code_of ops.now) facts.old.items }
    ensures { IfOk result (λ r. IsClosed (code_of ops.now) facts.old.items facts.new.items r) }
{
    'again: loop {
        match pass(alloc, ops, facts)? {
            Spread::Settled => return Ok(true),
            Spread::Earlier => {}
            Spread::Wrong => return Ok(false),
        }
    }
}

/// The entry that the instruction at `at` calls, if it calls one, is told what holds there.
fn enter_at(
    alloc: Global,
    ops: &[Op],
    facts: &mut Vec<Option<Fact>>,
    at: usize,
) -> Result<bool, AllocError>
    requires long { length facts.old.items ≡ length ops.now }
    requires within { at < length ops.now }
    requires reached { AllReached (code_of ops.now) facts.old.items }
    ensures { IfOk result (λ r. IsEnteredAt (code_of ops.now) facts.old.items facts.new.items at r) }
{
    match called(&ops[at]) {
        None => Ok(true),
        Some((to, count)) => {
            let root = Fact::root(alloc, count);
            match tell(ops, facts, 0, to as usize, &root)? {
                Spread::Settled => Ok(true),
                Spread::Earlier => Ok(true),
                Spread::Wrong => Ok(false),
            }
        }
    }
}

/// The entry that the instruction calls, and how many dummies it has.
pub(crate) fn called(op: &Op) -> Option<(u32, u32)>
    ensures { result ≡ call_in (instruction_of op.now) }
{
    match op {
        Op::Call(to, count) => Some((*to, *count)),
        _ => None,
    }
}

/// All entries are told what holds there; whether no two clash.
fn enter_all(alloc: Global, ops: &[Op], facts: &mut Vec<Option<Fact>>) -> Result<bool, AllocError>
    requires long { length facts.old.items ≡ length ops.now }
    requires reached { AllReached (code_of ops.now) facts.old.items }
    ensures { IfOk result (λ r. AreEntered (code_of ops.now) facts.old.items facts.new.items r) }
{
    let main = Fact::root(alloc, 0);
    match tell(ops, facts, 0, 0, &main)? {
        Spread::Settled => {}
        Spread::Earlier => {}
        Spread::Wrong => return Ok(false),
    }
    for at in 0..ops.len() {
        if !enter_at(alloc, ops, facts, at)? {
            return Ok(false);
        }
    }
    Ok(true)
}

/// Nothing is known.
fn nothing(alloc: Global, count: usize) -> Result<Vec<Option<Fact>>, AllocError>
    ensures long { IfOk result (λ v. length v.items ≡ count) }
    ensures none { IfOk result (λ v. (at : ℕ) (f : Fact) → Known v.items at f → ⊥) }
{
    let mut facts = Vec::new(alloc);
    for _ in 0..count {
        facts.push(None)?;
    }
    Ok(facts)
}

/// What holds at each instruction to which a way leads; None where the code is not valid.
pub(crate) fn facts_of(alloc: Global, ops: &[Op]) -> Result<Option<Vec<Option<Fact>>>, AllocError>
    requires few { length ops.now < 2 ^ 63 }
    ensures { IfOk result (λ o. MatchOption o (IsInvalid (code_of ops.now)) (λ facts. AreAll (code_of ops.now) facts.items)) }
{
    let mut facts = nothing(alloc, ops.len())?;
    if !enter_all(alloc, ops, &mut facts)? {
        return Ok(None);
    }
    if !close(alloc, ops, &mut facts)? {
        return Ok(None);
    }
    Ok(Some(facts))
}
