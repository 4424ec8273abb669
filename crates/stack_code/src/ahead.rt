// What lies ahead of each instruction of a code: how deep calls go, and whether there is a Return.
ghost use Rattle.std.specs.Prelude.{◌≡◌, ◌<◌, ◌≤◌, ◌^◌, ℕ, length, get_or, IfOk, MatchOption};
ghost use Rattle.stack_code.specs.Views.{instruction_of, code_of};
ghost use Rattle.stack_code.specs.Facts.{AreAll, IsInvalid};
ghost use Rattle.stack_code.specs.Instructions.{Call};
ghost use Rattle.stack_code.specs.ValidCode.{ways, NeverReturns};
ghost use Rattle.stack_code.specs.Ahead as spec;
ghost use Rattle.stack_code.specs.Ahead.{AllHold, AreTargets, IsRaised, IsLook, IsSweep, IsSwept, HasMainDepth, join_all, nothing};

use crate::ways::ways_of;
use crate::{Fact, Op};
use std::alloc::{AllocError, Global};

/// What lies ahead of an instruction, whatever way goes on from it: how deep calls go, and whether there is a Return.
#[derive(Clone, Copy)]
pub(crate) struct Ahead {
    depth: usize,
    returns: bool,
}

/// What looking ahead of an instruction comes to: all is known already; or more is known now; or there is a cycle of calls.
#[derive(Clone, Copy)]
enum Raised {
    Settled,
    Higher,
    Wrong,
}

fn joined(a: Ahead, b: Ahead) -> Ahead
    ensures { result ≡ spec.joined a b }
{
    Ahead {
        depth: if a.depth <= b.depth { b.depth } else { a.depth },
        returns: a.returns || b.returns,
    }
}

fn covers(a: Ahead, b: Ahead) -> bool
    ensures { result ≡ spec.covers a b }
{
    b.depth <= a.depth && (a.returns || !b.returns)
}

fn ahead_at(ahead: &[Ahead], at: usize) -> Ahead
    requires within { at < length ahead.now }
    ensures { result ≡ spec.ahead_in ahead.now at }
{
    ahead[at]
}

/// What the instruction adds by itself to what lies ahead of those to which it leads.
fn own(op: &Op, ahead: &[Ahead]) -> Ahead
    requires few { length ahead.now < 2 ^ 63 }
    requires small { (pc : ℕ) → (spec.ahead_in ahead.now pc).depth ≤ length ahead.now }
    requires within { (to n : ℕ) → instruction_of op.now ≡ Call to n → to < length ahead.now }
    ensures { result ≡ spec.own (instruction_of op.now) ahead.now }
{
    match op {
        Op::Call(to, _) => Ahead {
            depth: ahead_at(ahead, *to as usize).depth + 1,
            returns: false,
        },
        Op::Return => Ahead {
            depth: 0,
            returns: true,
        },
        _ => Ahead {
            depth: 0,
            returns: false,
        },
    }
}

/// What lies ahead of the instruction at `pc`, by what is found ahead of those to which it leads.
fn ahead_of(alloc: Global, op: &Op, pc: usize, ahead: &[Ahead]) -> Result<Ahead, AllocError>
    requires few { length ahead.now < 2 ^ 63 }
    requires within { pc < length ahead.now }
    requires small { (pc : ℕ) → (spec.ahead_in ahead.now pc).depth ≤ length ahead.now }
    requires targets { AreTargets (instruction_of op.now) pc (length ahead.now) }
    ensures { IfOk result (λ a. a ≡ join_all (spec.own (instruction_of op.now) ahead.now) (ways (instruction_of op.now) pc) ahead.now) }
{
    let mut found = own(op, ahead);
    let ways = ways_of(alloc, op, pc)?;
    for to in &ways {
        found = joined(found, ahead_at(ahead, *to));
    }
    Ok(found)
}

/// What is found ahead of the instruction at `at` is kept.
fn raise(ahead: &mut Vec<Ahead>, at: usize, found: Ahead) -> Raised
    requires within { at < length ahead.old.items }
    ensures { IsRaised ahead.old.items ahead.new.items at found result }
{
    let here = ahead[at];
    if covers(here, found) {
        return Raised::Settled;
    }
    if found.depth > ahead.len() {
        return Raised::Wrong;
    }
    ahead[at] = joined(here, found);
    Raised::Higher
}

/// Looks ahead of the instruction at `at`, if a way leads there.
fn look_ahead(
    alloc: Global,
    ops: &[Op],
    facts: &[Option<Fact>],
    ahead: &mut Vec<Ahead>,
    at: usize,
) -> Result<Raised, AllocError>
    requires few { length ops.now < 2 ^ 63 }
    requires within { at < length ops.now }
    requires all { AreAll (code_of ops.now) facts.now }
    requires holds { AllHold (code_of ops.now) ahead.old.items }
    ensures { IfOk result (λ r. IsLook (code_of ops.now) facts.now ahead.old.items ahead.new.items at r) }
{
    match &facts[at] {
        None => Ok(Raised::Settled),
        Some(_) => {
            let found = ahead_of(alloc, &ops[at], at, ahead)?;
            Ok(raise(ahead, at, found))
        }
    }
}

/// Looks ahead of all instructions once, from the last one on.
fn sweep(
    alloc: Global,
    ops: &[Op],
    facts: &[Option<Fact>],
    ahead: &mut Vec<Ahead>,
) -> Result<Raised, AllocError>
    requires few { length ops.now < 2 ^ 63 }
    requires all { AreAll (code_of ops.now) facts.now }
    requires holds { AllHold (code_of ops.now) ahead.old.items }
    ensures { IfOk result (λ r. IsSweep (code_of ops.now) facts.now ahead.old.items ahead.new.items r) }
{
    let mut higher = false;
    for at in (0..ops.len()).rev() {
        match look_ahead(alloc, ops, facts, ahead, at)? {
            Raised::Settled => {}
            Raised::Higher => higher = true,
            Raised::Wrong => return Ok(Raised::Wrong),
        }
    }
    if higher {
        Ok(Raised::Higher)
    } else {
        Ok(Raised::Settled)
    }
}

/// Looks ahead until all is known; whether there is no cycle of calls.
fn sweep_all(
    alloc: Global,
    ops: &[Op],
    facts: &[Option<Fact>],
    ahead: &mut Vec<Ahead>,
) -> Result<bool, AllocError>
    requires few { length ops.now < 2 ^ 63 }
    requires all { AreAll (code_of ops.now) facts.now }
    requires holds { AllHold (code_of ops.now) ahead.old.items }
    ensures { IfOk result (λ r. IsSwept (code_of ops.now) facts.now ahead.new.items r) }
{
    'again: loop {
        match sweep(alloc, ops, facts, ahead)? {
            Raised::Settled => return Ok(true),
            Raised::Higher => {}
            Raised::Wrong => return Ok(false),
        }
    }
}

/// Nothing is known yet of what lies ahead.
fn unknown(alloc: Global, count: usize) -> Result<Vec<Ahead>, AllocError>
    ensures long { IfOk result (λ v. length v.items ≡ count) }
    ensures nothing { IfOk result (λ v. (at : ℕ) → get_or v.items at nothing ≡ nothing) }
{
    let mut ahead = Vec::new(alloc);
    for _ in 0..count {
        ahead.push(Ahead {
            depth: 0,
            returns: false,
        })?;
    }
    Ok(ahead)
}

/// How deep the main calls; None where there is a cycle of calls, or a way from the main's entry to a Return.
pub(crate) fn depth_of(
    alloc: Global,
    ops: &[Op],
    facts: &[Option<Fact>],
) -> Result<Option<usize>, AllocError>
    requires few { length ops.now < 2 ^ 63 }
    requires all { AreAll (code_of ops.now) facts.now }
    ensures { IfOk result (λ o. MatchOption o (IsInvalid (code_of ops.now)) (λ deep. HasMainDepth (code_of ops.now) deep × NeverReturns (code_of ops.now))) }
{
    let mut ahead = unknown(alloc, ops.len())?;
    if !sweep_all(alloc, ops, facts, &mut ahead)? {
        return Ok(None);
    }
    let main = first(&ahead);
    if main.returns {
        return Ok(None);
    }
    Ok(Some(main.depth))
}

fn first(ahead: &[Ahead]) -> Ahead
    ensures { result ≡ spec.ahead_in ahead.now 0 }
{
    if ahead.is_empty() {
        Ahead {
            depth: 0,
            returns: false,
        }
    } else {
        ahead[0]
    }
}
