// A run of code, with the memory that it needs.
ghost use Rattle.std.specs.Prelude.{◌≡◌, ◌<◌, ◌*◌, ◌^◌, ◌+◌, suc, length, IfOk, OnOk};
ghost use Rattle.runner.specs.Running.{IsValidCode};
ghost use Rattle.runner.specs.Runners.{IsFresh, MayRun, IsRun, AreEmpty};

use crate::frames::Resume;
use crate::run::{End, run_code};
use crate::slots::Slot;
use crate::words::{Cell, Word};
use ground::Memory;
use ports::{Sink, Source};
use record_flow::Flow;
use stack_code::Code;
use std::alloc::{AllocError, Global};

/// Valid code with its stack, its store and its levels of calls, and what came of its run.
#[derive(Drop)]
pub struct Runner {
    code: Code,
    stack: Vec<Word>,
    cells: Vec<Slot>,
    spots: Vec<Word>,
    resumes: Vec<Resume>,
    flow: Flow,
    steps: u64,
    begun: u64,
    executed: u64,
    end: Option<End>,
}

impl Runner {
    /// Takes all the memory that a run of the code needs, in which at most so many statements may begin.
    pub fn new(alloc: Global, code: Code, steps: u64) -> Result<Runner, Memory>
        requires valid { IsValidCode code }
        requires few { code.units < 2 ^ 31 }
        ensures { IfOk result (λ r. IsFresh code steps r) }
    {
        let cells = empty_cells(alloc, code.units)?;
        let stack = blank_words(alloc, code.stack, code.depth)?;
        let spots = blank_words(alloc, code.dummies as usize, code.depth)?;
        let resumes = blank_callers(alloc, code.depth)?;
        let flow = Flow::new(alloc)?;
        Ok(Runner {
            code,
            stack,
            cells,
            spots,
            resumes,
            flow,
            steps,
            begun: 0,
            executed: 0,
            end: None,
        })
    }

    /// Runs the code over a source and a sink, and takes no memory. Later calls answer the first end and do nothing.
    pub fn run<S: Source, K: Sink>(&mut self, input: &mut S, out: &mut K) -> End
        requires { MayRun self.old }
        ensures { IsRun S.left K.puts S.faults K.faults input.old input.new out.old out.new self.old self.new result }
    {
        if let Some(end) = self.end {
            return end;
        }
        let ran = run_code(
            &self.code,
            &mut self.flow,
            input,
            out,
            &mut self.stack,
            &mut self.cells,
            &mut self.spots,
            &mut self.resumes,
            self.steps,
        );
        self.begun = self.steps.saturating_sub(ran.left);
        self.executed = ran.executed;
        self.end = Some(ran.end);
        ran.end
    }

    /// How many statements and turns of implied DO have begun.
    pub fn begun(&self) -> u64
        ensures { result ≡ self.now.begun }
    {
        self.begun
    }

    /// How many instructions were executed, at most the greatest number of this type.
    pub fn executed(&self) -> u64
        ensures { result ≡ self.now.executed }
    {
        self.executed
    }
}

fn empty_cells(alloc: Global, units: u32) -> Result<Vec<Slot>, AllocError>
    ensures { IfOk result (λ v. AreEmpty v.items units) }
{
    let mut cells = Vec::new(alloc);
    for made in 0..units {
        cells.push(Slot::new(Cell::Nothing))?;
    }
    Ok(cells)
}

/// So many words for each level, and for the one above them all.
fn blank_words(alloc: Global, each: usize, levels: usize) -> Result<Vec<Word>, AllocError>
    ensures { IfOk result (λ v. length v.items ≡ suc levels * each) }
{
    let mut words = Vec::new(alloc);
    for level in 0..levels {
        grow(&mut words, each)?;
    }
    grow(&mut words, each)?;
    Ok(words)
}

/// So many words more.
fn grow(words: &mut Vec<Word>, count: usize) -> Result<(), AllocError>
    ensures { OnOk result (length words.new.items ≡ length words.old.items + count) }
{
    for made in 0..count {
        words.push(Word {
            value: 0,
            behind: 0,
        })?;
    }
    Ok(())
}

fn blank_callers(alloc: Global, count: usize) -> Result<Vec<Resume>, AllocError>
    ensures { IfOk result (λ v. length v.items ≡ count) }
{
    let mut callers = Vec::new(alloc);
    for made in 0..count {
        callers.push(Resume { at: 0, begun: 0 })?;
    }
    Ok(callers)
}
