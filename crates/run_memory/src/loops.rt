// For ([MS-VBAL] 5.4.2.3), GoSub (5.4.2.15), and the tests of Select Case (5.4.2.10).
ghost use Rattle.std.specs.Prelude.{◌≡◌, IfOk, IsTrue, OnOk, Some, map, option_map, pos, reverse};
ghost use Rattle.vba_values.specs.Operators.{has_two_operands};
ghost use Rattle.vba_values.specs.Val.{whole};
ghost use Rattle.vba_values.specs.View.{view};
ghost use Rattle.vba_values.specs.declared.types.WholeKind.TheVariants as kind;
ghost use Rattle.bound_project.specs.View.{declared_view, variable_view};
ghost use Rattle.vba_meaning.specs.Memory.{Memory as PlainMemory, found, top, without};
ghost use Rattle.vba_meaning.specs.Effects.{counted, counts_down, done, fits, fits_between, gone_sub, loop_off, loop_on, looping, next_round, returned_sub, stepped, within};
ghost use Rattle.run_memory.specs.Acts.{Acts};
ghost use Rattle.run_memory.specs.Keeps.{others};
ghost use Rattle.run_memory.specs.View.{loop_at_view, loop_view, memory_view, typed_view};

use crate::frame::{Loop, Typed};
use crate::memory::Memory;
use crate::values::{is_true, operated};
use bound_project::{DeclaredType, ElementType, Variable};
use std::alloc::Global;
use vba_base::{NoMemory, OrMemory};
use vba_values::{Bad, Compare, OpKind, Value, copy_value};

/// Whether a test of a Case fits: a comparison that gives Null doesn't.
#[tactic(auto, using(crate::proofs::Refused::refused_then))]
pub fn fits(
    alloc: Global,
    op: OpKind,
    compare: Compare,
    of: DeclaredType,
    test: DeclaredType,
    first: &Value,
    second: &Value,
) -> Result<bool, OrMemory<Bad>>
    requires { IsTrue (has_two_operands op) }
    ensures { (m : PlainMemory) → Acts (λ fits. fits) result m (fits op compare (declared_view of) (declared_view test) (view first.now) (view second.now) m) }
{
    let answer = operated(alloc, op, compare, of, test, first, second)?;
    Ok(is_true(&answer))
}

/// Whether a value is between two others.
#[tactic(auto, using(crate::proofs::Refused::refused_then))]
pub fn fits_between(
    alloc: Global,
    compare: Compare,
    of: DeclaredType,
    low: DeclaredType,
    high: DeclaredType,
    value: &Value,
    first: &Value,
    last: &Value,
) -> Result<bool, OrMemory<Bad>>
    ensures { (m : PlainMemory) → Acts (λ fits. fits) result m
        (fits_between compare (declared_view of) (declared_view low) (declared_view high) (view value.now) (view first.now) (view last.now) m) }
{
    let above = operated(alloc, OpKind::Ge, compare, of, low, value, first)?;
    let below = operated(alloc, OpKind::Le, compare, of, high, value, last)?;
    Ok(is_true(&above) && is_true(&below))
}

/// Whether a loop counts down: its step is below 0.
fn counts_down(alloc: Global, standing: &Loop) -> Result<bool, OrMemory<Bad>>
    ensures { (m : PlainMemory) → Acts (λ down. down) result m (counts_down (loop_view standing.now) m) }
{
    fits(
        alloc,
        OpKind::Lt,
        standing.compare,
        standing.step.of,
        DeclaredType::Plain(ElementType::Integer),
        &standing.step.value,
        &zero(),
    )
}

fn zero() -> Value
    ensures { view result ≡ whole kind.Integer (pos 0) }
{
    Value::Integer(0)
}

/// Whether a counter is still within its loop.
#[tactic(auto, using(crate::proofs::Refused::refused_then))]
fn within(
    alloc: Global,
    of: DeclaredType,
    value: &Value,
    standing: &Loop,
) -> Result<bool, OrMemory<Bad>>
    ensures { (m : PlainMemory) → Acts (λ within. within) result m (within (declared_view of) (view value.now) (loop_view standing.now) m) }
{
    let down = counts_down(alloc, standing)?;
    if down {
        return fits(
            alloc,
            OpKind::Ge,
            standing.compare,
            of,
            standing.last.of,
            value,
            &standing.last.value,
        );
    }
    fits(
        alloc,
        OpKind::Le,
        standing.compare,
        of,
        standing.last.of,
        value,
        &standing.last.value,
    )
}

impl Memory {
    /// The header of a For begins: the loop counts as not begun.
    pub fn loop_off(&mut self, alloc: Global, header: u32)
        ensures { loop_off header (memory_view self.old) ≡ done (memory_view self.new) }
    {
        self.stand(alloc);
        remove_loops(&mut self.top.loops, header);
    }

    /// The counter takes a value; the answer is whether that is within the loop.
    #[tactic(auto, using(crate::proofs::Refused::refused_then))]
    fn counted(
        &mut self,
        alloc: Global,
        counter: Variable,
        value: Value,
        standing: &Loop,
    ) -> Result<bool, OrMemory<Bad>>
        ensures { Acts (λ within. within) result (memory_view self.new) (counted (variable_view counter) (view value) (loop_view standing.now) (memory_view self.old)) }
    {
        let path = self.path_of(alloc, counter)?;
        self.assigned(alloc, &path, value)?;
        let path = self.path_of(alloc, counter)?;
        let value = self.read_path(alloc, &path)?;
        within(alloc, counter.of, &value, standing)
    }

    /// A For begins: whether its block is entered.
    #[tactic(auto, using(crate::proofs::Refused::refused_then))]
    pub fn loop_on(
        &mut self,
        alloc: Global,
        counter: Variable,
        header: u32,
        standing: Loop,
        start: Value,
    ) -> Result<bool, OrMemory<Bad>>
        ensures { Acts (λ on. on) result (memory_view self.new)
            (loop_on (variable_view counter) header standing.compare (declared_view standing.last.of) (declared_view standing.step.of)
            (view start) (view standing.last.value) (view standing.step.value) (memory_view self.old)) }
    {
        let on = self.counted(alloc, counter, start, &standing)?;
        self.looping(alloc, header, standing)?;
        Ok(on)
    }

    fn looping(&mut self, alloc: Global, header: u32, standing: Loop) -> Result<(), NoMemory>
        ensures { OnOk result (memory_view self.new ≡ looping header (loop_view standing) (memory_view self.old)) }
    {
        self.stand(alloc);
        self.top.loops.push((header, standing))?;
        Ok(())
    }

    /// The loop of a header that was begun last.
    fn loop_at(&self, alloc: Global, header: u32) -> Result<Option<Loop>, NoMemory>
        ensures { IfOk result (λ standing. option_map loop_view standing ≡ found (top (memory_view self.now)).loops header) }
    {
        if !self.stands {
            return Ok(None);
        }
        match last_loop(self.top.loops.as_slice(), header) {
            Some(standing) => Ok(Some(standing.copy(alloc)?)),
            None => Ok(None),
        }
    }

    /// The step is added to the counter; an object gives way to its default value.
    #[tactic(auto, using(crate::proofs::Refused::refused_then))]
    fn stepped(
        &mut self,
        alloc: Global,
        counter: Variable,
        standing: &Loop,
    ) -> Result<bool, OrMemory<Bad>>
        ensures { Acts (λ on. on) result (memory_view self.new) (stepped (Some (loop_view standing.now)) (variable_view counter) (memory_view self.old)) }
    {
        let path = self.path_of(alloc, counter)?;
        let value = self.read_path(alloc, &path)?;
        let value = self.plain(alloc, value)?;
        let value = operated(
            alloc,
            OpKind::Add,
            standing.compare,
            counter.of,
            standing.step.of,
            &value,
            &standing.step.value,
        )?;
        self.counted(alloc, counter, value, standing)
    }

    /// Next adds the step: whether the block is entered again. A loop that wasn't begun raises 92.
    #[tactic(auto, using(crate::proofs::Refused::refused_then))]
    pub fn next_round(
        &mut self,
        alloc: Global,
        counter: Variable,
        header: u32,
    ) -> Result<bool, OrMemory<Bad>>
        ensures { Acts (λ on. on) result (memory_view self.new) (next_round (variable_view counter) header (memory_view self.old)) }
    {
        let Some(standing) = self.loop_at(alloc, header)? else {
            return Err(OrMemory::Fault(Bad::Raise(92)));
        };
        self.stepped(alloc, counter, &standing)
    }

    /// A GoSub keeps where Return goes on.
    pub fn gone_sub(&mut self, alloc: Global, statement: u32) -> Result<(), NoMemory>
        ensures { OnOk result (gone_sub statement (memory_view self.old) ≡ done (memory_view self.new)) }
    {
        self.stand(alloc);
        self.top.returns.push(statement)?;
        Ok(())
    }

    /// Return: where the run goes on. Without a GoSub it raises 3.
    pub fn returned_sub(&mut self) -> Result<u32, OrMemory<Bad>>
        ensures { Acts (λ statement. statement) result (memory_view self.new) (returned_sub (memory_view self.old)) }
    {
        if !self.stands {
            return Err(OrMemory::Fault(Bad::Raise(3)));
        }
        match self.top.returns.pop() {
            Some(statement) => Ok(statement),
            None => Err(OrMemory::Fault(Bad::Raise(3))),
        }
    }
}

/// The loops of a header are begun no longer.
#[tactic(auto, using(crate::proofs::Others::loops_without))]
fn remove_loops(loops: &mut Vec<(u32, Loop)>, header: u32)
    ensures { map loop_at_view (reverse loops.new.items) ≡ without (map loop_at_view (reverse loops.old.items)) header }
{
    retain_loops(loops, header);
}

fn retain_loops(loops: &mut Vec<(u32, Loop)>, header: u32)
    ensures { loops.new.items ≡ others header loops.old.items }
{
    loops.retain(|entry| entry.0 != header);
}

/// The last one of a header.
#[tactic(auto, using(crate::proofs::Others::last_found))]
fn last_loop(loops: &[(u32, Loop)], header: u32) -> Option<&Loop>
    ensures { option_map (λ standing. loop_view standing.now) result ≡ found (map loop_at_view (reverse loops.now)) header }
{
    match loops {
        [] => None,
        [loops @ .., last] => if last.0 == header {
            Some(&last.1)
        } else {
            last_loop(loops, header)
        },
    }
}

impl Typed {
    fn copy(&self, alloc: Global) -> Result<Typed, NoMemory>
        ensures { IfOk result (λ copy. typed_view copy ≡ typed_view self.now) }
    {
        let value = copy_value(alloc, &self.value)?;
        Ok(Typed { value, of: self.of })
    }
}

impl Loop {
    fn copy(&self, alloc: Global) -> Result<Loop, NoMemory>
        ensures { IfOk result (λ copy. loop_view copy ≡ loop_view self.now) }
    {
        let last = self.last.copy(alloc)?;
        let step = self.step.copy(alloc)?;
        Ok(Loop {
            last,
            step,
            compare: self.compare,
        })
    }
}
