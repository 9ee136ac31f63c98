// One step of the machine.
ghost use Rattle.std.specs.Prelude.{◌≡◌, IfOk};
ghost use Rattle.pcode.specs.Machine.{comes_by, go_on_by, looking, At, Letting, step as machine_step};
ghost use Rattle.pcode.specs.View.{code_view};
ghost use Rattle.pcode_vm.specs.View.{after_view, mode_view, operands_view, backs_view, state_view, config_view};
ghost use Rattle.run_host.specs.View.{told_view};
ghost use Rattle.pcode_vm.specs.Does.{Does};

use crate::frames::{close, decide, pass_on, returns};
use crate::letting::let_one;
use pcode::Code;
use pcode_vm::{After, Machine, Mode, Step};
use std::alloc::Global;
use std::mem;
use vba_base::NoMemory;

// All are let go.
fn come(
    machine: &mut Machine,
    alloc: Global,
    code: &Code,
    turns: u64,
    after: After,
) -> Result<Step, NoMemory>
    ensures { IfOk result (λ step. Does turns (comes_by looking (code_view code.now) (after_view after) (backs_view machine.old.backs) (state_view machine.old)) machine.old machine.new step) }
{
    match after {
        After::GoesOn { to } => {
            machine.operands.clear();
            machine.go_on(to);
            Ok(Step::On)
        }
        After::Decide(error) => decide(machine, alloc, code, turns, error),
        After::BackTo { pc, operands } => {
            machine.operands = operands;
            machine.go_on(pc);
            Ok(Step::On)
        }
        After::Return => returns(machine, alloc, code, turns),
        After::Pass(error) => pass_on(machine, alloc, turns, error),
        After::Close { first, shared } => close(machine, alloc, turns, first, shared),
    }
}

// Where the machine isn't at an address: an error is on its way to the frame, or references are let go.
fn go_between(
    machine: &mut Machine,
    alloc: Global,
    code: &Code,
    turns: u64,
    mode: Mode,
) -> Result<Step, NoMemory>
    ensures { IfOk result (λ step. Does turns (go_on_by looking (code_view code.now) (mode_view mode) (operands_view machine.old.operands) (backs_view machine.old.backs) (state_view machine.old)) machine.old machine.new step) }
{
    match mode {
        Mode::At { pc } => act_at(machine, alloc, code, turns, pc),
        Mode::Failing(error) => {
            machine.memory.unlent(alloc);
            machine.lets(alloc, After::Decide(error))?;
            Ok(Step::On)
        }
        Mode::Letting { count, after } => let_some(machine, alloc, code, turns, count, after),
    }
}

// So many waiting references.
#[tactic(auto, using(crate::proofs::Waiting::one_fewer))]
fn let_some(
    machine: &mut Machine,
    alloc: Global,
    code: &Code,
    turns: u64,
    count: usize,
    after: After,
) -> Result<Step, NoMemory>
    ensures { IfOk result (λ step. Does turns (go_on_by looking (code_view code.now) (Letting count (after_view after)) (operands_view machine.old.operands) (backs_view machine.old.backs) (state_view machine.old)) machine.old machine.new step) }
{
    if count == 0 {
        return come(machine, alloc, code, turns, after);
    }
    let_one(machine, alloc, code, turns, count - 1, after)
}

// The instruction at an address.
fn act_at(
    machine: &mut Machine,
    alloc: Global,
    code: &Code,
    turns: u64,
    pc: usize,
) -> Result<Step, NoMemory>
    ensures { IfOk result (λ step. Does turns (go_on_by looking (code_view code.now) (At pc) (operands_view machine.old.operands) (backs_view machine.old.backs) (state_view machine.old)) machine.old machine.new step) }
{
    match code.instr_at(pc) {
        Some(instr) => machine.act(alloc, code, turns, pc, instr),
        None => Ok(Step::Stuck),
    }
}

/// One step: one instruction, one waiting reference or one decision about an error.
pub fn step(machine: &mut Machine, alloc: Global, code: &Code, turns: u64) -> Result<Step, NoMemory>
    ensures { IfOk result (λ step. Does turns (machine_step (code_view code.now) (config_view machine.old)) machine.old machine.new step) }
{
    if let Mode::At { pc } = &machine.mode {
        let pc = *pc;
        return act_at(machine, alloc, code, turns, pc);
    }
    let mode = take_mode(machine);
    go_between(machine, alloc, code, turns, mode)
}

// What the machine is at, which it turns from.
fn take_mode(machine: &mut Machine) -> Mode
    ensures mode { mode_view result ≡ mode_view machine.old.mode }
    ensures operands { operands_view machine.new.operands ≡ operands_view machine.old.operands }
    ensures backs { backs_view machine.new.backs ≡ backs_view machine.old.backs }
    ensures state { state_view machine.new ≡ state_view machine.old }
    ensures told { told_view machine.new.told ≡ told_view machine.old.told }
{
    mem::replace(&mut machine.mode, Mode::At { pc: 0 })
}
