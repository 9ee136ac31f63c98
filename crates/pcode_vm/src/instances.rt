// Objects of classes: they are made, their procedures are called, and their variables are places.
ghost use Rattle.std.specs.Prelude.{◌≡◌, ◌++◌, IfOk, OnOk, Some, ◌<◌, ◌+◌, ◌^◌};
ghost use Rattle.vba_values.specs.Val.{object};
ghost use Rattle.vba_values.specs.View.{view};
ghost use Rattle.vba_values.specs.declared.object.ObjRef.TheVariants.{Heap};
ghost use Rattle.bound_project.specs.Project.{class_at};
ghost use Rattle.bound_project.specs.View.{declared_view};
ghost use Rattle.vba_meaning.specs.Objects.{field_in, made, object_there};
ghost use Rattle.run_memory.specs.Acts.{Acts};
ghost use Rattle.run_memory.specs.View.{memory_view, path_view};
ghost use Rattle.run_host.specs.View.{told_view};
ghost use Rattle.pcode.specs.Instructions as plain;
ghost use Rattle.pcode.specs.Machine.{done_then, initializes};
ghost use Rattle.pcode.specs.View.{code_view};
ghost use Rattle.pcode_vm.specs.Does.{Acted, Does};
ghost use Rattle.pcode_vm.specs.Made.{made_events, makes_if};
ghost use Rattle.pcode_vm.specs.View.{backs_view, operands_view, state_view};

use crate::machine::Machine;
use crate::step::{Step, Why};
use bound_project::{DeclaredType, initialize_of};
use pcode::Code;
use run_host::{Event, Told};
use run_memory::{Memory, Path};
use run_objects::{field_in, made, made_there, object_there, own_object, stored_made};
use std::alloc::Global;
use vba_base::{NoMemory, OrMemory};
use vba_values::{Bad, ObjId, ObjRef, Value};

// Whether there is an object, with the memory that stays as it is.
fn finds_object(memory: &Memory, value: &Value) -> Result<Value, OrMemory<Bad>>
    ensures { Acts view result (memory_view memory.now) (object_there (view value.now) (memory_view memory.now)) }
{
    object_there(value)
}

// The place of a variable of an object, with the memory that stays as it is.
fn finds_field(
    memory: &Memory,
    alloc: Global,
    field: u32,
    of: DeclaredType,
    is_bounded: bool,
    value: &Value,
) -> Result<Path, OrMemory<Bad>>
    ensures { Acts path_view result (memory_view memory.now) (field_in field (declared_view of) is_bounded (view value.now) (memory_view memory.now)) }
{
    field_in(alloc, field, of, is_bounded, value)
}

// The object of a class is told; a Collection isn't.
#[tactic(auto, using(crate::proofs::Making::none_told, crate::proofs::Making::one_told))]
fn tell_made(told: &mut Told, class: u32, number: u32) -> Result<(), NoMemory>
    ensures { OnOk result (told_view told.new ≡ told_view told.old ++ made_events class number) }
{
    if class == 0 {
        return Ok(());
    }
    told.push(Event::Init { class, number })
}

impl Machine {
    // The object whose procedure runs.
    pub fn push_this(
        &mut self,
        alloc: Global,
        code: &Code,
        turns: u64,
        pc: usize,
    ) -> Result<Step, NoMemory>
        requires { pc + 1 < 2 ^ 64 }
        ensures { IfOk result (λ step. Acted turns (code_view code.now) (plain.PushThis) pc self.old self.new step) }
    {
        let value = own_object(&mut self.memory, alloc)?;
        self.operands.push_value(value)?;
        self.go_on(pc + 1);
        Ok(Step::On)
    }

    // A new object of a class, below what its Class_Initialize gives.
    pub fn new_object(
        &mut self,
        alloc: Global,
        code: &Code,
        turns: u64,
        pc: usize,
        class: u32,
    ) -> Result<Step, NoMemory>
        requires { pc + 1 < 2 ^ 64 }
        ensures { IfOk result (λ step. Acted turns (code_view code.now) (plain.New class) pc self.old self.new step) }
    {
        self.make_object(alloc, code, turns, pc + 1, class)
    }

    // An object of a class is made and told, and the machine goes on at an address once it is initialized.
    fn make_object(
        &mut self,
        alloc: Global,
        code: &Code,
        turns: u64,
        next: usize,
        class: u32,
    ) -> Result<Step, NoMemory>
        ensures { IfOk result (λ step. Does turns (done_then (made (code_view code.now).declared class (memory_view self.old.memory)) (backs_view self.old.backs) (state_view self.old)
            (λ v s. initializes (code_view code.now) (class_at (code_view code.now).declared class).initialize v next (operands_view self.old.operands) (backs_view self.old.backs) s)) self.old self.new step) }
    {
        let number = made(&mut self.memory, alloc, &code.declared, class)?;
        tell_made(&mut self.told, class, number)?;
        let procedure = initialize_of(&code.declared, class);
        self.initialize(alloc, code, turns, next, procedure, number)
    }

    // The Class_Initialize of a new object is called; where none is written, Empty stands above the object.
    fn initialize(
        &mut self,
        alloc: Global,
        code: &Code,
        turns: u64,
        next: usize,
        procedure: Option<u32>,
        number: u32,
    ) -> Result<Step, NoMemory>
        ensures { IfOk result (λ step. Does turns (initializes (code_view code.now) procedure (object (Heap (record { 0 = number }))) next (operands_view self.old.operands) (backs_view self.old.backs) (state_view self.old))
            self.old self.new step) }
    {
        let reference = ObjRef::Heap(ObjId(number));
        self.operands.push_value(Value::Object(reference))?;
        let Some(procedure) = procedure else {
            self.operands.push_value(Value::Empty)?;
            self.go_on(next);
            return Ok(Step::On);
        };
        let none = Vec::new(alloc);
        self.call_with(
            alloc,
            code,
            turns,
            next,
            procedure,
            Value::Object(reference),
            none,
        )
    }

    // Whether there is an object on top.
    pub fn object_there(
        &mut self,
        alloc: Global,
        code: &Code,
        turns: u64,
        pc: usize,
    ) -> Result<Step, NoMemory>
        requires { pc + 1 < 2 ^ 64 }
        ensures { IfOk result (λ step. Acted turns (code_view code.now) (plain.ObjectThere) pc self.old self.new step) }
    {
        let Some(value) = self.operands.pop_value() else {
            return Ok(Step::Stuck);
        };
        let value = attempt!(self, alloc, turns, finds_object(&self.memory, &value));
        self.operands.push_value(value)?;
        self.go_on(pc + 1);
        Ok(Step::On)
    }

    // The place of a variable of the object on top.
    pub fn field_in(
        &mut self,
        alloc: Global,
        code: &Code,
        turns: u64,
        pc: usize,
        field: u32,
        of: DeclaredType,
        is_bounded: bool,
    ) -> Result<Step, NoMemory>
        requires { pc + 1 < 2 ^ 64 }
        ensures { IfOk result (λ step. Acted turns (code_view code.now) (plain.FieldIn field (declared_view of) is_bounded) pc self.old self.new step) }
    {
        let Some(value) = self.operands.pop_value() else {
            return Ok(Step::Stuck);
        };
        let path = attempt!(
            self,
            alloc,
            turns,
            finds_field(&self.memory, alloc, field, of, is_bounded, &value)
        );
        self.operands.push_path(path)?;
        self.go_on(pc + 1);
        Ok(Step::On)
    }

    // The path on top is that of a place declared As New.
    pub fn as_new(
        &mut self,
        alloc: Global,
        code: &Code,
        turns: u64,
        pc: usize,
        class: u32,
    ) -> Result<Step, NoMemory>
        requires { pc + 1 < 2 ^ 64 }
        ensures { IfOk result (λ step. Acted turns (code_view code.now) (plain.AsNew class) pc self.old self.new step) }
    {
        let Some(path) = self.operands.pop_path() else {
            return Ok(Step::Stuck);
        };
        self.operands.push_path(path.making(class))?;
        self.go_on(pc + 1);
        Ok(Step::On)
    }

    // An object is made where Nothing is at the path on top, below what its Class_Initialize gives; else Empty stands there.
    pub fn make_there(
        &mut self,
        alloc: Global,
        code: &Code,
        turns: u64,
        pc: usize,
    ) -> Result<Step, NoMemory>
        requires { pc + 1 < 2 ^ 64 }
        ensures { IfOk result (λ step. Acted turns (code_view code.now) (plain.MakeThere) pc self.old self.new step) }
    {
        let Some(path) = self.operands.pop_path() else {
            return Ok(Step::Stuck);
        };
        let makes = made_there(&self.memory, alloc, &path)?;
        self.operands.push_path(path)?;
        self.make_if(alloc, code, turns, pc + 1, makes)
    }

    // An object is made where a class is given, below what its Class_Initialize gives; else Empty stands there, below Empty.
    fn make_if(
        &mut self,
        alloc: Global,
        code: &Code,
        turns: u64,
        next: usize,
        makes: Option<u32>,
    ) -> Result<Step, NoMemory>
        ensures { IfOk result (λ step. Does turns (makes_if (code_view code.now) makes next (operands_view self.old.operands) (backs_view self.old.backs) (state_view self.old)) self.old self.new step) }
    {
        let Some(class) = makes else {
            self.operands.push_value(Value::Empty)?;
            self.operands.push_value(Value::Empty)?;
            self.go_on(next);
            return Ok(Step::On);
        };
        self.make_object(alloc, code, turns, next, class)
    }

    // What was made is stored at the path below it.
    pub fn store_made(
        &mut self,
        alloc: Global,
        code: &Code,
        turns: u64,
        pc: usize,
    ) -> Result<Step, NoMemory>
        requires { pc + 1 < 2 ^ 64 }
        ensures { IfOk result (λ step. Acted turns (code_view code.now) (plain.StoreMade) pc self.old self.new step) }
    {
        let Some(value) = self.operands.pop_value() else {
            return Ok(Step::Stuck);
        };
        let Some(path) = self.operands.pop_path() else {
            return Ok(Step::Stuck);
        };
        attempt!(
            self,
            alloc,
            turns,
            stored_made(&mut self.memory, alloc, &path, value)
        );
        self.operands.push_path(path)?;
        self.go_on(pc + 1);
        Ok(Step::On)
    }

    // A call of the object below so many arguments.
    pub fn call_of(
        &mut self,
        alloc: Global,
        code: &Code,
        turns: u64,
        pc: usize,
        procedure: u32,
        arguments: u32,
    ) -> Result<Step, NoMemory>
        requires { pc + 1 < 2 ^ 64 }
        ensures { IfOk result (λ step. Acted turns (code_view code.now) (plain.CallOf procedure arguments) pc self.old self.new step) }
    {
        let Some(taken) = self.operands.take(alloc, arguments)? else {
            return Ok(Step::Stuck);
        };
        let Some(me) = self.operands.pop_value() else {
            return Ok(Step::Stuck);
        };
        self.call_with(alloc, code, turns, pc + 1, procedure, me, taken)
    }
}
