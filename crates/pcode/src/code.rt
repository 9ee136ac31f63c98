ghost use Rattle.std.specs.Prelude.{◌≡◌, ◌+◌, ◌<◌, ◌^◌, IfOk, IfSome, option_map, slice_get, slice_index};
ghost use Rattle.vba_values.specs.View.{view};
ghost use Rattle.bound_project.specs.Pieces.{constant_in, name_in, order_in};
ghost use Rattle.pcode.specs.Instructions.{next_statement, entry_of};
ghost use Rattle.pcode.specs.View.{instr_view, tables_of, code_view};

use crate::instr::Instr;
use bound_project::Declarations;
use std::alloc::Global;
use vba_base::NoMemory;
use vba_values::{Value, copy_value};

/// The code of a project. For each procedure its address; for each of its statements the number of the next one and
/// its address; and what the project declares.
#[derive(Drop)]
pub struct Code {
    pub instrs: Vec<Instr>,
    /// The values and the orders of arguments that instructions name by their numbers.
    pub constants: Vec<Value>,
    pub orders: Vec<Vec<u32>>,
    pub starts: Vec<u32>,
    pub nexts: Vec<Vec<u32>>,
    pub entries: Vec<Vec<u32>>,
    pub declared: Declarations,
    /// The number of the procedure that runs first.
    pub startup: u32,
}

impl Code {
    /// The instruction at an address.
    pub fn instr_at(&self, pc: usize) -> Option<Instr>
        ensures instr { option_map (instr_view (tables_of self.now)) result ≡ slice_get (code_view self.now).instrs pc }
        ensures within { IfSome result (λ _. pc + 1 < 2 ^ 64) }
    {
        self.instrs.get(pc).copied()
    }

    /// A copy of a constant, or Empty where there is none with that number.
    pub fn constant(&self, alloc: Global, number: u32) -> Result<Value, NoMemory>
        ensures { IfOk result (λ value. view value ≡ constant_in (tables_of self.now) number) }
    {
        match self.constants.get(number as usize) {
            Some(value) => copy_value(alloc, value),
            None => Ok(Value::Empty),
        }
    }

    /// A name, which is a text constant, or no units where there is none with that number.
    pub fn name(&self, number: u32) -> &[u16]
        ensures { result.now ≡ name_in (tables_of self.now) number }
    {
        let Some(Value::Text(text)) = self.constants.get(number as usize) else {
            return &[];
        };
        text.units()
    }

    /// An order of arguments, or none of them where there is no order with that number.
    pub fn order(&self, number: u32) -> &[u32]
        ensures { result.now ≡ order_in (tables_of self.now) number }
    {
        match self.orders.get(number as usize) {
            Some(order) => order.as_slice(),
            None => &[],
        }
    }

    /// The address of a procedure, or 0 where there is none with that number.
    pub fn start_of(&self, procedure: u32) -> usize
        ensures { result ≡ slice_index (code_view self.now).starts procedure }
    {
        match self.starts.get(procedure as usize) {
            Some(start) => *start as usize,
            None => 0,
        }
    }

    /// The number of the statement that is next after one, or its own where there is none.
    pub fn next_statement(&self, procedure: u32, statement: u64) -> u64
        ensures { result ≡ next_statement (code_view self.now) procedure statement }
    {
        let Some(nexts) = self.nexts.get(procedure as usize) else {
            return statement;
        };
        match nexts.get(statement as usize) {
            Some(next) => u64::from(*next),
            None => statement,
        }
    }

    /// The address of a statement; past the last one it is 0.
    pub fn entry_of(&self, procedure: u32, statement: u64) -> usize
        ensures { result ≡ entry_of (code_view self.now) procedure statement }
    {
        let Some(entries) = self.entries.get(procedure as usize) else {
            return 0;
        };
        match entries.get(statement as usize) {
            Some(entry) => *entry as usize,
            None => 0,
        }
    }
}
