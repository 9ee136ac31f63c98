ghost use Rattle.std.specs.Prelude.{◌≡◌, ◌↔◌, IfOk, IfSome, IsSome, IsTrue};
ghost use Rattle.pcode.specs.Steady.{Steady};
ghost use Rattle.pcode.specs.View.{code_view};
ghost use Rattle.pcode.specs.WellFormed.{WellFormed};

use crate::numbers::numbers_are_sound;
use crate::tables::{
    are_counted, classes_end, is_led_by_leave, starts_agree, tables_begin, tables_go_on,
};
use crate::way::operands_are_found;
use pcode::{Code, well_formed_codes_end};
use std::alloc::Global;
use std::marker::Model;
use vba_base::NoMemory;

/// A code that is well-formed.
#[derive(Drop)]
pub struct CheckedCode {
    code: Code,
}

impl Model for CheckedCode {
    ghost use Rattle.std.specs.Coded.{codes};
    ghost use Rattle.vba_values.specs.contracts.value.Value as value;
    ghost use Rattle.pcode.specs.declared.code.Code.{Code};
    ghost use Rattle.pcode.specs.View.{code_view};
    ghost use Rattle.pcode.specs.WellFormed.{WellFormed};

    ghost Value = { Code };

    ghost coded = { Prim.hlevel (codes, value.the_row.coded) };

    ghost view = { λ checked. checked.code };

    ghost invariant = { λ checked. WellFormed (code_view checked.code) };
}

impl CheckedCode {
    /// Some where the code is well-formed, which is then that code; None where it isn't: an instruction that lacks its
    /// operands, a number that names nothing, a jump out of its procedure, or tables that don't tell where statements
    /// begin. It takes memory for the kinds of the operands of one statement.
    pub fn try_new(alloc: Global, code: Code) -> Result<Option<CheckedCode>, NoMemory>
        ensures well_formed { IfOk result (λ checked. IsSome checked ↔ WellFormed (code_view code)) }
        ensures same { IfOk result (λ checked. IfSome checked (λ kept. kept ≡ code)) }
    {
        if is_well_formed(alloc, &code)? {
            return Ok(Some(CheckedCode { code }));
        }
        Ok(None)
    }

    /// The code. With each bound on turns its run ends, and never lacks an operand or an instruction.
    pub fn code(&self) -> &Code
        ensures same { result.now ≡ self.now }
        ensures well_formed { WellFormed (code_view self.now) }
        ensures ends { Steady (code_view self.now) }
    {
        well_formed_codes_end();
        &self.code
    }

    /// The code that was checked.
    pub fn into_code(self) -> Code
        ensures same { result ≡ self }
        ensures well_formed { WellFormed (code_view self) }
    {
        let CheckedCode { code } = self;
        code
    }
}

fn is_well_formed(alloc: Global, code: &Code) -> Result<bool, NoMemory>
    ensures { IfOk result (λ fits. IsTrue fits ↔ WellFormed (code_view code.now)) }
{
    if !is_led_by_leave(code) {
        return Ok(false);
    }
    if !are_counted(code) {
        return Ok(false);
    }
    if !starts_agree(code) {
        return Ok(false);
    }
    if !tables_begin(code) {
        return Ok(false);
    }
    if !tables_go_on(code) {
        return Ok(false);
    }
    if !classes_end(code) {
        return Ok(false);
    }
    if code.declared.procedures.len() <= code.startup as usize {
        return Ok(false);
    }
    if !numbers_are_sound(code) {
        return Ok(false);
    }
    operands_are_found(alloc, code)
}
