ghost use Rattle.std.specs.Prelude.{◌≡◌, IfOk, OnErr, IsTrue};
ghost use Rattle.sheet_host.specs.Field.{is_empty, is_text};

use currency::Currency;
use std::alloc::Global;
use vba_base::{NoMemory, Units};

/// What a cell holds.
#[derive(Debug, Drop)]
pub enum CellValue {
    Empty,
    Boolean(bool),
    Long(i32),
    LongLong(i64),
    Currency(Currency),
    Text(Units),
}

impl CellValue {
    /// Whether it is Empty. A text without units isn't.
    pub fn is_empty(&self) -> bool
        ensures { result ≡ is_empty self.now }
    {
        match self {
            CellValue::Empty => true,
            _ => false,
        }
    }

    /// The same value. Only a text takes memory.
    pub fn copy(&self, alloc: Global) -> Result<CellValue, NoMemory>
        ensures value { IfOk result (λ value. value ≡ self.now) }
        ensures memory { OnErr result (IsTrue (is_text self.now)) }
    {
        Ok(match self {
            CellValue::Empty => CellValue::Empty,
            CellValue::Boolean(truth) => CellValue::Boolean(*truth),
            CellValue::Long(number) => CellValue::Long(*number),
            CellValue::LongLong(number) => CellValue::LongLong(*number),
            CellValue::Currency(amount) => CellValue::Currency(*amount),
            CellValue::Text(text) => CellValue::Text(Units::from_units(alloc, text.units())?),
        })
    }
}
