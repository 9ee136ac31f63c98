ghost use Rattle.std.specs.Prelude.{◌≡◌, [], ◌∷◌, ◌++◌, OnOk, OnErr, IfOk};
ghost use Rattle.std.specs.Char.Escape.{encode_utf16};

use crate::fault::NoMemory;
use std::alloc::Global;
use std::marker::Model;

/// A text: a list of 16-bit units, as VBA's String has it.
#[derive(Debug, Drop)]
pub struct Units {
    units: Vec<u16>,
}

impl Model for Units {
    ghost use Rattle.std.specs.Prelude.{List, ℕ};

    ghost Value = { List ℕ };

    ghost view = { λ u. u.units.items };
}

impl Units {
    /// The text without units. It takes no memory.
    pub fn new(alloc: Global) -> Units
        ensures { result ≡ [] }
    {
        Units {
            units: Vec::new(alloc),
        }
    }

    /// The text without units, with room for so many.
    pub fn with_capacity(alloc: Global, capacity: usize) -> Result<Units, NoMemory>
        ensures { IfOk result (λ text. text ≡ []) }
    {
        let units = Vec::with_capacity(alloc, capacity)?;
        Ok(Units { units })
    }

    /// A text of these units.
    pub fn from_units(alloc: Global, units: &[u16]) -> Result<Units, NoMemory>
        ensures { IfOk result (λ text. text ≡ units.now) }
    {
        let units = Vec::from_slice(alloc, units)?;
        Ok(Units { units })
    }

    /// Adds a unit at the end. Without memory the text stays as it was.
    pub fn push(&mut self, unit: u16) -> Result<(), NoMemory>
        ensures ok { OnOk result (self.new ≡ self.old ++ unit ∷ []) }
        ensures err { OnErr result (self.new ≡ self.old) }
    {
        self.units.push(unit)?;
        Ok(())
    }

    /// Adds units at the end. Without memory the text stays as it was.
    pub fn extend(&mut self, units: &[u16]) -> Result<(), NoMemory>
        ensures ok { OnOk result (self.new ≡ self.old ++ units.now) }
        ensures err { OnErr result (self.new ≡ self.old) }
    {
        self.units.extend_from_slice(units)?;
        Ok(())
    }

    /// A copy of the text.
    pub fn copy(&self, alloc: Global) -> Result<Units, NoMemory>
        ensures { IfOk result (λ copy. copy ≡ self.now) }
    {
        Units::from_units(alloc, self.units())
    }

    /// Adds the one or two units of a character. Without memory the text stays as it was.
    pub(crate) fn push_character(&mut self, character: char) -> Result<(), NoMemory>
        ensures ok { OnOk result (self.new ≡ self.old ++ encode_utf16 character) }
        ensures err { OnErr result (self.new ≡ self.old) }
    {
        let mut buffer = [0; 2];
        let units = character.encode_utf16(&mut buffer);
        self.units.extend_from_slice(units)?;
        Ok(())
    }

    /// Its units, in order.
    pub fn units(&self) -> &[u16]
        ensures { result.now ≡ self.now }
    {
        self.units.as_slice()
    }
}
