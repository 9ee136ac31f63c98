//! Where the characters of a line stand in its source.

ghost use Rattle.std.specs.Prelude.{◌≡◌, ◌<◌, ◌^◌};
ghost use Rattle.vba_lexer.specs.Characters.{HasRoom, past, behind, place_of, width};

use crate::classes::FEED;
use vba_base::Place;

/// A place in a source: how many units stand before it, and its line and column.
#[derive(Clone, Copy)]
pub struct Cursor {
    pub units: u32,
    pub line: u32,
    pub column: u32,
}

/// How many units a character takes.
fn width_of(character: u32) -> u32
    ensures { result ≡ width character }
{
    if character >= 0x1_0000 { 2 } else { 1 }
}

impl Cursor {
    /// The place in the module with this number.
    pub fn place(self, module_number: u32) -> Place
        ensures { result ≡ place_of module_number self }
    {
        Place {
            module: module_number,
            line: self.line,
            column: self.column,
        }
    }

    /// The place behind a character.
    fn behind(self, character: u32) -> Cursor
        requires units { self.units < 2 ^ 31 }
        requires line { self.line < 2 ^ 31 }
        requires column { self.column < 2 ^ 31 }
        ensures { result ≡ behind self character }
    {
        if character == FEED {
            Cursor {
                units: self.units + 1,
                line: self.line + 1,
                column: 1,
            }
        } else {
            let width = width_of(character);
            Cursor {
                units: self.units + width,
                line: self.line,
                column: self.column + width,
            }
        }
    }

    /// The place behind characters.
    pub fn past(self, characters: &[u32]) -> Cursor
        requires { HasRoom self characters.now }
        ensures { result ≡ past self characters.now }
    {
        let mut cursor = self;
        for character in characters {
            cursor = cursor.behind(*character);
        }
        cursor
    }
}
