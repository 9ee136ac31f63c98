ghost use Rattle.std.specs.Prelude.{◌≤◌, IfOk, length};

use crate::{micros_now, out_of_memory, tell};
use std::alloc::Global;
use std::io;
use std::time::CpuClock;
use vba_base::{NoMemory, Units};
use vba_lexer::lex;

/// The sources that are lexed, each the repetition of a few units.
#[derive(Clone, Copy)]
enum Pattern {
    /// Words on one line.
    Words,
    /// Lines without tokens.
    LineEnds,
    /// One string that isn't closed.
    OpenText,
    /// Strings that are closed, one behind the other.
    Texts,
    /// Brackets that aren't closed.
    OpenBrackets,
}

impl Pattern {
    fn name(self) -> &'static str {
        match self {
            Pattern::Words => "lex words",
            Pattern::LineEnds => "lex line ends",
            Pattern::OpenText => "lex an open string",
            Pattern::Texts => "lex strings",
            Pattern::OpenBrackets => "lex open brackets",
        }
    }

    // The unit at a place of the source.
    fn unit_at(self, place: u32) -> u16 {
        match self {
            Pattern::Words => if place % 4 == 3 { 0x20 } else { 0x61 },
            Pattern::LineEnds => 0x0a,
            Pattern::OpenText => if place == 0 { 0x22 } else { 0x61 },
            Pattern::Texts => if place % 4 == 0 || place % 4 == 2 {
                0x22
            } else {
                0x20
            },
            Pattern::OpenBrackets => 0x5b,
        }
    }
}

/// Lexes sources of so many units, and of twice as many.
pub fn bench_lex(rt: &(impl Print + CpuClock + AllocGlobal), size: u32) -> io::Result<()>
    requires { size ≤ 33554432 }
{
    let patterns = [
        Pattern::Words,
        Pattern::LineEnds,
        Pattern::OpenText,
        Pattern::Texts,
        Pattern::OpenBrackets,
    ];
    for pattern in patterns {
        let once = time_lex(rt, pattern, size)?;
        let twice = time_lex(rt, pattern, 2 * size)?;
        tell(rt, pattern.name(), size, once, twice)?;
    }
    Ok(())
}

// The microseconds that lexing takes.
fn time_lex(rt: &(impl CpuClock + AllocGlobal), pattern: Pattern, size: u32) -> io::Result<u64>
    requires { size ≤ 67108864 }
{
    let Ok(source) = source_of(rt.alloc(), pattern, size) else {
        return Err(out_of_memory());
    };
    let before = micros_now(rt)?;
    let lines = lex(rt.alloc(), &source, 1);
    let after = micros_now(rt)?;
    if lines.is_err() {
        return Err(out_of_memory());
    }
    Ok(after.saturating_sub(before))
}

fn source_of(alloc: Global, pattern: Pattern, size: u32) -> Result<Units, NoMemory>
    ensures { IfOk result (λ units. length units ≤ size) }
{
    let mut units = Units::new(alloc);
    for place in 0..size {
        units.push(pattern.unit_at(place))?;
    }
    Ok(units)
}
