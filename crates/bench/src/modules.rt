use crate::source::{LONGEST, push_text};
use crate::{micros_now, out_of_memory, tell};
use module_parser::parse_module;
use std::alloc::Global;
use std::io;
use std::time::CpuClock;
use vba_base::{NoMemory, Units};
use vba_lexer::lex;

/// Twice as many blocks inside one another are let go well before the end of the stack.
const MOST_NESTED: u32 = 250;

/// The modules that are parsed.
#[derive(Clone, Copy)]
enum Shape {
    /// Procedures with a loop and a block each.
    Procedures,
    /// Blocks inside one another.
    Nest,
    /// One line with an If, and many statements between colons.
    Line,
    /// A call with many arguments.
    Calls,
    /// A place with many members and indices, called.
    Places,
}

impl Shape {
    fn name(self) -> &'static str {
        match self {
            Shape::Procedures => "parse procedures",
            Shape::Nest => "parse nested blocks",
            Shape::Line => "parse a long line",
            Shape::Calls => "parse a long call",
            Shape::Places => "parse a long place",
        }
    }

    /// What stands before the parts that are repeated.
    fn opening(self) -> &'static [u8] {
        match self {
            Shape::Procedures => b"",
            Shape::Nest => b"Sub Main()\n",
            Shape::Line => b"Sub Main()\nIf a Then x = 1",
            Shape::Calls => b"Sub Main()\nWork 1",
            Shape::Places => b"Sub Main()\na",
        }
    }

    fn part(self) -> &'static [u8] {
        match self {
            Shape::Procedures => {
                b"Sub a()\nDim i As Long\nFor i = 1 To 9\nIf i = 2 Then\nx.y(i) = i + 1\nEnd If\nNext i\nEnd Sub\n"
            }
            Shape::Nest => b"If a Then\n",
            Shape::Line => b": x = 1",
            Shape::Calls => b", 1",
            Shape::Places => b".b(1)",
        }
    }

    /// What is repeated behind those parts.
    fn closing_part(self) -> &'static [u8] {
        match self {
            Shape::Nest => b"End If\n",
            _ => b"",
        }
    }

    fn ending(self) -> &'static [u8] {
        match self {
            Shape::Procedures => b"",
            Shape::Nest => b"End Sub\n",
            Shape::Line | Shape::Calls => b"\nEnd Sub\n",
            Shape::Places => b".c 1\nEnd Sub\n",
        }
    }
}

/// Parses modules with so many parts, and with twice as many. Fewer blocks stand inside one another, since letting their tree go
/// takes stack.
pub fn bench_modules(rt: &(impl Print + CpuClock + AllocGlobal), size: u32) -> io::Result<()> {
    for shape in [Shape::Procedures, Shape::Line, Shape::Calls] {
        bench_shape(rt, shape, size)?;
    }
    bench_shape(rt, Shape::Nest, size.min(MOST_NESTED))
}

/// Parses a call of a place with so many members and indices, and with twice as many.
pub fn bench_places(rt: &(impl Print + CpuClock + AllocGlobal), size: u32) -> io::Result<()> {
    bench_shape(rt, Shape::Places, size)
}

fn bench_shape(
    rt: &(impl Print + CpuClock + AllocGlobal),
    shape: Shape,
    size: u32,
) -> io::Result<()> {
    let once = time_parse(rt, shape, size)?;
    let twice = time_parse(rt, shape, size.saturating_mul(2))?;
    tell(rt, shape.name(), size, once, twice)
}

// The microseconds that parsing a module takes, and letting its tree go.
fn time_parse(rt: &(impl CpuClock + AllocGlobal), shape: Shape, size: u32) -> io::Result<u64> {
    let Ok(source) = source_of(rt.alloc(), shape, size) else {
        return Err(out_of_memory());
    };
    if source.units().len() > LONGEST {
        return Err(io::Error::from(io::ErrorKind::InvalidInput));
    }
    let Ok(lines) = lex(rt.alloc(), &source, 1) else {
        return Err(out_of_memory());
    };
    let before = micros_now(rt)?;
    let is_parsed = parse_module(rt.alloc(), &source, &lines, false).is_ok();
    let after = micros_now(rt)?;
    if !is_parsed {
        return Err(out_of_memory());
    }
    Ok(after.saturating_sub(before))
}

fn source_of(alloc: Global, shape: Shape, size: u32) -> Result<Units, NoMemory> {
    let mut units = Units::new(alloc);
    push_text(&mut units, shape.opening())?;
    for _ in 0..size {
        push_text(&mut units, shape.part())?;
    }
    for _ in 0..size {
        push_text(&mut units, shape.closing_part())?;
    }
    push_text(&mut units, shape.ending())?;
    Ok(units)
}
