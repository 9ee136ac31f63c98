use crate::source::{LONGEST, push_text};
use crate::{micros_now, out_of_memory, tell};
use cond_compile::select_lines;
use std::alloc::Global;
use std::io;
use std::time::CpuClock;
use vba_base::{NoMemory, Units};
use vba_lexer::lex;

/// The sources whose lines are selected.
#[derive(Clone, Copy)]
enum Pattern {
    /// Conditional blocks inside one another.
    Nest,
    /// Constants, and behind them a condition on each.
    Constants,
}

impl Pattern {
    fn name(self) -> &'static str {
        match self {
            Pattern::Nest => "select nested blocks",
            Pattern::Constants => "select by constants",
        }
    }
}

/// Selects the lines of sources with so many blocks or constants, and with twice as many.
pub fn bench_conditions(rt: &(impl Print + CpuClock + AllocGlobal), size: u32) -> io::Result<()> {
    for pattern in [Pattern::Nest, Pattern::Constants] {
        let once = time_select(rt, pattern, size)?;
        let twice = time_select(rt, pattern, size.saturating_mul(2))?;
        tell(rt, pattern.name(), size, once, twice)?;
    }
    Ok(())
}

// The microseconds that selecting takes.
fn time_select(rt: &(impl CpuClock + AllocGlobal), pattern: Pattern, size: u32) -> io::Result<u64> {
    let Ok(source) = source_of(rt.alloc(), pattern, size) else {
        return Err(out_of_memory());
    };
    if source.units().len() > LONGEST {
        return Err(io::Error::from(io::ErrorKind::InvalidInput));
    }
    let Ok(lines) = lex(rt.alloc(), &source, 1) else {
        return Err(out_of_memory());
    };
    let before = micros_now(rt)?;
    let kept = select_lines(rt.alloc(), &source, &lines);
    let after = micros_now(rt)?;
    if kept.is_err() {
        return Err(out_of_memory());
    }
    Ok(after.saturating_sub(before))
}

fn source_of(alloc: Global, pattern: Pattern, size: u32) -> Result<Units, NoMemory> {
    match pattern {
        Pattern::Nest => nest_of(alloc, size),
        Pattern::Constants => constants_of(alloc, size),
    }
}

fn nest_of(alloc: Global, size: u32) -> Result<Units, NoMemory> {
    let mut units = Units::new(alloc);
    for _ in 0..size {
        push_text(&mut units, b"#If VBA7 Then\n")?;
    }
    for _ in 0..size {
        push_text(&mut units, b"#End If\n")?;
    }
    Ok(units)
}

fn constants_of(alloc: Global, size: u32) -> Result<Units, NoMemory> {
    let mut units = Units::new(alloc);
    for number in 0..size {
        push_text(&mut units, b"#Const ")?;
        push_name(&mut units, number)?;
        push_text(&mut units, b" = True\n")?;
    }
    for number in 0..size {
        push_text(&mut units, b"#If ")?;
        push_name(&mut units, number)?;
        push_text(&mut units, b" Then\n#End If\n")?;
    }
    Ok(units)
}

// A name of nine letters, another one for each number.
fn push_name(units: &mut Units, number: u32) -> Result<(), NoMemory> {
    let letters = b"abcdefghijklmnop";
    units.push(0x63)?;
    let mut left = number;
    for _ in 0..8 {
        units.push(u16::from(letters[(left % 16) as usize]))?;
        left /= 16;
    }
    Ok(())
}
