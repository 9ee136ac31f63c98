use crate::{micros_now, out_of_memory, tell};
use std::io;
use std::time::CpuClock;
use vba_values::{Compare, OpKind, VType, Value, binary};

/// Does so many operations on whole numbers, and twice as many: sums, differences, products, quotients, comparisons.
pub fn bench_operators(rt: &(impl Print + CpuClock + AllocGlobal), size: u32) -> io::Result<()> {
    let once = time_operators(rt, size)?;
    let twice = time_operators(rt, size.saturating_mul(2))?;
    tell(rt, "operators", size, once, twice)
}

// The microseconds that so many operations take.
fn time_operators(rt: &(impl CpuClock + AllocGlobal), size: u32) -> io::Result<u64> {
    let before = micros_now(rt)?;
    for place in 0..size {
        let left = Value::Long((place % 10_000) as i32);
        let right = Value::Integer(7);
        let given = match place % 5 {
            0 => binary(
                rt.alloc(),
                OpKind::Add,
                &left,
                &VType::Long,
                &right,
                &VType::Integer,
                Compare::Binary,
            ),
            1 => binary(
                rt.alloc(),
                OpKind::Sub,
                &left,
                &VType::Long,
                &right,
                &VType::Integer,
                Compare::Binary,
            ),
            2 => binary(
                rt.alloc(),
                OpKind::Mul,
                &left,
                &VType::Long,
                &right,
                &VType::Integer,
                Compare::Binary,
            ),
            3 => binary(
                rt.alloc(),
                OpKind::IntDiv,
                &left,
                &VType::Long,
                &right,
                &VType::Integer,
                Compare::Binary,
            ),
            _ => binary(
                rt.alloc(),
                OpKind::Lt,
                &left,
                &VType::Long,
                &right,
                &VType::Integer,
                Compare::Binary,
            ),
        };
        if given.is_err() {
            return Err(out_of_memory());
        }
    }
    Ok(micros_now(rt)?.saturating_sub(before))
}
