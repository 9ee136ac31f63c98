ghost use Rattle.std.specs.Prelude.{◌≡◌, ◌*◌};
ghost use Rattle.sheet_host.specs.Size.{IsAreaInside};

use crate::{micros_now, out_of_memory, tell};
use sheet_host::{Area, Book, CellValue, Sheet, SheetId};
use std::alloc::Global;
use std::io;
use std::time::CpuClock;
use vba_base::{NoMemory, Units};

/// The rows of a sheet.
const ROWS: u32 = 1_048_576;

/// A number without a factor in common with the rows.
const STEP: u64 = 611_953;

/// The order of the rows in which cells are written and read.
#[derive(Clone, Copy)]
enum Order {
    Rising,
    Scattered,
}

/// Writes so many cells of a sheet one by one and reads each, row after row and in scattered rows; and twice as many.
pub fn bench_cells(rt: &(impl Print + CpuClock + AllocGlobal), size: u32) -> io::Result<()> {
    bench_order(rt, "cells in rising rows", Order::Rising, size)?;
    bench_order(rt, "cells in scattered rows", Order::Scattered, size)
}

fn bench_order(
    rt: &(impl Print + CpuClock + AllocGlobal),
    what: &str,
    order: Order,
    size: u32,
) -> io::Result<()> {
    let once = time_cells(rt, order, size)?;
    let twice = time_cells(rt, order, size.saturating_mul(2))?;
    tell(rt, what, size, once, twice)
}

// The microseconds that writing and reading so many cells takes.
fn time_cells(rt: &(impl CpuClock + AllocGlobal), order: Order, size: u32) -> io::Result<u64> {
    let before = micros_now(rt)?;
    if work_on_cells(rt.alloc(), order, size).is_err() {
        return Err(out_of_memory());
    }
    Ok(micros_now(rt)?.saturating_sub(before))
}

fn work_on_cells(alloc: Global, order: Order, size: u32) -> Result<(), NoMemory> {
    let mut book = Book::new(alloc);
    book.add(Units::new(alloc), Sheet::new(alloc))?;
    for number in 0..size {
        put_number(alloc, &mut book, cell_at(order, number), number)?;
    }
    for number in 0..size {
        get_number(&book, cell_at(order, number))?;
    }
    Ok(())
}

// The cell of a number.
fn cell_at(order: Order, number: u32) -> Area
    ensures inside { IsAreaInside result }
    ensures one { result.rows * result.columns ≡ 1 }
{
    let row = match order {
        Order::Rising => number % ROWS,
        Order::Scattered => (u64::from(number) * STEP % u64::from(ROWS)) as u32,
    };
    Area {
        sheet: SheetId(1),
        top: row + 1,
        left: number / ROWS + 1,
        rows: 1,
        columns: 1,
    }
}

fn put_number(alloc: Global, book: &mut Book, area: Area, number: u32) -> Result<(), NoMemory>
    requires inside { IsAreaInside area }
    requires one { area.rows * area.columns ≡ 1 }
{
    if area.sheet.0 < 1 || book.sheets() < area.sheet.0 {
        return Err(NoMemory);
    }
    let mut cells = Vec::with_capacity(alloc, 1)?;
    cells.push(CellValue::LongLong(i64::from(number)))?;
    match book.put(area, cells) {
        Ok(()) => Ok(()),
        Err(_) => Err(NoMemory),
    }
}

fn get_number(book: &Book, area: Area) -> Result<CellValue, NoMemory> {
    if area.sheet.0 < 1 || book.sheets() < area.sheet.0 {
        return Err(NoMemory);
    }
    match book.get(area.sheet, area.top, area.left) {
        Ok(cell) => Ok(cell),
        Err(_) => Err(NoMemory),
    }
}
