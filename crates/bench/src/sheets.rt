use crate::{micros_now, out_of_memory, tell};
use csv_book::{read_sheet, write_sheet};
use std::alloc::{AllocError, Global};
use std::io;
use std::time::CpuClock;

/// The files of sheets that are timed.
#[derive(Clone, Copy)]
enum Form {
    Short,
    Quoted,
    OneField,
}

/// Reads the file of a sheet of so many rows and writes it again, and one of twice as many: rows of short fields, rows
/// with quotes and line ends inside fields, and one field of as many lines.
pub fn bench_sheets(rt: &(impl Print + CpuClock + AllocGlobal), size: u32) -> io::Result<()> {
    bench_form(rt, "sheets of short fields", Form::Short, size)?;
    bench_form(rt, "sheets of quoted fields", Form::Quoted, size)?;
    bench_form(rt, "sheets of one field", Form::OneField, size)
}

fn bench_form(
    rt: &(impl Print + CpuClock + AllocGlobal),
    what: &str,
    form: Form,
    size: u32,
) -> io::Result<()> {
    let once = time_form(rt, form, size)?;
    let twice = time_form(rt, form, size.saturating_mul(2))?;
    tell(rt, what, size, once, twice)
}

// The microseconds that reading and writing a sheet takes.
fn time_form(rt: &(impl CpuClock + AllocGlobal), form: Form, size: u32) -> io::Result<u64> {
    let Ok(file) = file_of(rt.alloc(), form, size) else {
        return Err(out_of_memory());
    };
    let before = micros_now(rt)?;
    let Ok(sheet) = read_sheet(rt.alloc(), file.as_slice()) else {
        return Err(out_of_memory());
    };
    if write_sheet(rt.alloc(), &sheet).is_err() {
        return Err(out_of_memory());
    }
    Ok(micros_now(rt)?.saturating_sub(before))
}

fn file_of(alloc: Global, form: Form, size: u32) -> Result<Vec<u8>, AllocError> {
    let mut file = Vec::new(alloc);
    file.extend_from_slice(first_bytes(form))?;
    for _ in 0..size {
        file.extend_from_slice(row_bytes(form))?;
    }
    Ok(file)
}

fn first_bytes(form: Form) -> &'static [u8] {
    match form {
        Form::Short | Form::Quoted => b"",
        Form::OneField => b"\"",
    }
}

fn row_bytes(form: Form) -> &'static [u8] {
    match form {
        Form::Short => b"12,ab,1.50\n",
        Form::Quoted => b"\"a,b\",\"say \"\"yes\"\"\",\"x\ny\"\r\n",
        Form::OneField => b"twenty bytes a row\n",
    }
}
