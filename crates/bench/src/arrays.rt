ghost use Rattle.std.specs.Prelude.{◌≡◌, ◌≤◌, [], true, map, IfOk};
ghost use Rattle.vba_values.specs.Types.{declared};
ghost use Rattle.arrays_udt.specs.Fields.{field_of, is_known, types_of};
ghost use Rattle.bench.specs.Entries.{entry_fields, entry_types};

use crate::{micros_now, out_of_memory, tell};
use arrays_udt::{
    PathStep, Shape, UdtField, UdtType, fresh_array, has_path, offset, path_read, path_write,
    shape_of,
};
use std::alloc::Global;
use std::io;
use std::time::CpuClock;
use vba_base::NoMemory;
use vba_values::{Bound, VType, Value, copy_value};

/// The most elements of a Type that are made; twice as many are still an array.
const MOST_ENTRIES: u32 = 524_288;

/// By how many numbers an element is named.
#[derive(Clone, Copy)]
enum Places {
    One,
    Two,
}

impl Places {
    fn name(self) -> &'static str {
        match self {
            Places::One => "elements by one number",
            Places::Two => "elements by two numbers",
        }
    }
}

/// Writes and reads so many elements of an array of 1000, named by one number and by two, and makes and copies an array
/// of so many elements of a Type; and twice as many.
pub fn bench_arrays(rt: &(impl Print + CpuClock + AllocGlobal), size: u32) -> io::Result<()> {
    for places in [Places::One, Places::Two] {
        let once = time_elements(rt, places, size)?;
        let twice = time_elements(rt, places, size.saturating_mul(2))?;
        tell(rt, places.name(), size, once, twice)?;
    }
    let entries = size.min(MOST_ENTRIES);
    let once = time_entries(rt, entries)?;
    let twice = time_entries(rt, 2 * entries)?;
    tell(
        rt,
        "fresh elements of a Type",
        entries,
        once.fresh,
        twice.fresh,
    )?;
    tell(
        rt,
        "copied elements of a Type",
        entries,
        once.copied,
        twice.copied,
    )
}

// The microseconds that writing and reading so many elements takes.
fn time_elements(rt: &(impl CpuClock + AllocGlobal), places: Places, size: u32) -> io::Result<u64> {
    let row = [bound(1, 1000)];
    let grid = [bound(1, 40), bound(0, 24)];
    let bounds = match places {
        Places::One => row.as_slice(),
        Places::Two => grid.as_slice(),
    };
    let Ok(shape) = shape_of(rt.alloc(), bounds) else {
        return Err(out_of_memory());
    };
    let Ok(mut array) = array_of(rt.alloc(), bounds, &VType::Long) else {
        return Err(out_of_memory());
    };
    let before = micros_now(rt)?;
    for turn in 0..size {
        if !write_and_read(&shape, &mut array, places, turn) {
            return Err(io::Error::from(io::ErrorKind::InvalidData));
        }
    }
    Ok(micros_now(rt)?.saturating_sub(before))
}

fn bound(low: i32, high: i32) -> Bound {
    Bound { low, high }
}

// Writes a number to the element of a turn and reads it back: whether it is there.
fn write_and_read(shape: &Shape, array: &mut Value, places: Places, turn: u32) -> bool {
    let found = match places {
        Places::One => offset(shape, &[i64::from(turn % 1000) + 1]),
        Places::Two => {
            offset(
                shape,
                &[i64::from(turn % 40) + 1, i64::from(turn / 40 % 25)],
            )
        }
    };
    let Ok(found) = found else {
        return false;
    };
    let path = [PathStep::Element(found)];
    if !has_path(array, &path) {
        return false;
    }
    let number = (turn % 10_000) as i32;
    let _old = path_write(array, &path, Value::Long(number));
    if !has_path(array, &path) {
        return false;
    }
    matches!(path_read(array, &path), Value::Long(held) if *held == number)
}

/// The microseconds that making an array of elements of a Type takes, and copying it.
#[derive(Clone, Copy)]
struct EntryTimes {
    fresh: u64,
    copied: u64,
}

// The times of an array of so many elements, and of one where there are none.
fn time_entries(rt: &(impl CpuClock + AllocGlobal), count: u32) -> io::Result<EntryTimes>
    requires { count ≤ 1048576 }
{
    let bounds = [bound(1, count.max(1) as i32)];
    let before = micros_now(rt)?;
    let Ok(array) = array_of(rt.alloc(), &bounds, &VType::Udt(0)) else {
        return Err(out_of_memory());
    };
    let made = micros_now(rt)?;
    let Ok(_copy) = copy_value(rt.alloc(), &array) else {
        return Err(out_of_memory());
    };
    let copied = micros_now(rt)?;
    Ok(EntryTimes {
        fresh: made.saturating_sub(before),
        copied: copied.saturating_sub(made),
    })
}

// An array with these bounds of a type of elements.
fn array_of(alloc: Global, bounds: &[Bound], element: &VType) -> Result<Value, NoMemory>
    requires { is_known entry_types (declared element.now) ≡ true }
{
    let Ok(shape) = shape_of(alloc, bounds) else {
        return Err(NoMemory);
    };
    let types = entry_types(alloc)?;
    let array = fresh_array(alloc, &shape, element, &types)?;
    Ok(Value::Array(Box::new(alloc, array)?))
}

/// `Type Entry ¶ Count As Long ¶ Name As String * 8 ¶ End Type`
fn entry_types(alloc: Global) -> Result<Vec<UdtType>, NoMemory>
    ensures { IfOk result (λ types. types_of types.items ≡ entry_types) }
{
    let entry = entry(alloc)?;
    Ok(vec![in alloc; entry]?)
}

fn entry(alloc: Global) -> Result<UdtType, NoMemory>
    ensures { IfOk result (λ udt. map field_of udt.fields.items ≡ entry_fields) }
{
    let count = plain_field(alloc, VType::Long);
    let name = plain_field(alloc, VType::FixedText(8));
    Ok(UdtType {
        fields: vec![in alloc; count, name]?,
    })
}

fn plain_field(alloc: Global, of: VType) -> UdtField
    ensures { field_of result ≡ record { of = declared of; bounds = [] } }
{
    UdtField {
        of,
        bounds: Vec::new(alloc),
    }
}
