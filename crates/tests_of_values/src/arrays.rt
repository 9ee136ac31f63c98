ghost use Rattle.std.specs.Prelude.{◌≡◌, [], map, IfOk};
ghost use Rattle.vba_values.specs.Types.{declared};
ghost use Rattle.arrays_udt.specs.Fields.{field_of, types_of};
ghost use Rattle.tests_of_values.specs.Lines.{line_fields, line_types, point_fields, rest_of_line, y_of_point};

use arrays_udt::{
    PathStep, UdtField, UdtType, fresh, fresh_array, has_path, path_read, path_write, resize_kept,
    shape_of,
};
use std::alloc::Global;
use vba_base::{NoMemory, OrMemory};
use vba_values::{Bad, Bound, VType, Value, copy_value};

fn to(low: i32, high: i32) -> Bound
    ensures { result ≡ record { low = low; high = high } }
{
    Bound { low, high }
}

/// A field of a declared type, without bounds.
fn plain_field(alloc: Global, of: VType) -> UdtField
    ensures { field_of result ≡ record { of = declared of; bounds = [] } }
{
    UdtField {
        of,
        bounds: Vec::new(alloc),
    }
}

/// `Y(1 To 2) As Integer`
fn y_field(alloc: Global) -> Result<UdtField, NoMemory>
    ensures { IfOk result (λ field. field_of field ≡ y_of_point) }
{
    let element = Box::new(alloc, VType::Integer)?;
    Ok(UdtField {
        of: VType::ArrayOf(element),
        bounds: vec![in alloc; to(1, 2)]?,
    })
}

/// `Type Point ¶ X As Long ¶ Y(1 To 2) As Integer ¶ End Type`
fn point(alloc: Global) -> Result<UdtType, NoMemory>
    ensures { IfOk result (λ udt. map field_of udt.fields.items ≡ point_fields) }
{
    let x = plain_field(alloc, VType::Long);
    let y = y_field(alloc)?;
    Ok(UdtType {
        fields: vec![in alloc; x, y]?,
    })
}

/// `Rest() As Byte`
fn rest_field(alloc: Global) -> Result<UdtField, NoMemory>
    ensures { IfOk result (λ field. field_of field ≡ rest_of_line) }
{
    let element = Box::new(alloc, VType::Byte)?;
    Ok(plain_field(alloc, VType::ArrayOf(element)))
}

/// `Type Line ¶ A As Point ¶ Name As String * 3 ¶ Rest() As Byte ¶ End Type`
fn line(alloc: Global) -> Result<UdtType, NoMemory>
    ensures { IfOk result (λ udt. map field_of udt.fields.items ≡ line_fields) }
{
    let a = plain_field(alloc, VType::Udt(0));
    let name = plain_field(alloc, VType::FixedText(3));
    let rest = rest_field(alloc)?;
    Ok(UdtType {
        fields: vec![in alloc; a, name, rest]?,
    })
}

/// The Types Point and Line.
fn lines(alloc: Global) -> Result<Vec<UdtType>, NoMemory>
    ensures { IfOk result (λ types. types_of types.items ≡ line_types) }
{
    let point = point(alloc)?;
    let line = line(alloc)?;
    Ok(vec![in alloc; point, line]?)
}

/// The X and the second Y of a Line's Point, its Name and its Rest.
const X: [PathStep; 2] = [PathStep::Field(0), PathStep::Field(0)];

const SECOND_Y: [PathStep; 3] = [PathStep::Field(0), PathStep::Field(1), PathStep::Element(1)];

const NAME: [PathStep; 1] = [PathStep::Field(1)];

const REST: [PathStep; 1] = [PathStep::Field(2)];

/// A number, or how many units or elements there are.
fn size(value: &Value) -> Option<usize> {
    match value {
        Value::Long(number) => usize::try_from(*number).ok(),
        Value::Integer(number) => usize::try_from(*number).ok(),
        Value::Text(text) => Some(text.units().len()),
        Value::Array(array) => Some(array.items.len()),
        _ => None,
    }
}

/// The same of the value at a path.
fn size_at(root: &Value, path: &[PathStep]) -> Option<usize> {
    if has_path(root, path) {
        size(path_read(root, path))
    } else {
        None
    }
}

/// Writes 5 to the X of a Line, and tells what stood there.
fn write_x(line: &mut Value) -> Option<usize> {
    if has_path(line, &X) {
        size(&path_write(line, &X, Value::Long(5)))
    } else {
        None
    }
}

fn a_line(alloc: Global) -> Result<Value, NoMemory> {
    let types = lines(alloc)?;
    fresh(alloc, &VType::Udt(1), &types)
}

/// What stood at a Line's X, and what its copy has after 5 was written there.
fn written_line(alloc: Global) -> Result<[Option<usize>; 5], NoMemory> {
    let mut line = a_line(alloc)?;
    let old = write_x(&mut line);
    let copy = copy_value(alloc, &line)?;
    Ok([
        old,
        size_at(&copy, &X),
        size_at(&copy, &SECOND_Y),
        size_at(&copy, &NAME),
        size_at(&copy, &REST),
    ])
}

#[test]
fn a_write_changes_one_place(rt: HostRuntime) {
    let wanted = [Some(0), Some(5), Some(0), Some(3), Some(0)];
    assert!(rt; written_line(rt.alloc()) == Ok(wanted));
}

/// How many elements an array of Long with these bounds has after it got others.
fn count_after(alloc: Global, old: &[Bound], new: &[Bound]) -> Result<usize, OrMemory<Bad>> {
    let old = shape_of(alloc, old)?;
    let new = shape_of(alloc, new)?;
    let types = Vec::new(alloc);
    let mut array = fresh_array(alloc, &old, &VType::Long, &types)?;
    resize_kept(alloc, &mut array, &new, &types)?;
    Ok(array.items.len())
}

#[test]
fn the_last_high_bound_changes(rt: HostRuntime) {
    let alloc = rt.alloc();
    let refused = Err(OrMemory::Fault(Bad::Raise(9)));
    let grid = [to(0, 1), to(1, 2)];
    let row = [to(0, 3)];
    let counts = [
        count_after(alloc, &grid, &[to(0, 1), to(1, 3)]),
        count_after(alloc, &grid, &[to(0, 1), to(1, 1)]),
        count_after(alloc, &row, &[to(0, 9)]),
        count_after(alloc, &row, &[to(1, 3)]),
        count_after(alloc, &grid, &[to(0, 2), to(1, 2)]),
        count_after(alloc, &grid, &[to(0, 1)]),
        count_after(alloc, &row, &[to(0, 3), to(0, 0)]),
    ];
    assert!(rt; counts == [Ok(6), Ok(2), Ok(10), refused, refused, refused, refused]);
}
