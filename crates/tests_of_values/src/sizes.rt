use csv_book::{BookFault, read_sheet, write_sheet};
use currency::{ParseFault, compare_text, count, parse, parse_whole};
use field_table::FieldTable;
use std::alloc::{AllocError, Global};
use std::cmp::Ordering;
use std::test::Fail;
use vba_base::{NoMemory, OrMemory};

/// Bytes, so many times others, and bytes.
fn long_bytes(
    alloc: Global,
    front: &[u8],
    piece: &[u8],
    times: u32,
    end: &[u8],
) -> Result<Vec<u8>, AllocError> {
    let mut bytes = Vec::from_slice(alloc, front)?;
    for _ in 0..times {
        bytes.extend_from_slice(piece)?;
    }
    bytes.extend_from_slice(end)?;
    Ok(bytes)
}

/// Whether a sheet file is saved as it was, in no more room than it needs.
fn reads_back(alloc: Global, file: &[u8]) -> Result<bool, OrMemory<BookFault>> {
    let sheet = read_sheet(alloc, file)?;
    let saved = write_sheet(alloc, &sheet)?;
    Ok(saved.as_slice() == file && saved.capacity() == saved.len())
}

#[test]
fn rows_have_a_limit(rt: HostRuntime) -> Result<(), Fail> {
    let alloc = rt.alloc();
    let most = long_bytes(alloc, b"", b"a\n", 1_048_576, b"")?;
    let more = long_bytes(alloc, b"", b"a\n", 1_048_576, b"\xFF")?;
    let got = [reads_back(alloc, &most), reads_back(alloc, &more)];
    assert!(rt; got == [Ok(true), Err(OrMemory::Fault(BookFault::TooManyRows))]);
    Ok(())
}

#[test]
fn columns_have_a_limit(rt: HostRuntime) -> Result<(), Fail> {
    let alloc = rt.alloc();
    let wide = long_bytes(alloc, b"a\n", b",", 16_383, b"\n")?;
    let wider = long_bytes(alloc, b"a\n", b",", 16_384, b"\n\xFF\n")?;
    let both = long_bytes(alloc, b"\xFF\n", b",", 16_384, b"\n")?;
    let got = [
        reads_back(alloc, &wide),
        reads_back(alloc, &wider),
        reads_back(alloc, &both),
    ];
    let wanted = [
        Ok(true),
        Err(OrMemory::Fault(BookFault::TooManyColumns(2))),
        Err(OrMemory::Fault(BookFault::NotUtf8(1))),
    ];
    assert!(rt; got == wanted);
    Ok(())
}

/// A row of 64 megabytes.
#[test]
fn a_long_row_may_have_too_many_columns(rt: HostRuntime) -> Result<(), Fail> {
    let row = long_bytes(rt.alloc(), b"", b",", 67_108_864, b"")?;
    let refused = Err(OrMemory::Fault(BookFault::TooManyColumns(1)));
    assert!(rt; reads_back(rt.alloc(), &row) == refused);
    Ok(())
}

/// A field of 10 megabytes.
#[test]
fn a_field_may_be_long(rt: HostRuntime) -> Result<(), Fail> {
    let file = long_bytes(rt.alloc(), b"a,\"", b"x\"\"y\n", 2_097_152, b"\"\n")?;
    assert!(rt; reads_back(rt.alloc(), &file) == Ok(true));
    Ok(())
}

/// A file of 64 megabytes.
#[test]
fn a_file_may_be_long(rt: HostRuntime) -> Result<(), Fail> {
    let row = b"0123456789012345678901234567890,0123456789012345678901234567890\n";
    let file = long_bytes(rt.alloc(), b"", row, 1_048_576, b"")?;
    assert!(rt; reads_back(rt.alloc(), &file) == Ok(true));
    Ok(())
}

/// Units, so many times another, and units.
fn long_text(
    alloc: Global,
    front: &[u8],
    piece: &[u8],
    times: u32,
    end: &[u8],
) -> Result<Vec<u16>, AllocError> {
    let bytes = long_bytes(alloc, front, piece, times, end)?;
    bytes.iter().map(|byte| u16::from(*byte)).collect(alloc)
}

#[test]
fn number_texts_may_be_long(rt: HostRuntime) -> Result<(), Fail> {
    let alloc = rt.alloc();
    let half = long_text(alloc, b"2.5", b"0", 100_000, b"")?;
    let more = long_text(alloc, b"2.5", b"0", 100_000, b"1")?;
    let zeros = long_text(alloc, b"", b"0", 100_000, b"12.5")?;
    let nines = long_text(alloc, b"-", b"9", 100_000, b"")?;
    let wholes = [parse_whole(&half), parse_whole(&more)];
    let amounts = [
        parse(&zeros).map(|amount| count(amount)),
        parse(&nines).map(|amount| count(amount)),
    ];
    let orders = [
        compare_text(25000, &half),
        compare_text(25000, &more),
        compare_text(0, &nines),
    ];
    assert!(rt; wholes == [Ok(2), Ok(3)]);
    assert!(rt; amounts == [Ok(125_000), Err(ParseFault::OutOfRange)]);
    assert!(rt;
        orders
            == [
                Some(Ordering::Equal),
                Some(Ordering::Less),
                Some(Ordering::Greater)
            ]
    );
    Ok(())
}

/// Lengths that take one unit and three, about the first that takes three.
const SIZES: [usize; 7] = [0, 65_533, 65_534, 65_535, 65_536, 131_071, 200_000];

/// Adds a field of so many units to the last row.
fn add(alloc: Global, table: &mut FieldTable, size: usize) -> Result<(), NoMemory> {
    let units = vec![in alloc; 120u16; size]?;
    if table.row_count() == 0 {
        return Err(NoMemory);
    }
    table.push_field(&units)
}

/// Whether a field has so many units.
fn is_there(table: &FieldTable, column: usize, size: usize) -> bool {
    let text = table.text(1, column);
    text.len() == size && text.iter().all(|unit| *unit == 120)
}

#[test]
fn fields_have_any_length(rt: HostRuntime) -> Result<(), Fail> {
    let alloc = rt.alloc();
    let mut table = FieldTable::with_room(alloc, 9, 4, 3)?;
    table.push_row()?;
    table.push_row()?;
    for size in SIZES {
        add(alloc, &mut table, size)?;
    }
    assert!(rt; table.row_count() == 2);
    table.push_text("a\u{e9}\u{ffff}\u{1f600}")?;
    let mut found = table.field_count(0) == 0 && table.field_count(1) == 8;
    for (column, size) in SIZES.iter().enumerate() {
        found = is_there(&table, column, *size) && found;
    }
    assert!(rt; found);
    assert!(rt; table.text(1, 7) == [97, 0xE9, 0xFFFF, 0xD83D, 0xDE00].as_slice());
    assert!(rt; table.text(1, 8).is_empty() && table.text(2, 0).is_empty());
    Ok(())
}
