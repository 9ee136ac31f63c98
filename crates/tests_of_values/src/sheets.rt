use sheet_host::{Book, Sheet, SheetId};
use std::alloc::Global;
use vba_base::{NoMemory, Units, name_of};
use vba_values::Bad;

const DATA: [u16; 4] = [0x44, 0x61, 0x74, 0x61];

const CAPITALS: [u16; 4] = [0x44, 0x41, 0x54, 0x41];

/// A book with a sheet `Data` whose only row has one field.
fn book(alloc: Global) -> Result<Book, NoMemory> {
    let mut sheet = Sheet::new(alloc);
    sheet.push_row()?;
    sheet.push_field(&CAPITALS)?;
    let mut book = Book::new(alloc);
    book.add(Units::from_units(alloc, &DATA)?, sheet)?;
    Ok(book)
}

fn found(alloc: Global, book: &Book, name: &[u16]) -> Result<Result<SheetId, Bad>, NoMemory> {
    let name = name_of(alloc, name)?;
    Ok(book.sheet_named(&name))
}

#[test]
fn sheets_are_named(rt: HostRuntime) {
    let alloc = rt.alloc();
    let book = book(alloc).expect(&rt, "memory");
    let data = found(alloc, &book, &CAPITALS);
    let other = found(alloc, &book, &DATA[..3]);
    assert!(rt; data == Ok(Ok(SheetId(1))) && other == Ok(Err(Bad::Raise(9))));
    assert!(rt; book.sheets() == 1);
    assert!(rt; book.name(SheetId(1)).units() == DATA.as_slice());
    let sheet = book.sheet(SheetId(1));
    assert!(rt; sheet.row_count() == 1);
    assert!(rt; sheet.field_count(1) == 1);
    assert!(rt; sheet.field_text(1, 1) == CAPITALS.as_slice());
}
