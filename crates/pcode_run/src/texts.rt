// How a run shows what it tells.
ghost use Rattle.std.specs.Prelude.{◌≡◌, ℕ, List, ◌++◌, ◌∷◌, [], IfOk, OnOk, flat_map, map, string_bytes};
ghost use Rattle.std.specs.Fmt.{decimal, signed_decimal};
ghost use Rattle.run_host.specs.View.{told_view, event_view};
ghost use Rattle.bound_project.specs.View.{class_view, declarations_view};
ghost use Rattle.pcode_run.specs.Naming.{names_view};
ghost use Rattle.pcode_run.specs.Runs.{Names as PlainNames, cell_shown, class_names, escaped, escaped_unit, name_at, names_of, object_shown, quoted_unit, sheet_names, text_of, text_of_event, trace_line, value_shown};
ghost use Rattle.pcode_run.specs.declared.texts.Shows.TheVariants.{Plain, Trace};

use bound_project::{Class, Declarations};
use pcode_vm::{Event, Told};
use sheet_host::{Book, CellValue, SheetId, cell_address, field_of_cell};
use std::alloc::Global;
use vba_base::{NoMemory, Units, encode_text};

/// What a run shows of what it tells: the texts that Debug.Print prints, or a line of a trace for each event.
#[derive(Clone, Copy, Debug, PartialEq, Eq)]
pub enum Shows {
    Plain,
    Trace,
}

/// The names that a trace has: those of the sheets of a book and of the classes of a project, in their order.
#[derive(Drop)]
pub struct Names {
    pub sheets: Vec<Units>,
    pub classes: Vec<Units>,
}

/// How a run shows what it tells, and the names of its sheets and classes.
#[derive(Drop)]
pub struct Showing {
    pub shows: Shows,
    pub names: Names,
}

impl Showing {
    /// The names are those of the sheets of a book and of the classes of a project.
    pub fn new(
        alloc: Global,
        shows: Shows,
        book: &Book,
        declared: &Declarations,
    ) -> Result<Showing, NoMemory>
        ensures shows { IfOk result (λ showing. showing.shows ≡ shows) }
        ensures names { IfOk result (λ showing. names_view showing.names ≡ names_of (declarations_view declared.now) book.now) }
    {
        let sheets = sheet_names(alloc, book)?;
        let classes = class_names(alloc, declared)?;
        Ok(Showing {
            shows,
            names: Names { sheets, classes },
        })
    }
}

// The names of the sheets of a book.
#[tactic(auto, using(crate::proofs::Names::names_more, crate::proofs::Names::names_all))]
fn sheet_names(alloc: Global, book: &Book) -> Result<Vec<Units>, NoMemory>
    ensures { IfOk result (λ names. names.items ≡ sheet_names book.now) }
{
    let mut names = Vec::new(alloc);
    for place in 0..book.sheets() {
        let name = book.name(SheetId(place + 1));
        names.push(Units::from_units(alloc, name.units())?)?;
    }
    Ok(names)
}

// Adds the names of classes.
fn push_class_names(
    alloc: Global,
    names: &mut Vec<Units>,
    mut left: &[Class],
) -> Result<(), NoMemory>
    ensures { OnOk result (names.new.items ≡ names.old.items ++ map (λ c. (class_view c).name.spelling) left.entry.now) }
{
    while let [class, rest @ ..] = left {
        names.push(Units::from_units(alloc, class.name.spelling.units())?)?;
        left = rest;
    }
    Ok(())
}

// The names of the classes of a project.
#[tactic(auto, using(crate::proofs::Names::classes_seen))]
fn class_names(alloc: Global, declared: &Declarations) -> Result<Vec<Units>, NoMemory>
    ensures { IfOk result (λ names. names.items ≡ class_names (declarations_view declared.now)) }
{
    let mut names = Vec::new(alloc);
    push_class_names(alloc, &mut names, &declared.classes)?;
    Ok(names)
}

/// The text of what was told.
pub fn text_told(alloc: Global, showing: &Showing, told: &Told) -> Result<Vec<u8>, NoMemory>
    ensures { IfOk result (λ bytes. bytes.items ≡ text_of showing.now.shows (names_view showing.now.names) (told_view told.now)) }
{
    let mut bytes = Vec::new(alloc);
    add_texts(alloc, showing, &mut bytes, told.events.as_slice())?;
    Ok(bytes)
}

// Adds the texts of events.
fn add_texts(
    alloc: Global,
    showing: &Showing,
    bytes: &mut Vec<u8>,
    events: &[Event],
) -> Result<(), NoMemory>
    ensures { OnOk result (bytes.new.items ≡ bytes.old.items ++ text_of showing.now.shows (names_view showing.now.names) (map event_view events.now)) }
{
    match events {
        [] => Ok(()),
        [first, events @ ..] => {
            add_text(alloc, showing, bytes, first)?;
            add_texts(alloc, showing, bytes, events)
        }
    }
}

// Adds the text of an event.
fn add_text(
    alloc: Global,
    showing: &Showing,
    bytes: &mut Vec<u8>,
    event: &Event,
) -> Result<(), NoMemory>
    ensures { OnOk result (bytes.new.items ≡ bytes.old.items ++ text_of_event showing.now.shows (names_view showing.now.names) (event_view event.now)) }
{
    match showing.shows {
        Shows::Plain => add_plain(alloc, bytes, event),
        Shows::Trace => add_traced(alloc, &showing.names, bytes, event),
    }
}

// Adds what Debug.Print shows, with LF where the line ends. Other events are told in silence.
fn add_plain(alloc: Global, bytes: &mut Vec<u8>, event: &Event) -> Result<(), NoMemory>
    ensures { (names : PlainNames) → OnOk result (bytes.new.items ≡ bytes.old.items ++ text_of_event Plain names (event_view event.now)) }
{
    if let Event::Printed { text, ends } = event {
        let encoded = encode_text(alloc, text.units())?;
        bytes.extend_from_slice(encoded.as_slice())?;
        if *ends {
            bytes.push(b'\n')?;
        }
    }
    Ok(())
}

// Adds the line of a trace for an event.
fn add_traced(
    alloc: Global,
    names: &Names,
    bytes: &mut Vec<u8>,
    event: &Event,
) -> Result<(), NoMemory>
    ensures { OnOk result (bytes.new.items ≡ bytes.old.items ++ text_of_event Trace (names_view names.now) (event_view event.now)) }
{
    match event {
        Event::Printed { text, ends } => {
            let escaped = escaped(alloc, text.units())?;
            let encoded = encode_text(alloc, escaped.units())?;
            add_line(bytes, if *ends { b'P' } else { b'p' }, encoded.as_slice())?;
        }
        Event::Cell {
            sheet,
            row,
            column,
            value,
        } => {
            let shown = cell_shown(alloc, &names.sheets, *sheet, *row, *column, value)?;
            let encoded = encode_text(alloc, shown.units())?;
            add_line(bytes, b'C', encoded.as_slice())?;
        }
        Event::Raised { number } => {
            let number = number_text(alloc, *number)?;
            add_line(bytes, b'E', number.as_bytes())?;
        }
        Event::Init { class, number } => {
            add_object(alloc, &names.classes, bytes, b'I', *class, *number)?;
        }
        Event::Term { class, number } => {
            add_object(alloc, &names.classes, bytes, b'T', *class, *number)?;
        }
    }
    Ok(())
}

// Adds the line of a trace for what an object tells: the name of its class, and its number.
fn add_object(
    alloc: Global,
    names: &[Units],
    bytes: &mut Vec<u8>,
    letter: u8,
    class: u32,
    number: u32,
) -> Result<(), NoMemory>
    ensures { OnOk result (bytes.new.items ≡ bytes.old.items ++ trace_line letter (object_shown names.now class number)) }
{
    let mut text = encode_text(alloc, name_at(names, class))?;
    text.push(b' ')?;
    let number = object_number(alloc, number)?;
    text.extend_from_slice(number.as_bytes())?;
    add_line(bytes, letter, text.as_slice())
}

// The text of the number of an object.
fn object_number(alloc: Global, number: u32) -> Result<String, NoMemory>
    ensures { IfOk result (λ text. string_bytes text ≡ decimal number) }
{
    Ok(format!(in alloc; "{number}")?)
}

// Adds a line of a trace: a letter, a blank and a text.
fn add_line(bytes: &mut Vec<u8>, letter: u8, text: &[u8]) -> Result<(), NoMemory>
    ensures { OnOk result (bytes.new.items ≡ bytes.old.items ++ trace_line letter text.now) }
{
    bytes.push(letter)?;
    bytes.push(b' ')?;
    bytes.extend_from_slice(text)?;
    bytes.push(b'\n')?;
    Ok(())
}

// The text of the number of an error.
fn number_text(alloc: Global, number: i32) -> Result<String, NoMemory>
    ensures { IfOk result (λ text. string_bytes text ≡ signed_decimal number) }
{
    Ok(format!(in alloc; "{number}")?)
}

const EXCLAMATION: u16 = 33;

const BLANK: u16 = 32;

const QUOTE: u16 = 34;

/// `Empty`
const EMPTY: [u16; 5] = [69, 109, 112, 116, 121];

// A cell and its value as a line of a trace has them.
fn cell_shown(
    alloc: Global,
    names: &[Units],
    sheet: u32,
    row: u32,
    column: u32,
    value: &CellValue,
) -> Result<Units, NoMemory>
    ensures { IfOk result (λ text. text ≡ cell_shown names.now sheet row column value.now) }
{
    let mut text = Units::new(alloc);
    escape(&mut text, name_at(names, sheet))?;
    text.push(EXCLAMATION)?;
    let address = cell_address(alloc, row, column)?;
    text.extend(address.units())?;
    text.push(BLANK)?;
    add_value(alloc, &mut text, value)?;
    Ok(text)
}

// The name of the sheet or the class of a number, which counts from 1.
fn name_at(names: &[Units], number: u32) -> &[u16]
    ensures { result.now ≡ name_at names.now number }
{
    match names.get(number.saturating_sub(1) as usize) {
        Some(name) => name.units(),
        None => &[],
    }
}

// Adds the value of a cell as a line of a trace has it.
fn add_value(alloc: Global, text: &mut Units, value: &CellValue) -> Result<(), NoMemory>
    ensures { OnOk result (text.new ≡ text.old ++ value_shown value.now) }
{
    match value {
        CellValue::Empty => text.extend(&EMPTY),
        CellValue::Text(units) => {
            text.push(QUOTE)?;
            quote(text, units.units())?;
            text.push(QUOTE)
        }
        CellValue::Boolean(_)
        | CellValue::Long(_)
        | CellValue::LongLong(_)
        | CellValue::Currency(_) => {
            let field = field_of_cell(alloc, value)?;
            text.extend(field.units())
        }
    }
}

// Adds units as a text in quotes has them.
fn quote(text: &mut Units, mut left: &[u16]) -> Result<(), NoMemory>
    ensures { OnOk result (text.new ≡ text.old ++ flat_map quoted_unit left.entry.now) }
{
    while let [unit, rest @ ..] = left {
        quote_unit(text, *unit)?;
        left = rest;
    }
    Ok(())
}

// Adds a unit as a text in quotes has it.
fn quote_unit(text: &mut Units, unit: u16) -> Result<(), NoMemory>
    ensures { OnOk result (text.new ≡ text.old ++ quoted_unit unit) }
{
    match unit {
        QUOTE => text.extend(&[QUOTE, QUOTE]),
        _ => escape_unit(text, unit),
    }
}

// A text as a line of a trace has it.
fn escaped(alloc: Global, units: &[u16]) -> Result<Units, NoMemory>
    ensures { IfOk result (λ text. text ≡ escaped units.now) }
{
    let mut text = Units::new(alloc);
    escape(&mut text, units)?;
    Ok(text)
}

// Adds units as a line of a trace has them.
fn escape(text: &mut Units, mut left: &[u16]) -> Result<(), NoMemory>
    ensures { OnOk result (text.new ≡ text.old ++ escaped left.entry.now) }
{
    while let [unit, rest @ ..] = left {
        escape_unit(text, *unit)?;
        left = rest;
    }
    Ok(())
}

/// The unit of `\`, and those of `n` and `r`, which stand behind it for the two line ends.
const BACKSLASH: u16 = 92;

const LETTER_N: u16 = 110;

const LETTER_R: u16 = 114;

// Adds a unit as a line of a trace has it.
fn escape_unit(text: &mut Units, unit: u16) -> Result<(), NoMemory>
    ensures { OnOk result (text.new ≡ text.old ++ escaped_unit unit) }
{
    match unit {
        10 => text.extend(&[BACKSLASH, LETTER_N])?,
        13 => text.extend(&[BACKSLASH, LETTER_R])?,
        BACKSLASH => text.extend(&[BACKSLASH, BACKSLASH])?,
        _ => text.push(unit)?,
    }
    Ok(())
}
