//! Default members of what is declared as of a class, as far as they are known before the run: the type of the value to
//! which an object gives way, whether one can be written, and which rule is broken so.

ghost use Rattle.std.specs.Prelude.{◌≡◌, map, slice_index_or, Some};
ghost use Rattle.vba_values.specs.Types as type;
ghost use Rattle.bound_project.specs.Project.{class_at, no_declaration, procedure_at};
ghost use Rattle.bound_project.specs.View.{class_member_view, declaration_view, declarations_view, declared_view};
ghost use Rattle.bound_forms.specs.ClassDefaults.{class_written, default_read, field_type, known_or, let_written, member_read, other_written, procedure_read, written_by};
ghost use Rattle.bound_forms.specs.ClassDefaults as plain;
ghost use Rattle.class_defaults.specs.Known.{known_view, member_passes, reader_passes, variable_passes, way_view, write_passes, written_on};

use bound_declarations::class_in;
use bound_declarations::constant_values::declared_names::is_object;
use bound_project::{
    Declaration, Declarations, DeclaredType, ElementType, Member, any_must, default_of, fields_of,
    last_type, parameters_of, result_of, without_last,
};

/// What is known before the run: the type of what there is, or the rule that is broken; or nothing is said.
#[derive(Clone, Copy)]
pub enum Known {
    Type(DeclaredType),
    Breaks(u8),
    NotSaid,
}

/// What a default member passes arguments or a value on to, by its type; or what is known at once.
#[derive(Clone, Copy)]
pub enum Way {
    On(DeclaredType),
    Ends(Known),
}

/// The type of what there is where this holds, or else a rule that is broken.
pub fn known_or(holds: bool, rule: u8, of: DeclaredType) -> Known
    ensures { known_view result ≡ known_or holds rule (declared_view of) }
{
    if holds {
        Known::Type(of)
    } else {
        Known::Breaks(rule)
    }
}

/// A Variant, of which the run says more.
pub fn known_variant() -> Known
    ensures { known_view result ≡ plain.known type.variant }
{
    Known::Type(DeclaredType::Plain(ElementType::Variant))
}

// ---- variables of classes by their numbers

/// The type of one of these variables.
fn type_at(fields: &[Declaration], field: u32) -> DeclaredType
    ensures { declared_view result ≡ (slice_index_or (map declaration_view fields.now) field no_declaration).of }
{
    match fields.get(field as usize) {
        Some(declaration) => declaration.of,
        None => DeclaredType::Plain(ElementType::Variant),
    }
}

/// The type of a variable of a class, by their numbers.
pub fn field_type(declared: &Declarations, class: u32, field: u32) -> DeclaredType
    ensures { declared_view result ≡ field_type (class_at (declarations_view declared.now) class) field }
{
    type_at(fields_of(declared, class), field)
}

// ---- an object as an operand gives way to the value of its default member, once

/// What a procedure gives without arguments: S25 where one must be given.
fn procedure_read(declared: &Declarations, procedure: u32) -> Known
    ensures { known_view result ≡ procedure_read (procedure_at (declarations_view declared.now) procedure) }
{
    let must = any_must(parameters_of(declared, procedure));
    known_or(!must, 25, result_of(declared, procedure))
}

/// What the default member of a class gives: S34 where it is a property without a Get.
fn member_read(declared: &Declarations, class: u32, member: Member) -> Known
    ensures { known_view result ≡ member_read (declarations_view declared.now) (class_at (declarations_view declared.now) class) (Some (class_member_view member)) }
{
    match member {
        Member::Variable { field, makes: _ } => Known::Type(field_type(declared, class, field)),
        Member::Procedure(procedure) => procedure_read(declared, procedure),
        Member::Property {
            reads: Some(procedure),
            lets: _,
            sets: _,
        } => procedure_read(declared, procedure),
        Member::Property {
            reads: None,
            lets: _,
            sets: _,
        } => Known::Breaks(34),
    }
}

/// The type of the value to which an object of a class gives way: S34 where the class has no default member.
pub fn default_read(declared: &Declarations, class: u32) -> Known
    ensures { known_view result ≡ default_read (declarations_view declared.now) class }
{
    match default_of(declared, class) {
        Some(member) => member_read(declared, class, member),
        None => Known::Breaks(34),
    }
}

// ---- a value is written to an object's default member

/// What is of no class is written: S27 where that can't be.
fn other_written(of: DeclaredType) -> Known
    ensures { known_view result ≡ other_written (declared_view of) }
{
    match of {
        DeclaredType::Plain(ElementType::Variant) => known_variant(),
        DeclaredType::Plain(ElementType::Object) => known_variant(),
        DeclaredType::Plain(ElementType::Range) => known_variant(),
        _ => Known::Breaks(27),
    }
}

/// A Let takes the value where its other parameters need none, or S25; nothing is said where it takes an object itself.
fn let_written(declared: &Declarations, procedure: u32) -> Known
    ensures { known_view result ≡ let_written (procedure_at (declarations_view declared.now) procedure) }
{
    let parameters = parameters_of(declared, procedure);
    if is_object(last_type(parameters)) {
        return Known::NotSaid;
    }
    let must = any_must(without_last(parameters));
    known_or(!must, 25, DeclaredType::Plain(ElementType::Variant))
}

/// What only gives an object passes the value on: S27 where it needs arguments for that.
fn reader_way(declared: &Declarations, procedure: u32) -> Way
    ensures { way_view result ≡ reader_passes (procedure_at (declarations_view declared.now) procedure) }
{
    if any_must(parameters_of(declared, procedure)) {
        Way::Ends(Known::Breaks(27))
    } else {
        Way::On(result_of(declared, procedure))
    }
}

/// A variable takes the value, or the object that it holds does.
fn variable_way(of: DeclaredType) -> Way
    ensures { way_view result ≡ variable_passes (declared_view of) }
{
    if is_object(of) {
        Way::On(of)
    } else {
        Way::Ends(known_variant())
    }
}

/// What the default member of a class does with a value: S27 where it is a property that only a Set writes.
fn member_way(declared: &Declarations, class: u32, member: Member) -> Way
    ensures { way_view result ≡ member_passes (declarations_view declared.now) (class_at (declarations_view declared.now) class) (class_member_view member) }
{
    match member {
        Member::Variable { field, makes: _ } => variable_way(field_type(declared, class, field)),
        Member::Procedure(procedure) => reader_way(declared, procedure),
        Member::Property {
            reads: _,
            lets: Some(procedure),
            sets: _,
        } => Way::Ends(let_written(declared, procedure)),
        Member::Property {
            reads: Some(procedure),
            lets: None,
            sets: _,
        } => reader_way(declared, procedure),
        Member::Property {
            reads: None,
            lets: None,
            sets: _,
        } => Way::Ends(Known::Breaks(27)),
    }
}

/// What a class does with a value that is written to its default member, or the rule that is broken where it has none.
fn write_way(declared: &Declarations, none: u8, class: u32) -> Way
    ensures { way_view result ≡ write_passes none (declarations_view declared.now) (class_at (declarations_view declared.now) class) (class_at (declarations_view declared.now) class).default }
{
    match default_of(declared, class) {
        Some(member) => member_way(declared, class, member),
        None => Way::Ends(Known::Breaks(none)),
    }
}

/// A value is written to something of a type, through so many default members that pass it on.
#[cycle(written)]
pub fn written_by(declared: &Declarations, left: u32, of: DeclaredType) -> Known
    ensures { known_view result ≡ written_by (declarations_view declared.now) left (declared_view of) }
{
    match class_in(of) {
        Some(class) => written_class(declared, left, class),
        None => other_written(of),
    }
}

/// The same of an object of a class.
#[cycle(written)]
fn written_class(declared: &Declarations, left: u32, class: u32) -> Known
    ensures { known_view result ≡ written_by (declarations_view declared.now) left (type.class class) }
{
    match write_way(declared, 27, class) {
        Way::On(next) => written_on(declared, left, next),
        Way::Ends(found) => found,
    }
}

/// The same of what a default member passes it on to: S27 where no more may.
#[cycle(written)]
fn written_on(declared: &Declarations, left: u32, of: DeclaredType) -> Known
    ensures { known_view result ≡ written_on (declarations_view declared.now) left (declared_view of) }
{
    if left == 0 {
        return Known::Breaks(27);
    }
    written_by(declared, left - 1, of)
}

/// A value is written to an object of a class: S34 where the class has no default member.
pub fn class_written(declared: &Declarations, class: u32) -> Known
    ensures { known_view result ≡ class_written (declarations_view declared.now) class }
{
    match write_way(declared, 34, class) {
        Way::On(next) => written_by(declared, 7, next),
        Way::Ends(found) => found,
    }
}
