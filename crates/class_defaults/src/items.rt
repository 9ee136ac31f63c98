//! Arguments in brackets behind what is declared as of a class, as far as it is known before the run what they lead to:
//! of which type that is, whether it takes a value or an object, and which rule is broken so. They are all written,
//! without names.

ghost use Rattle.std.specs.Prelude.{◌≡◌, List, map};
ghost use Rattle.vba_values.specs.Types as type;
ghost use Rattle.bound_project.specs.Project.{class_at, procedure_at};
ghost use Rattle.bound_project.specs.View.{class_member_view, declarations_view, declared_view, parameter_view};
ghost use Rattle.bound_forms.specs.ClassDefaults as plain;
ghost use Rattle.bound_forms.specs.Terms as terms;
ghost use Rattle.bound_forms.specs.Terms.{Given};
ghost use Rattle.std.specs.List.{list_all};
ghost use Rattle.class_defaults.specs.Known.{known_view, way_view};
ghost use Rattle.class_defaults.specs.Items.{ArePlain, default_leads, default_lets, default_sets, element_set, led_on, let_on, member_leads, member_lets, member_sets, plainly, procedure_leads, property_leads, property_lets, property_sets, reader_lets, reader_sets, set_on, setter_passes, takes_many, unset_rule, written_passes};

use crate::known::{Known, Way, field_type, known_or, known_variant, written_by};
use bound_declarations::class_in;
use bound_declarations::constant_values::declared_names::is_object;
use bound_declarations::constant_values::is_variant;
use bound_project::{
    Declarations, DeclaredType, ElementType, MOST_PASSED, Member, Parameter, default_of,
    has_parameters, parameters_of, result_of, without_last,
};

/// May a parameter be given nothing?
pub fn may_lack(parameter: &Parameter) -> bool
    ensures { result ≡ terms.may_lack (parameter_view parameter.now) }
{
    parameter.is_param_array || parameter.default.is_some()
}

/// Do parameters take no arguments: may each be given nothing?
pub fn takes_none(parameters: &[Parameter]) -> bool
    ensures { result ≡ list_all terms.may_lack (map parameter_view parameters.now) }
{
    for parameter in parameters {
        if !may_lack(parameter) {
            return false;
        }
    }
    true
}

/// Do parameters take so many arguments?
#[tactic(auto, using(crate::proofs::Counted::takes_no_more, crate::proofs::Counted::takes_one_more))]
fn takes_many(parameters: &[Parameter], count: u32) -> bool
    ensures { result ≡ takes_many (map parameter_view parameters.now) count }
{
    if count == 0 {
        return takes_none(parameters);
    }
    match parameters {
        [] => false,
        [first, behind @ ..] => first.is_param_array || takes_many(behind, count - 1),
    }
}

/// What a procedure with these parameters gives, or S25.
fn taken_or(parameters: &[Parameter], of: DeclaredType, count: u32) -> Known
    ensures { known_view result ≡ plain.known_or (takes_many (map parameter_view parameters.now) count) 25 (declared_view of) }
{
    let takes = takes_many(parameters, count);
    known_or(takes, 25, of)
}

// ---- what arguments lead to

/// What arguments lead to behind what is of no class.
#[tactic(auto, using(crate::proofs::Counted::plainly_long))]
fn other_led(of: DeclaredType, count: u32) -> Known
    ensures { known_view result ≡ plain.other_led (declared_view of) (plainly count) }
{
    match of {
        DeclaredType::ArrayOf(element) => Known::Type(DeclaredType::Plain(element)),
        DeclaredType::Plain(ElementType::Variant) => known_variant(),
        DeclaredType::Plain(ElementType::Object) => known_variant(),
        DeclaredType::Plain(ElementType::Collection) => known_or(
            count == 1,
            25,
            DeclaredType::Plain(ElementType::Variant),
        ),
        DeclaredType::Plain(ElementType::Range) => known_or(count == 2, 25, of),
        DeclaredType::Plain(ElementType::Worksheet) => Known::Breaks(34),
        DeclaredType::Plain(_) => Known::Breaks(25),
    }
}

/// A procedure with parameters takes the arguments; one without passes them on.
#[tactic(auto, using(crate::proofs::Counted::procedure_takes, crate::proofs::Counted::procedure_passes))]
fn procedure_led(declared: &Declarations, procedure: u32, count: u32) -> Way
    ensures { way_view result ≡ procedure_leads (procedure_at (declarations_view declared.now) procedure) (plainly count) }
{
    let parameters = parameters_of(declared, procedure);
    let of = result_of(declared, procedure);
    if has_parameters(parameters) {
        return Way::Ends(taken_or(parameters, of, count));
    }
    Way::On(of)
}

/// The same of a property, by its Get, or S34 where it has none.
fn property_led(declared: &Declarations, reads: Option<u32>, count: u32) -> Way
    ensures { way_view result ≡ property_leads (declarations_view declared.now) reads (plainly count) }
{
    match reads {
        Some(procedure) => procedure_led(declared, procedure, count),
        None => Way::Ends(Known::Breaks(34)),
    }
}

/// The same of the default member of a class.
fn default_led(declared: &Declarations, class: u32, member: Member, count: u32) -> Way
    ensures { way_view result ≡ default_leads (declarations_view declared.now) (class_at (declarations_view declared.now) class) (class_member_view member) (plainly count) }
{
    match member {
        Member::Variable { field, makes: _ } => Way::On(field_type(declared, class, field)),
        Member::Procedure(procedure) => procedure_led(declared, procedure, count),
        Member::Property {
            reads,
            lets: _,
            sets: _,
        } => property_led(declared, reads, count),
    }
}

/// The same of a class: S34 where it has no default member.
fn member_led(declared: &Declarations, class: u32, count: u32) -> Way
    ensures { way_view result ≡ member_leads (declarations_view declared.now) (class_at (declarations_view declared.now) class) (class_at (declarations_view declared.now) class).default (plainly count) }
{
    match default_of(declared, class) {
        Some(member) => default_led(declared, class, member, count),
        None => Way::Ends(Known::Breaks(34)),
    }
}

/// What arguments lead to behind something of a type, through so many default members that pass them on.
#[cycle(leading)]
fn led_by(declared: &Declarations, left: u32, of: DeclaredType, count: u32) -> Known
    ensures { known_view result ≡ plain.led_by (declarations_view declared.now) (plainly count) left (declared_view of) }
{
    match class_in(of) {
        Some(class) => led_class(declared, left, class, count),
        None => other_led(of, count),
    }
}

/// The same behind an object of a class.
#[cycle(leading)]
fn led_class(declared: &Declarations, left: u32, class: u32, count: u32) -> Known
    ensures { known_view result ≡ plain.led_by (declarations_view declared.now) (plainly count) left (type.class class) }
{
    match member_led(declared, class, count) {
        Way::On(next) => led_on(declared, left, next, count),
        Way::Ends(found) => found,
    }
}

/// The same of what a default member passes them on to: S25 where no more may.
#[cycle(leading)]
#[tactic(auto, using(crate::proofs::Counted::led_more, crate::proofs::Counted::led_no_more))]
fn led_on(declared: &Declarations, left: u32, of: DeclaredType, count: u32) -> Known
    ensures { known_view result ≡ led_on (declarations_view declared.now) (plainly count) left (declared_view of) }
{
    if left == 0 {
        return Known::Breaks(25);
    }
    led_by(declared, left - 1, of, count)
}

/// What so many arguments lead to behind an object of a class.
pub fn class_led(declared: &Declarations, class: u32, count: u32) -> Known
    ensures { (gs : List Given) → ArePlain count gs → plain.class_led (declarations_view declared.now) class gs ≡ known_view result }
{
    led_class(declared, MOST_PASSED, class, count)
}

// ---- where what they lead to takes a value

/// An element of an array takes the value, and of objects its default member does.
fn element_written(declared: &Declarations, of: DeclaredType) -> Known
    ensures { known_view result ≡ plain.element_written (declarations_view declared.now) (declared_view of) }
{
    if is_object(of) {
        return written_by(declared, MOST_PASSED, of);
    }
    Known::Type(of)
}

/// What arguments lead to behind what is of no class takes a value.
fn other_let(declared: &Declarations, of: DeclaredType, count: u32) -> Known
    ensures { known_view result ≡ plain.other_let (declarations_view declared.now) (declared_view of) (plainly count) }
{
    match of {
        DeclaredType::ArrayOf(element) => element_written(declared, DeclaredType::Plain(element)),
        DeclaredType::Plain(_) => other_led(of, count),
    }
}

/// What a procedure with these parameters gives has its default member written, or S25.
#[tactic(auto, using(crate::proofs::Counted::result_takes, crate::proofs::Counted::result_refuses))]
fn result_let(declared: &Declarations, procedure: u32, count: u32) -> Known
    ensures { known_view result ≡ plain.result_let (declarations_view declared.now) (procedure_at (declarations_view declared.now) procedure) (plainly count) }
{
    let parameters = parameters_of(declared, procedure);
    let of = result_of(declared, procedure);
    if takes_many(parameters, count) {
        return written_by(declared, MOST_PASSED, of);
    }
    Known::Breaks(25)
}

/// What a procedure with parameters gives is written; one without passes the arguments on.
#[tactic(auto, using(crate::proofs::Counted::reader_lets_on, crate::proofs::Counted::reader_lets_here))]
fn reader_let(declared: &Declarations, procedure: u32, count: u32) -> Way
    ensures { way_view result ≡ reader_lets (declarations_view declared.now) (procedure_at (declarations_view declared.now) procedure) (plainly count) }
{
    let parameters = parameters_of(declared, procedure);
    if has_parameters(parameters) {
        return Way::Ends(result_let(declared, procedure, count));
    }
    Way::On(result_of(declared, procedure))
}

/// The same of a property, by its Get, or S27 where it has none.
fn property_let(declared: &Declarations, reads: Option<u32>, count: u32) -> Way
    ensures { way_view result ≡ property_lets (declarations_view declared.now) reads (plainly count) }
{
    match reads {
        Some(procedure) => reader_let(declared, procedure, count),
        None => Way::Ends(Known::Breaks(27)),
    }
}

/// A Let or a Set with other parameters takes the arguments; one without isn't asked.
#[tactic(auto, using(crate::proofs::Counted::setter_takes, crate::proofs::Counted::setter_passes_on))]
fn setter_way(declared: &Declarations, procedure: u32, others: Way, count: u32) -> Way
    ensures { way_view result ≡ setter_passes (procedure_at (declarations_view declared.now) procedure) (way_view others) (plainly count) }
{
    let parameters = without_last(parameters_of(declared, procedure));
    if has_parameters(parameters) {
        let variant = DeclaredType::Plain(ElementType::Variant);
        return Way::Ends(taken_or(parameters, variant, count));
    }
    others
}

/// The same, where there is one.
fn written_way(declared: &Declarations, writes: Option<u32>, others: Way, count: u32) -> Way
    ensures { way_view result ≡ written_passes (declarations_view declared.now) writes (way_view others) (plainly count) }
{
    match writes {
        Some(procedure) => setter_way(declared, procedure, others, count),
        None => others,
    }
}

/// What the default member of a class does with a value for what arguments lead to.
fn default_let(declared: &Declarations, class: u32, member: Member, count: u32) -> Way
    ensures { way_view result ≡ default_lets (declarations_view declared.now) (class_at (declarations_view declared.now) class) (class_member_view member) (plainly count) }
{
    match member {
        Member::Variable { field, makes: _ } => Way::On(field_type(declared, class, field)),
        Member::Procedure(procedure) => reader_let(declared, procedure, count),
        Member::Property {
            reads,
            lets,
            sets: _,
        } => {
            let others = property_let(declared, reads, count);
            written_way(declared, lets, others, count)
        }
    }
}

/// The same of a class: S34 where it has no default member.
fn member_let(declared: &Declarations, class: u32, count: u32) -> Way
    ensures { way_view result ≡ member_lets (declarations_view declared.now) (class_at (declarations_view declared.now) class) (class_at (declarations_view declared.now) class).default (plainly count) }
{
    match default_of(declared, class) {
        Some(member) => default_let(declared, class, member, count),
        None => Way::Ends(Known::Breaks(34)),
    }
}

/// What arguments lead to behind something of a type takes a value, through so many default members that pass them on.
#[cycle(letting)]
fn let_by(declared: &Declarations, left: u32, of: DeclaredType, count: u32) -> Known
    ensures { known_view result ≡ plain.let_by (declarations_view declared.now) (plainly count) left (declared_view of) }
{
    match class_in(of) {
        Some(class) => let_class(declared, left, class, count),
        None => other_let(declared, of, count),
    }
}

/// The same behind an object of a class.
#[cycle(letting)]
fn let_class(declared: &Declarations, left: u32, class: u32, count: u32) -> Known
    ensures { known_view result ≡ plain.let_by (declarations_view declared.now) (plainly count) left (type.class class) }
{
    match member_let(declared, class, count) {
        Way::On(next) => let_on(declared, left, next, count),
        Way::Ends(found) => found,
    }
}

/// The same of what a default member passes them on to: S25 where no more may.
#[cycle(letting)]
#[tactic(auto, using(crate::proofs::Counted::let_more, crate::proofs::Counted::let_no_more))]
fn let_on(declared: &Declarations, left: u32, of: DeclaredType, count: u32) -> Known
    ensures { known_view result ≡ let_on (declarations_view declared.now) (plainly count) left (declared_view of) }
{
    if left == 0 {
        return Known::Breaks(25);
    }
    let_by(declared, left - 1, of, count)
}

/// What so many arguments lead to behind an object of a class takes a value.
pub fn class_let(declared: &Declarations, class: u32, count: u32) -> Known
    ensures { (gs : List Given) → ArePlain count gs → plain.class_let (declarations_view declared.now) class gs ≡ known_view result }
{
    let_class(declared, MOST_PASSED, class, count)
}

// ---- where it is given an object

/// An element of an array of objects, or of Variants, is given an object.
fn element_set(of: DeclaredType) -> Known
    ensures { known_view result ≡ element_set (declared_view of) }
{
    if is_object(of) || is_variant(of) {
        return Known::Type(of);
    }
    Known::NotSaid
}

/// What takes arguments and only gives something can't be set: S27, or S25 where it doesn't take them.
fn unset(takes: bool) -> Known
    ensures { known_view result ≡ unset_rule takes }
{
    if takes {
        Known::Breaks(27)
    } else {
        Known::Breaks(25)
    }
}

/// What arguments lead to behind what is of no class is given an object.
#[tactic(auto, using(crate::proofs::Counted::plainly_long))]
fn other_set(of: DeclaredType, count: u32) -> Known
    ensures { known_view result ≡ plain.other_set (declared_view of) (plainly count) }
{
    match of {
        DeclaredType::ArrayOf(element) => element_set(DeclaredType::Plain(element)),
        DeclaredType::Plain(ElementType::Variant) => known_variant(),
        DeclaredType::Plain(ElementType::Object) => known_variant(),
        DeclaredType::Plain(ElementType::Collection) => unset(count == 1),
        DeclaredType::Plain(ElementType::Range) => unset(count == 2),
        DeclaredType::Plain(ElementType::Worksheet) => Known::Breaks(34),
        DeclaredType::Plain(_) => Known::Breaks(25),
    }
}

/// A procedure with parameters only gives something; one without passes the arguments on.
#[tactic(auto, using(crate::proofs::Counted::reader_sets_on, crate::proofs::Counted::reader_sets_here))]
fn reader_set(declared: &Declarations, procedure: u32, count: u32) -> Way
    ensures { way_view result ≡ reader_sets (procedure_at (declarations_view declared.now) procedure) (plainly count) }
{
    let parameters = parameters_of(declared, procedure);
    if has_parameters(parameters) {
        let takes = takes_many(parameters, count);
        return Way::Ends(unset(takes));
    }
    Way::On(result_of(declared, procedure))
}

/// The same of a property, by its Get, or S27 where it has none.
fn property_set(declared: &Declarations, reads: Option<u32>, count: u32) -> Way
    ensures { way_view result ≡ property_sets (declarations_view declared.now) reads (plainly count) }
{
    match reads {
        Some(procedure) => reader_set(declared, procedure, count),
        None => Way::Ends(Known::Breaks(27)),
    }
}

/// What the default member of a class does with an object that what arguments lead to is given.
fn default_set(declared: &Declarations, class: u32, member: Member, count: u32) -> Way
    ensures { way_view result ≡ default_sets (declarations_view declared.now) (class_at (declarations_view declared.now) class) (class_member_view member) (plainly count) }
{
    match member {
        Member::Variable { field, makes: _ } => Way::On(field_type(declared, class, field)),
        Member::Procedure(procedure) => reader_set(declared, procedure, count),
        Member::Property {
            reads,
            lets: _,
            sets,
        } => {
            let others = property_set(declared, reads, count);
            written_way(declared, sets, others, count)
        }
    }
}

/// The same of a class: S34 where it has no default member.
fn member_set(declared: &Declarations, class: u32, count: u32) -> Way
    ensures { way_view result ≡ member_sets (declarations_view declared.now) (class_at (declarations_view declared.now) class) (class_at (declarations_view declared.now) class).default (plainly count) }
{
    match default_of(declared, class) {
        Some(member) => default_set(declared, class, member, count),
        None => Way::Ends(Known::Breaks(34)),
    }
}

/// What arguments lead to behind something of a type is given an object, through so many default members that pass them
/// on.
#[cycle(setting)]
fn set_by(declared: &Declarations, left: u32, of: DeclaredType, count: u32) -> Known
    ensures { known_view result ≡ plain.set_by (declarations_view declared.now) (plainly count) left (declared_view of) }
{
    match class_in(of) {
        Some(class) => set_class(declared, left, class, count),
        None => other_set(of, count),
    }
}

/// The same behind an object of a class.
#[cycle(setting)]
fn set_class(declared: &Declarations, left: u32, class: u32, count: u32) -> Known
    ensures { known_view result ≡ plain.set_by (declarations_view declared.now) (plainly count) left (type.class class) }
{
    match member_set(declared, class, count) {
        Way::On(next) => set_on(declared, left, next, count),
        Way::Ends(found) => found,
    }
}

/// The same of what a default member passes them on to: S25 where no more may.
#[cycle(setting)]
#[tactic(auto, using(crate::proofs::Counted::set_more, crate::proofs::Counted::set_no_more))]
fn set_on(declared: &Declarations, left: u32, of: DeclaredType, count: u32) -> Known
    ensures { known_view result ≡ set_on (declarations_view declared.now) (plainly count) left (declared_view of) }
{
    if left == 0 {
        return Known::Breaks(25);
    }
    set_by(declared, left - 1, of, count)
}

/// What so many arguments lead to behind an object of a class is given an object.
pub fn class_set(declared: &Declarations, class: u32, count: u32) -> Known
    ensures { (gs : List Given) → ArePlain count gs → plain.class_set (declarations_view declared.now) class gs ≡ known_view result }
{
    set_class(declared, MOST_PASSED, class, count)
}
