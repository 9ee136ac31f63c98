//! Places and values that are assigned to, other than members of objects.

ghost use Rattle.std.specs.Prelude.{◌≡◌, ℕ, true, false, Bool, Option, Some, None, IfOk, IfSome, MatchBool};
ghost use Rattle.vba_base.specs.declared.place.Place as told;
ghost use Rattle.bound_project.specs.DraftView.{draft_view};
ghost use Rattle.bound_project.specs.Drafts.{NodeNamed};
ghost use Rattle.bound_project.specs.Project as project;
ghost use Rattle.bound_project.specs.View.{declarations_view, declared_view};
ghost use Rattle.bound_members.specs.bound_calls.specs.bound_forms.specs.Targets as targets;
ghost use Rattle.bound_members.specs.bound_calls.specs.bound_declarations.specs.constant_values.specs.declared_names.specs.binder.specs.Classes as classes;
ghost use Rattle.bound_members.specs.bound_calls.specs.bound_declarations.specs.constant_values.specs.declared_names.specs.binder.specs.Types as types;
ghost use Rattle.statement_terms.specs.Terms.{may_be_object};
ghost use Rattle.statement_terms.specs.Members.{AssignsIn, AssignsTerm};
ghost use Rattle.statement_terms.specs.Targets.{AssignsIndexed, EndsItem, EndsLate, EndsObject, EndsValue, EndsWrong, IndexedLate, IsLateValue, WrittenIs, default_kind, ends_unassignable, ends_value, is_item_along, is_kept, is_value_kind, kind_known, numbers_along};
ghost use Rattle.bound_members.specs.bound_calls.specs.class_defaults.specs.Known.{known_view};
ghost use Rattle.bound_members.specs.bound_calls.specs.References.{IsInstance};
ghost use Rattle.bound_members.specs.bound_calls.specs.Taking.{read_kind};
ghost use Rattle.bound_members.specs.bound_calls.specs.declared.term.Term.TheVariants as term;
ghost use Rattle.bound_members.specs.bound_calls.specs.Standing.{TermNamed};
ghost use Rattle.bound_members.specs.Kinds.{kind_view};

use bound_members::bound_calls::bound_declarations::constant_values::declared_names::is_object;
use bound_members::bound_calls::bound_declarations::{NotYet, class_in};
use bound_members::bound_calls::{
    Ending, Known, Term, class_written, has_object, instance_of, is_found_late, is_of_class,
    is_typed_kind, is_variant, push_broken, push_node, read_kind,
};
use bound_members::{HostKind, is_known_late, kind_of_ending};
use bound_project::{ActionKind, Declarations, DeclaredType, Draft, ElementType, NodeKind};
use vba_base::{NoMemory, OrMemory, Place};

/// Is a type one of what may be an object?
pub fn may_be_object(of: DeclaredType) -> bool
    ensures { result ≡ may_be_object of }
{
    is_object(of) || is_variant(of)
}

/// Has an object of a type a default member that is written? Of a Variant the run decides.
pub fn has_written_default(of: DeclaredType) -> bool
    ensures { result ≡ targets.has_written_default (declared_view of) }
{
    match of {
        DeclaredType::Plain(ElementType::Object) => true,
        DeclaredType::Plain(ElementType::Range) => true,
        DeclaredType::Plain(ElementType::Variant) => true,
        _ => false,
    }
}

/// Does the run say what arguments lead to that index a value whose last node isn't pushed yet: is it a Variant, declared as of
/// a class, or may it be an object of a class? None where that isn't known.
fn is_led_late(has_class: bool, draft: &Draft, ending: Ending) -> Option<bool>
    ensures { IfSome result (λ late. EndsLate has_class (draft_view draft.now).tables ending late) }
{
    if is_variant(ending.of) {
        return Some(true);
    }
    if is_of_class(ending.of) {
        return Some(true);
    }
    is_found_late(has_class, draft, ending)
}

/// The same of a term, in a project with classes or without.
pub fn is_indexed_late<'a>(has_class: bool, draft: &Draft, term: Term<'a>) -> Option<bool>
    ensures { IfSome result (λ late. IndexedLate has_class (draft_view draft.now).tables term.entry late) }
{
    match term {
        Term::Place { of, makes, .. } => {
            let read = Ending {
                kind: read_kind(makes),
                of,
            };
            is_led_late(has_class, draft, read)
        }
        Term::Value(ending) => is_led_late(has_class, draft, ending),
        _ => Some(false),
    }
}

/// The value that a term is, where the run says what arguments lead to in it.
pub fn late_value<'a>(has_class: bool, draft: &Draft, term: Term<'a>) -> Option<Ending>
    ensures { IfSome result (λ ending. IsLateValue has_class (draft_view draft.now).tables term.entry ending) }
{
    let Term::Value(ending) = term else {
        return None;
    };
    if !is_known_late(has_class, draft, ending) {
        return None;
    }
    Some(ending)
}

/// How many arguments lead to a place from another one, where the run says what they lead to.
pub fn numbers_along(kind: NodeKind) -> Option<u32>
    ensures { result ≡ numbers_along kind }
{
    match kind {
        NodeKind::ElementAlong { arguments } => Some(arguments),
        _ => None,
    }
}

/// Ends such a node a value, other than an element, that may give an object?
fn ends_value(kind: NodeKind) -> bool
    ensures { result ≡ ends_value kind }
{
    match kind {
        NodeKind::Load => true,
        NodeKind::LoadMade => true,
        NodeKind::Method { .. } => true,
        NodeKind::MethodInOrder { .. } => true,
        NodeKind::FieldValue { .. } => true,
        NodeKind::Call { .. } => true,
        NodeKind::CallInOrder { .. } => true,
        NodeKind::Library { .. } => true,
        NodeKind::HostMember { .. } => true,
        NodeKind::NamedMember { .. } => true,
        NodeKind::HostObject(_) => true,
        NodeKind::ActiveSheet => true,
        NodeKind::Marked { .. } => true,
        _ => false,
    }
}

/// Ends a node what arguments lead to in a value, as the run says? What such a value is assigned they are given with.
fn is_item_along(kind: NodeKind) -> bool
    ensures { result ≡ is_item_along kind }
{
    match kind {
        NodeKind::ItemAlong { .. } => true,
        _ => false,
    }
}

/// Is a node that of a use of a function of the library, or Me? Nothing is assigned to these.
fn is_kept(kind: NodeKind) -> bool
    ensures { result ≡ is_kept kind }
{
    match kind {
        NodeKind::Library { .. } => true,
        NodeKind::This => true,
        _ => false,
    }
}

/// Is a node the last one of a value?
fn is_value_kind(kind: NodeKind) -> bool
    ensures { result ≡ is_value_kind kind }
{
    match kind {
        NodeKind::HostObject(_) => true,
        _ => is_typed_kind(kind),
    }
}

/// Can't a value with such a node be assigned to: a constant, what Err tells, what is called, a field of what that gives, and
/// what breaks a rule?
pub fn is_unassignable(kind: NodeKind) -> bool
    ensures { result ≡ ends_unassignable kind }
{
    match kind {
        NodeKind::Constant { .. } => true,
        NodeKind::ErrValue(_) => true,
        NodeKind::Library { .. } => true,
        NodeKind::Call { .. } => true,
        NodeKind::CallInOrder { .. } => true,
        NodeKind::Method { .. } => true,
        NodeKind::MethodInOrder { .. } => true,
        NodeKind::FieldValue { .. } => true,
        NodeKind::Marked { .. } => true,
        _ => false,
    }
}

/// Is a value an object, or, where it is no element, what may be one? To a use of a function of the library, and to Me,
/// nothing is assigned.
fn gives_object(ending: Ending) -> bool
    ensures { MatchBool result (EndsObject ending) (Unit {0}) }
{
    if is_kept(ending.kind) || is_item_along(ending.kind) {
        return false;
    }
    if !is_value_kind(ending.kind) {
        return false;
    }
    if is_object(ending.of) {
        return true;
    }
    if !ends_value(ending.kind) {
        return false;
    }
    match has_object(ending) {
        Some(gives) => gives,
        None => false,
    }
}

/// A place of a type that is no object's, behind the value that it is given: where the run says what arguments lead to, these
/// are given with the value.
fn assign_plain(draft: &mut Draft, at: Ending, place: Place) -> Result<ActionKind, NoMemory>
    requires named { NodeNamed (draft_view draft.old).tables at.kind }
    requires plain { types.is_object (declared_view at.of) ≡ false }
    ensures { IfOk result (λ kind. (has : Bool) (bounds : ℕ) (lends makes : Bool) (may : Option Bool)
        → AssignsTerm has may place (term.Place at.kind at.of bounds lends makes) (draft_view draft.old) (draft_view draft.new) kind false) }
{
    if let Some(numbers) = numbers_along(at.kind) {
        return Ok(ActionKind::AssignElement { numbers });
    }
    push_node(draft, at.kind, at.of, place)?;
    Ok(ActionKind::Assign)
}

/// How the default member of an object is written: in the run, where the object may be one of a class, or as one of the host.
fn default_kind(through: bool) -> ActionKind
    ensures { result ≡ default_kind through }
{
    if through {
        return ActionKind::AssignThrough;
    }
    ActionKind::AssignDefault
}

/// A place of an object, which may be one of a class or not, and whose default member is written, behind the value that it is
/// given.
fn assign_object(
    draft: &mut Draft,
    at: Ending,
    makes: bool,
    through: bool,
    place: Place,
) -> Result<ActionKind, NoMemory>
    requires named { NodeNamed (draft_view draft.old).tables at.kind }
    requires object { types.is_object (declared_view at.of) ≡ true }
    ensures { IfOk result (λ kind. (all : project.Declarations) (of : DeclaredType) (has : Bool) (bounds : ℕ) (lends : Bool) (may : Option Bool) → WrittenIs all (record { kind = read_kind makes; of = at.of }) (Known.Type of)
        → IsInstance has (draft_view draft.old).tables (record { kind = read_kind makes; of = at.of }) through
        → AssignsIn all has may place (term.Place at.kind at.of bounds lends makes) (draft_view draft.old) (draft_view draft.new) kind false) }
{
    push_node(draft, at.kind, at.of, place)?;
    push_node(draft, read_kind(makes), at.of, place)?;
    Ok(default_kind(through))
}

/// A place of an object that has no default member, or none that is written, behind the value that it is given.
fn assign_unwritten(
    draft: &mut Draft,
    at: Ending,
    makes: bool,
    rule: u8,
    place: Place,
) -> Result<ActionKind, NoMemory>
    requires named { NodeNamed (draft_view draft.old).tables at.kind }
    requires object { types.is_object (declared_view at.of) ≡ true }
    ensures { IfOk result (λ kind. (all : project.Declarations) (has : Bool) (bounds : ℕ) (lends : Bool) (may : Option Bool) → WrittenIs all (record { kind = read_kind makes; of = at.of }) (Known.Breaks rule)
        → AssignsIn all has may place (term.Place at.kind at.of bounds lends makes) (draft_view draft.old) (draft_view draft.new) kind false) }
{
    push_node(draft, at.kind, at.of, place)?;
    push_node(draft, read_kind(makes), at.of, place)?;
    push_broken(draft, rule, place, 2)?;
    Ok(ActionKind::Evaluate)
}

/// The rule that an assignment to the default member of an object of a kind breaks before the run.
fn write_rule(kind: HostKind) -> Option<u8>
    ensures { result ≡ targets.write_rule (Some (kind_view kind)) }
{
    match kind {
        HostKind::Application => Some(34),
        HostKind::Workbook => Some(34),
        HostKind::Sheets => Some(27),
        HostKind::Sheet => Some(34),
        HostKind::Collection => Some(27),
        HostKind::Area => None,
        HostKind::AnyObject => None,
    }
}

/// What is known of an assignment to the default member of an object of a type that breaks no rule.
fn type_written(of: DeclaredType) -> Known
    ensures { known_view result ≡ kind_known None (declared_view of) }
{
    if has_written_default(of) {
        Known::Type(DeclaredType::Plain(ElementType::Variant))
    } else {
        Known::NotSaid
    }
}

/// The same of an object of a kind, and of no class.
fn kind_written(kind: HostKind, of: DeclaredType) -> Known
    ensures { known_view result ≡ kind_known (targets.write_rule (Some (kind_view kind))) (declared_view of) }
{
    match write_rule(kind) {
        Some(rule) => Known::Breaks(rule),
        None => type_written(of),
    }
}

/// What is known of an assignment to the default member of what a value of no class gives whose last node isn't pushed yet;
/// none where it isn't known what it gives.
fn host_known(ending: Ending) -> Option<Known>
    requires { classes.class_in (declared_view ending.of) ≡ None }
    ensures { IfSome result (λ found. (all : project.Declarations) → WrittenIs all ending found) }
{
    let kind = kind_of_ending(ending)?;
    Some(kind_written(kind, ending.of))
}

/// The same of any value, in a project that declares this.
fn written_known(declared: &Declarations, ending: Ending) -> Option<Known>
    ensures { IfSome result (λ found. WrittenIs (declarations_view declared.now) ending found) }
{
    match class_in(ending.of) {
        Some(class) => Some(class_written(declared, class)),
        None => host_known(ending),
    }
}

/// A place of an object whose default member is written, behind the value that it is given.
fn assign_through(
    draft: &mut Draft,
    at: Ending,
    makes: bool,
    place: Place,
    has_class: bool,
) -> Result<ActionKind, OrMemory<NotYet>>
    requires named { NodeNamed (draft_view draft.old).tables at.kind }
    requires object { types.is_object (declared_view at.of) ≡ true }
    ensures { IfOk result (λ kind. (all : project.Declarations) (of : DeclaredType) (bounds : ℕ) (lends : Bool) (may : Option Bool) → WrittenIs all (record { kind = read_kind makes; of = at.of }) (Known.Type of)
        → AssignsIn all has_class may place (term.Place at.kind at.of bounds lends makes) (draft_view draft.old) (draft_view draft.new) kind false) }
{
    let read = Ending {
        kind: read_kind(makes),
        of: at.of,
    };
    let Some(through) = instance_of(has_class, draft, read) else {
        return Err(OrMemory::Fault(NotYet));
    };
    let done = assign_object(draft, at, makes, through, place)?;
    Ok(done)
}

/// A place of an object, behind the value that it is given.
fn assign_default(
    draft: &mut Draft,
    at: Ending,
    makes: bool,
    place: Place,
    has_class: bool,
    declared: &Declarations,
) -> Result<ActionKind, OrMemory<NotYet>>
    requires named { NodeNamed (draft_view draft.old).tables at.kind }
    requires object { types.is_object (declared_view at.of) ≡ true }
    ensures { IfOk result (λ kind. (bounds : ℕ) (lends : Bool) (may : Option Bool)
        → AssignsIn (declarations_view declared.now) has_class may place (term.Place at.kind at.of bounds lends makes) (draft_view draft.old) (draft_view draft.new) kind false) }
{
    let read = Ending {
        kind: read_kind(makes),
        of: at.of,
    };
    let Some(found) = written_known(declared, read) else {
        return Err(OrMemory::Fault(NotYet));
    };
    match found {
        Known::Type(_of) => assign_through(draft, at, makes, place, has_class),
        Known::Breaks(rule) => {
            let broken = assign_unwritten(draft, at, makes, rule, place)?;
            Ok(broken)
        }
        Known::NotSaid => Err(OrMemory::Fault(NotYet)),
    }
}

/// A place, behind the value that it is given.
pub fn assign_place(
    draft: &mut Draft,
    at: Ending,
    makes: bool,
    place: Place,
    has_class: bool,
    declared: &Declarations,
) -> Result<ActionKind, OrMemory<NotYet>>
    requires { NodeNamed (draft_view draft.old).tables at.kind }
    ensures { IfOk result (λ kind. (bounds : ℕ) (lends : Bool) (may : Option Bool)
        → AssignsIn (declarations_view declared.now) has_class may place (term.Place at.kind at.of bounds lends makes) (draft_view draft.old) (draft_view draft.new) kind false) }
{
    if !is_object(at.of) {
        let plain = assign_plain(draft, at, place)?;
        return Ok(plain);
    }
    assign_default(draft, at, makes, place, has_class, declared)
}

/// What a value gives, whose default member is written, behind the value that it is given.
fn assign_written(
    draft: &mut Draft,
    ending: Ending,
    place: Place,
    has_class: bool,
) -> Result<ActionKind, OrMemory<NotYet>>
    requires { NodeNamed (draft_view draft.old).tables ending.kind }
    ensures { IfOk result (λ kind. (all : project.Declarations) (of : DeclaredType) (may : Option Bool) → EndsObject ending → WrittenIs all ending (Known.Type of)
        → AssignsIn all has_class may place (term.Value ending) (draft_view draft.old) (draft_view draft.new) kind false) }
{
    let Some(through) = instance_of(has_class, draft, ending) else {
        return Err(OrMemory::Fault(NotYet));
    };
    push_node(draft, ending.kind, ending.of, place)?;
    Ok(default_kind(through))
}

/// A value that breaks a rule where it is assigned to, behind the value that it is given.
fn assign_wrong(
    draft: &mut Draft,
    ending: Ending,
    rule: u8,
    place: Place,
) -> Result<ActionKind, OrMemory<NotYet>>
    requires { NodeNamed (draft_view draft.old).tables ending.kind }
    ensures { IfOk result (λ kind. (all : project.Declarations) (has : Bool) (may : Option Bool) → EndsWrong all ending rule place
        → AssignsIn all has may place (term.Value ending) (draft_view draft.old) (draft_view draft.new) kind false) }
{
    push_node(draft, ending.kind, ending.of, place)?;
    push_broken(draft, rule, place, 2)?;
    Ok(ActionKind::Evaluate)
}

/// What a value gives of which this is known, behind the value that it is given.
fn assign_known(
    draft: &mut Draft,
    ending: Ending,
    found: Known,
    place: Place,
    has_class: bool,
) -> Result<ActionKind, OrMemory<NotYet>>
    requires named { NodeNamed (draft_view draft.old).tables ending.kind }
    requires gives { EndsObject ending }
    ensures { IfOk result (λ kind. (all : project.Declarations) (may : Option Bool) → WrittenIs all ending found
        → AssignsIn all has_class may place (term.Value ending) (draft_view draft.old) (draft_view draft.new) kind false) }
{
    match found {
        Known::Type(_of) => assign_written(draft, ending, place, has_class),
        Known::Breaks(rule) => assign_wrong(draft, ending, rule, place),
        Known::NotSaid => Err(OrMemory::Fault(NotYet)),
    }
}

/// Is a value no object, and can it be none?
fn is_value(ending: Ending) -> bool
    ensures { MatchBool result (EndsValue ending) (Unit {0}) }
{
    if is_object(ending.of) {
        return false;
    }
    match has_object(ending) {
        Some(gives) => !gives,
        None => false,
    }
}

/// Is a value, whatever it is given, one that can't be assigned to?
fn is_wrong(ending: Ending) -> bool
    ensures { MatchBool result ((all : project.Declarations) (place : told.Place) → EndsWrong all ending 27 place) (Unit {0}) }
{
    if is_kept(ending.kind) {
        return true;
    }
    if !is_unassignable(ending.kind) {
        return false;
    }
    is_value(ending)
}

/// A value that gives no object, behind the value that it is given.
fn assign_constant(
    draft: &mut Draft,
    ending: Ending,
    place: Place,
) -> Result<ActionKind, OrMemory<NotYet>>
    requires { NodeNamed (draft_view draft.old).tables ending.kind }
    ensures { IfOk result (λ kind. (all : project.Declarations) (has : Bool) (may : Option Bool) → AssignsIn all has may place (term.Value ending) (draft_view draft.old) (draft_view draft.new) kind false) }
{
    if !is_wrong(ending) {
        return Err(OrMemory::Fault(NotYet));
    }
    assign_wrong(draft, ending, 27, place)
}

/// A value, behind the value that it is given: the default member of what it gives is written.
pub fn assign_value(
    draft: &mut Draft,
    ending: Ending,
    place: Place,
    has_class: bool,
    declared: &Declarations,
) -> Result<ActionKind, OrMemory<NotYet>>
    requires { NodeNamed (draft_view draft.old).tables ending.kind }
    ensures { IfOk result (λ kind. (may : Option Bool) → AssignsIn (declarations_view declared.now) has_class may place (term.Value ending) (draft_view draft.old) (draft_view draft.new) kind false) }
{
    if !gives_object(ending) {
        return assign_constant(draft, ending, place);
    }
    let Some(found) = written_known(declared, ending) else {
        return Err(OrMemory::Fault(NotYet));
    };
    assign_known(draft, ending, found, place, has_class)
}

/// How many numbers of an item end a value, where it is an element that is no object.
fn item_numbers(ending: Ending) -> Option<u32>
    ensures { IfSome result (λ numbers. EndsItem ending numbers) }
{
    if is_object(ending.of) {
        return None;
    }
    match ending.kind {
        NodeKind::ElementValue { numbers } => Some(numbers),
        _ => None,
    }
}

/// A value that brackets made, behind the value that it is given. The run finds what an element is an item of, so that the
/// last node of one isn't pushed.
fn assign_indexed_value(
    draft: &mut Draft,
    ending: Ending,
    place: Place,
    has_class: bool,
    declared: &Declarations,
) -> Result<ActionKind, OrMemory<NotYet>>
    requires { NodeNamed (draft_view draft.old).tables ending.kind }
    ensures { IfOk result (λ kind. (may : Option Bool) → AssignsIndexed (declarations_view declared.now) has_class may place (term.Value ending) (draft_view draft.old) (draft_view draft.new) kind) }
{
    match item_numbers(ending) {
        Some(numbers) => Ok(ActionKind::AssignItem { numbers }),
        None => assign_value(draft, ending, place, has_class, declared),
    }
}

/// What brackets made of a term, behind the value that it is given.
pub fn assign_indexed<'a>(
    draft: &mut Draft,
    term: Term<'a>,
    place: Place,
    has_class: bool,
    declared: &Declarations,
) -> Result<ActionKind, OrMemory<NotYet>>
    requires { TermNamed (draft_view draft.old).tables term }
    ensures { IfOk result (λ kind. (may : Option Bool) → AssignsIndexed (declarations_view declared.now) has_class may place term.entry (draft_view draft.old) (draft_view draft.new) kind) }
{
    match term {
        Term::Place {
            kind,
            of,
            makes,
            ..
        } => assign_place(
            draft,
            Ending { kind, of },
            makes,
            place,
            has_class,
            declared,
        ),
        Term::Value(ending) => assign_indexed_value(draft, ending, place, has_class, declared),
        _ => Err(OrMemory::Fault(NotYet)),
    }
}
