//! What is done with the value of an assignment.

ghost use Rattle.std.specs.Prelude.{◌≡◌, Option, Bool, true, false, IfOk};
ghost use Rattle.bound_project.specs.DraftView.{draft_view};
ghost use Rattle.bound_project.specs.View.{declarations_view};
ghost use Rattle.statement_terms.specs.Called.{is_method, ordered_kind, property_kind};
ghost use Rattle.statement_terms.specs.Members.{AssignsIn, AssignsTree, is_err_term};
ghost use Rattle.bound_members.specs.bound_calls.specs.Standing.{TermNamed};

use crate::member_targets::{assign_member, assign_sheet};
use crate::targets::{assign_place, assign_value};
use bound_members::bound_calls::bound_declarations::NotYet;
use bound_members::bound_calls::{
    Ending, Function, Ordered, Receiver, Term, Tree, alone, push_broken,
};
use bound_project::{ActionKind, DeclaredType, Draft};
use std::alloc::Global;
use vba_base::{NoMemory, OrMemory};

/// What is done with a value that was pushed, where it is assigned, and whether it comes as it is: where its target takes
/// it with arguments, or is what arguments lead to in the run.
#[derive(Clone, Copy)]
pub struct Assignment {
    pub kind: ActionKind,
    pub is_given: bool,
}

/// An assignment of a value as it is.
pub fn as_given(kind: ActionKind) -> Assignment
    ensures kind { result.kind ≡ kind }
    ensures given { result.is_given ≡ true }
{
    Assignment {
        kind,
        is_given: true,
    }
}

/// An assignment of an operand.
pub fn as_operand(kind: ActionKind) -> Assignment
    ensures kind { result.kind ≡ kind }
    ensures given { result.is_given ≡ false }
{
    Assignment {
        kind,
        is_given: false,
    }
}

/// A procedure that writes a property, what it is called of, the type of its last parameter, and whether that is given the
/// object itself.
#[derive(Clone, Copy)]
pub struct PropertyLet {
    pub receiver: Receiver,
    pub procedure: u32,
    pub of: DeclaredType,
    pub is_itself: bool,
}

/// Is it a property of an object?
fn is_method(receiver: Receiver) -> bool
    ensures { result ≡ is_method receiver }
{
    match receiver {
        Receiver::Module => false,
        Receiver::Own(_) | Receiver::Pushed(_) => true,
    }
}

/// An assignment to a property behind so many arguments.
pub fn property_kind(property: PropertyLet, arguments: u32) -> ActionKind
    ensures { result ≡ property_kind (is_method property.receiver) property.is_itself property.procedure arguments property.of }
{
    let PropertyLet {
        receiver,
        procedure,
        of,
        is_itself,
    } = property;
    match (is_method(receiver), is_itself) {
        (false, false) => ActionKind::LetProperty {
            procedure,
            arguments,
            of,
        },
        (false, true) => ActionKind::SetProperty {
            procedure,
            arguments,
            of,
        },
        (true, false) => ActionKind::LetMethod {
            procedure,
            arguments,
            of,
        },
        (true, true) => ActionKind::SetMethod {
            procedure,
            arguments,
            of,
        },
    }
}

/// The same of arguments of which the last ones have names.
pub fn ordered_kind(property: PropertyLet, ordered: Ordered) -> ActionKind
    ensures { result ≡ ordered_kind (is_method property.receiver) property.is_itself property.procedure ordered property.of }
{
    let PropertyLet {
        receiver,
        procedure,
        of,
        is_itself,
    } = property;
    let Ordered { arguments, order } = ordered;
    match (is_method(receiver), is_itself) {
        (false, false) => ActionKind::LetPropertyInOrder {
            procedure,
            arguments,
            order,
            of,
        },
        (false, true) => ActionKind::SetPropertyInOrder {
            procedure,
            arguments,
            order,
            of,
        },
        (true, false) => ActionKind::LetMethodInOrder {
            procedure,
            arguments,
            order,
            of,
        },
        (true, true) => ActionKind::SetMethodInOrder {
            procedure,
            arguments,
            order,
            of,
        },
    }
}

/// What nothing is assigned to, Err and what it does, behind the value that it is given.
fn refuse_err<'a>(draft: &mut Draft, tree: Tree<'a>) -> Result<ActionKind, NoMemory>
    requires { is_err_term tree.term ≡ true }
    ensures { IfOk result (λ kind. (has : Bool) (may : Option Bool) → AssignsIn (declarations_view tree.entry.declared.now) has may tree.entry.place tree.entry.term (draft_view draft.old) (draft_view draft.new) kind false) }
{
    push_broken(draft, 27, tree.place, 1)?;
    Ok(ActionKind::Evaluate)
}

/// A function of the library by its name alone, behind the value that it is given.
fn assign_function<'a>(
    alloc: Global,
    draft: &mut Draft,
    tree: Tree<'a>,
    function: Function,
    has_class: bool,
) -> Result<ActionKind, OrMemory<NotYet>>
    requires { tree.term ≡ Term.Function function }
    ensures { IfOk result (λ kind. (may : Option Bool) → AssignsIn (declarations_view tree.entry.declared.now) has_class may tree.entry.place tree.entry.term (draft_view draft.old) (draft_view draft.new) kind false) }
{
    match alone(alloc, draft, Term::Function(function), tree.place)? {
        Term::Value(ending) => assign_value(draft, ending, tree.place, has_class, tree.declared),
        _ => Err(OrMemory::Fault(NotYet)),
    }
}

/// An expression that doesn't end with arguments in brackets, behind the value that it is given, which may be an object of a
/// class or not.
pub fn assign_tree<'a>(
    alloc: Global,
    draft: &mut Draft,
    tree: Tree<'a>,
    has_class: bool,
    may_be: Option<bool>,
) -> Result<Assignment, OrMemory<NotYet>>
    requires { TermNamed (draft_view draft.old).tables tree.term }
    ensures { IfOk result (λ done. AssignsTree has_class may_be tree.entry (draft_view draft.old) (draft_view draft.new) done.kind done.is_given) }
{
    let place = tree.place;
    match tree.term {
        Term::Place {
            kind,
            of,
            makes,
            ..
        } => {
            let kind = assign_place(
                draft,
                Ending { kind, of },
                makes,
                place,
                has_class,
                tree.declared,
            )?;
            Ok(as_operand(kind))
        }
        Term::Value(ending) => {
            let kind = assign_value(draft, ending, place, has_class, tree.declared)?;
            Ok(as_operand(kind))
        }
        Term::HostMember(member) => {
            let kind = assign_member(alloc, draft, member, place, may_be)?;
            Ok(as_given(kind))
        }
        Term::SheetMember(member) => {
            let kind = assign_sheet(alloc, draft, member, place, may_be)?;
            Ok(as_given(kind))
        }
        Term::Function(function) => {
            let kind = assign_function(alloc, draft, tree, function, has_class)?;
            Ok(as_operand(kind))
        }
        Term::Err => {
            let kind = refuse_err(draft, tree)?;
            Ok(as_operand(kind))
        }
        Term::ErrRaise => {
            let kind = refuse_err(draft, tree)?;
            Ok(as_operand(kind))
        }
        Term::ErrClear => {
            let kind = refuse_err(draft, tree)?;
            Ok(as_operand(kind))
        }
        _ => Err(OrMemory::Fault(NotYet)),
    }
}
