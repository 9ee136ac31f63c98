//! The members of Enums.

ghost use Rattle.std.specs.Prelude.{◌≡◌, ◌++◌, map, None, option_map, IfOk, OnOk};
ghost use Rattle.module_parts.specs.View.{part_view};
ghost use Rattle.vba_lexer.specs.declared.token.Token.{Token};
ghost use Rattle.vba_expression.specs.View.{view as expression_view, arguments_view};
ghost use Rattle.vba_module.specs.Parts as parts;
ghost use Rattle.vba_tree.specs.Tree.{assignment, call, simple};
ghost use Rattle.vba_tree.specs.View.{simple_view, statement_view};
ghost use Rattle.binder.specs.Declarations.{in_enum};
ghost use Rattle.declared_names.specs.View.{entry_view};
ghost use Rattle.declared_names.specs.Entries.{after, inside_view, is_enum_end, member_entries, member_in, member_view};

use crate::entry::{Entry, What};
use crate::inside::Inside;
use crate::pushing::push_entry;
use module_parts::Part;
use vba_base::NoMemory;
use vba_expression::{Arguments, Expression};
use vba_tree::{LineTree, SimpleStatement, Statement};
use vba_words::Identifier;

/// A member of an Enum, and its value, where one is written.
#[derive(Clone, Copy)]
pub(crate) struct Member<'a> {
    pub name: &'a Identifier,
    pub value: Option<&'a Expression>,
}

/// The member of an Enum that a name alone is.
#[tactic(auto, using(crate::proofs::Members::called, crate::proofs::Members::called_with, crate::proofs::Members::nothing_called))]
fn called_member<'a>(target: &'a Expression, arguments: &Arguments) -> Option<Member<'a>>
    ensures { option_map member_view result ≡ member_in (parts.statement (simple (call (expression_view target.now) (arguments_view arguments.now)))) }
{
    let Some(name) = target.name() else {
        return None;
    };
    if arguments.is_empty() {
        Some(Member { name, value: None })
    } else {
        None
    }
}

/// The member of an Enum that a name with its value is.
#[tactic(auto, using(crate::proofs::Members::assigned, crate::proofs::Members::nothing_assigned))]
fn assigned_member<'a>(place: &'a Expression, value: &'a Expression) -> Option<Member<'a>>
    ensures { (equal : Token) → option_map member_view result ≡ member_in (parts.statement (simple (assignment None (expression_view place.now) equal (expression_view value.now)))) }
{
    match place.name() {
        Some(name) => Some(Member {
            name,
            value: Some(value),
        }),
        None => None,
    }
}

/// The member of an Enum that a statement other than a single-line If is.
fn member_of_simple(statement: &SimpleStatement) -> Option<Member<'_>>
    ensures { option_map member_view result ≡ member_in (parts.statement (simple (simple_view statement.now))) }
{
    match statement {
        SimpleStatement::Call { target, arguments } => called_member(target, arguments),
        SimpleStatement::Assignment {
            let_word: None,
            place,
            value,
            ..
        } => assigned_member(place, value),
        _ => None,
    }
}

/// The member of an Enum that a statement is.
fn member_of_statement(statement: &Statement) -> Option<Member<'_>>
    ensures { option_map member_view result ≡ member_in (parts.statement (statement_view statement.now)) }
{
    match statement {
        Statement::Simple(simple) => member_of_simple(simple),
        Statement::SingleLineIf { .. } | Statement::SingleLineIfElse { .. } => None,
    }
}

/// The member of an Enum that a part is.
fn member_in(part: &Part) -> Option<Member<'_>>
    ensures { option_map member_view result ≡ member_in (part_view part.now) }
{
    match part {
        Part::Statement(statement) => member_of_statement(statement),
        Part::Label(_) | Part::WholeLine(_) => None,
    }
}

/// Adds the member of an Enum that a part is. Without a value it is so many more than one.
pub(crate) fn push_member<'a>(
    entries: &mut Vec<Entry<'a>>,
    is_public: bool,
    value: Option<&'a Expression>,
    steps: usize,
    part: &'a Part,
) -> Result<(), NoMemory>
    ensures { OnOk result (map entry_view entries.new.items
        ≡ map entry_view entries.old.items ++ member_entries is_public (option_map (λ e. expression_view e.now) value.entry) steps (member_in (part_view part.now))) }
{
    let Some(member) = member_in(part) else {
        return Ok(());
    };
    let what = match member.value {
        Some(own) => What::Member {
            value: Some(own),
            steps: 0,
        },
        None => What::Member { value, steps },
    };
    let entry = Entry {
        name: member.name,
        is_public,
        what,
    };
    push_entry(entries, entry)
}

/// Is it the end of an Enum?
pub(crate) fn is_enum_end(part: &Part) -> bool
    ensures { result ≡ is_enum_end (part_view part.now) }
{
    match part {
        Part::WholeLine(LineTree::EnumEnd { .. }) => true,
        _ => false,
    }
}

/// Where the part behind one in an Enum stands.
pub(crate) fn after_in_enum<'a>(
    is_public: bool,
    value: Option<&'a Expression>,
    steps: usize,
    part: &'a Part,
) -> Result<Inside<'a>, NoMemory>
    ensures { IfOk result (λ inside. inside_view inside ≡ after (in_enum is_public (option_map (λ e. expression_view e.now) value.entry) steps) (part_view part.now)) }
{
    if is_enum_end(part) {
        return Ok(Inside::Module);
    }
    let (value, steps) = match member_in(part) {
        Some(
            Member {
                value: Some(own),
                ..
            },
        ) => (Some(own), 1),
        Some(_) => (value, steps.checked_add(1).ok_or(NoMemory)?),
        None => (value, steps),
    };
    Ok(Inside::Enum {
        is_public,
        value,
        steps,
    })
}
