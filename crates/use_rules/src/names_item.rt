//! What is kept of an item of an expression, where something is asked of its names.

ghost use Rattle.std.specs.Prelude.{◌≡◌, ◌∷◌, OnOk, Some, None, option_map};
ghost use Rattle.declared_names.specs.binder.specs.Scopes as scopes;
ghost use Rattle.declared_names.specs.binder.specs.Violations as violations;
ghost use Rattle.declared_names.specs.View.{local_view, meant_view, qualifier_view, scope_view, use_view};
ghost use Rattle.use_rules.specs.Asked.{at_me, at_member, at_name, at_with_member, rule_of};
ghost use Rattle.use_rules.specs.Found.{noted};
ghost use Rattle.use_rules.specs.NamesFound as found;
ghost use Rattle.use_rules.specs.Stacks.{top, below};
ghost use Rattle.use_rules.specs.View.{names_item_view, names_stack};

use crate::explicit::is_explicit;
use crate::left_out::{note_left_out, note_suffix, note_suffix_asked};
use crate::noting::note_place;
use crate::question::Question;
use declared_names::{
    Local, Meant, Own, Qualifier, Scope, Use, as_qualifier, behind, declares, enum_behind,
};
use vba_base::{NoMemory, Place, Refusal};
use vba_words::Identifier;

/// The place of what isn't there.
const NOWHERE: Place = Place {
    module: 0,
    line: 0,
    column: 0,
};

/// What is kept of an item. How a name is used is told by what takes it.
#[derive(Clone, Copy)]
pub enum NamesItem<'a> {
    Name(&'a Identifier),
    /// A name behind what says where it is looked for.
    Member {
        qualifier: Qualifier<'a>,
        name: &'a Identifier,
    },
    Ended(Option<Refusal>),
    Arguments(Option<Refusal>),
}

/// Takes the last item.
pub fn pop_names<'a>(stack: &mut Vec<NamesItem<'a>>) -> NamesItem<'a>
    ensures top { names_item_view result ≡ top found.no_item (names_stack stack.old.items) }
    ensures below { names_stack stack.new.items ≡ below (names_stack stack.old.items) }
{
    match stack.pop() {
        Some(item) => item,
        None => NamesItem::Arguments(None),
    }
}

/// Adds an item.
pub fn push_names<'a>(stack: &mut Vec<NamesItem<'a>>, item: NamesItem<'a>) -> Result<(), NoMemory>
    ensures { OnOk result (names_stack stack.new.items ≡ names_item_view item.entry ∷ names_stack stack.old.items) }
{
    Ok(stack.push(item)?)
}

/// May a name be used that is declared nowhere? Without Option Explicit it is a variable, unless it is called or
/// indexed.
fn may_be_undeclared(scope: Scope, how: Use) -> bool
    ensures { result ≡ violations.may_be_undeclared (scope_view scope.entry) (use_view how) }
{
    match how {
        Use::Called => false,
        Use::Plainly | Use::BeforeDot => !is_explicit(scope),
    }
}

/// Is it declared?
fn is_local_declared(scope: Scope, how: Use, _number: usize, local: Local) -> bool
    ensures { result ≡ violations.is_declared (scope_view scope.entry) (use_view how) (Some (scopes.of_procedure _number (local_view local.entry))) }
{
    match local.own {
        Own::Undeclared { .. } => may_be_undeclared(scope, how),
        Own::Result(_)
        | Own::Parameter(_)
        | Own::Variable { .. }
        | Own::Constant(_)
        | Own::Array { .. } => true,
    }
}

/// Is what a name means declared?
fn is_meant_declared(scope: Scope, how: Use, meant: Meant) -> bool
    ensures { result ≡ violations.is_declared (scope_view scope.entry) (use_view how) (Some (meant_view meant.entry)) }
{
    match meant {
        Meant::OfProcedure { number, local } => is_local_declared(scope, how, number, local),
        Meant::OfModule { .. }
        | Meant::Module(_)
        | Meant::Library
        | Meant::OfHost
        | Meant::OfLibrary => true,
    }
}

/// Is a name that means this, or nothing, declared?
fn is_declared(scope: Scope, how: Use, meant: Option<Meant>) -> bool
    ensures { result ≡ violations.is_declared (scope_view scope.entry) (use_view how) (option_map meant_view meant.entry) }
{
    match meant {
        None => may_be_undeclared(scope, how),
        Some(meant) => is_meant_declared(scope, how, meant),
    }
}

/// The least refusal of a name that is used like this.
#[tactic(auto, using(crate::proofs::Noted::unless_if))]
pub fn name_refusal(
    scope: Scope,
    question: Question,
    how: Use,
    name: &Identifier,
) -> Option<Refusal>
    ensures { result ≡ noted (rule_of question) None (at_name (scope_view scope.entry) question (use_view how) name.now) }
{
    let mut least = None;
    let meant = declares(how, scope, name);
    match question {
        Question::IsUnknown { .. } => {
            let broken = !is_declared(scope, how, meant);
            note_place(&mut least, broken, 17, name.token.place);
        }
        Question::IsLeftOut => note_left_out(meant, name, &mut least),
    }
    least
}

/// The least refusal of a name behind what says where it is looked for.
fn member_refusal<'a>(
    scope: Scope<'a>,
    question: Question,
    how: Use,
    qualifier: Qualifier<'a>,
    name: &Identifier,
) -> Option<Refusal>
    ensures { result ≡ noted (rule_of question) None
        (at_member (scope_view scope.entry) question (use_view how) (qualifier_view qualifier.entry) name.now) }
{
    let mut least = None;
    let meant = behind(how, scope, qualifier, name);
    match question {
        Question::IsUnknown { .. } => {
            if meant.is_none() {
                note_place(&mut least, true, 17, name.token.place);
            }
        }
        Question::IsLeftOut => note_left_out(meant, name, &mut least),
    }
    least
}

/// The least refusal of `Me`, which a class alone has.
#[tactic(auto, using(crate::proofs::Noted::unless_if))]
pub fn me_refusal(scope: Scope, question: Question, place: Place) -> Option<Refusal>
    ensures { result ≡ noted (rule_of question) None (at_me (scope_view scope.entry) question place) }
{
    let mut least = None;
    let here = scope.here;
    match question {
        Question::IsUnknown { .. } => note_place(&mut least, !here.source.is_class, 17, place),
        Question::IsLeftOut => {}
    }
    least
}

/// The least refusal of a member of a With block, by the place of its dot.
#[tactic(auto, using(crate::proofs::Noted::unless_if))]
pub fn with_refusal(question: Question, dot: Place, name: &Identifier) -> Option<Refusal>
    ensures { result ≡ noted (rule_of question) None (at_with_member question dot name.now) }
{
    let mut least = None;
    match question {
        Question::IsUnknown { in_with } => note_place(&mut least, !in_with, 17, dot),
        Question::IsLeftOut => note_suffix(name, &mut least),
    }
    least
}

/// The least refusal of an item as an expression that is used like this.
pub fn taken<'a>(
    scope: Scope<'a>,
    question: Question,
    how: Use,
    item: NamesItem<'a>,
) -> Option<Refusal>
    ensures { result ≡ found.taken (scope_view scope.entry) question (use_view how) (names_item_view item.entry) }
{
    match item {
        NamesItem::Name(name) => name_refusal(scope, question, how, name),
        NamesItem::Member { qualifier, name } => {
            member_refusal(scope, question, how, qualifier, name)
        }
        NamesItem::Ended(least) => least,
        NamesItem::Arguments(_) => me_refusal(scope, question, NOWHERE),
    }
}

/// The least refusal of an item as arguments.
pub fn given(item: NamesItem) -> Option<Refusal>
    ensures { result ≡ found.given (names_item_view item.entry) }
{
    match item {
        NamesItem::Arguments(least) => least,
        NamesItem::Name(_) | NamesItem::Member { .. } | NamesItem::Ended(_) => None,
    }
}

/// Where an item says that a name behind it is looked for.
fn qualifier_in<'a>(scope: Scope<'a>, item: NamesItem<'a>) -> Option<Qualifier<'a>>
    ensures { option_map qualifier_view result ≡ found.qualifier_in (scope_view scope.entry) (names_item_view item.entry) }
{
    match item {
        NamesItem::Name(name) => as_qualifier(declares(Use::BeforeDot, scope, name)),
        NamesItem::Member { qualifier, name } => enum_behind(scope, Some(qualifier), name),
        NamesItem::Ended(_) | NamesItem::Arguments(_) => None,
    }
}

/// An item with a dot and a name behind it.
pub fn with_member<'a>(
    scope: Scope<'a>,
    question: Question,
    base: NamesItem<'a>,
    name: &'a Identifier,
) -> NamesItem<'a>
    ensures { names_item_view result ≡ found.of_member question (found.qualifier_in (scope_view scope.entry) (names_item_view base.entry)) name.now
        (found.taken (scope_view scope.entry) question scopes.before_dot (names_item_view base.entry)) }
{
    match qualifier_in(scope, base) {
        Some(qualifier) => NamesItem::Member { qualifier, name },
        None => {
            let mut least = taken(scope, question, Use::BeforeDot, base);
            note_suffix_asked(question, name, &mut least);
            NamesItem::Ended(least)
        }
    }
}
