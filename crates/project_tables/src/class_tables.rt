//! The table of a class: the procedures that begin and end its objects, its public members, its default member and its
//! enumerator, and its events.

ghost use Rattle.std.specs.Prelude.{◌≡◌, ◌++◌, ◌==◌, ◌&&◌, IfOk, OnOk, Some, bytes_eq, codes, length, map, option_map};
ghost use Rattle.bound_declarations.specs.constant_values.specs.declared_names.specs.binder.specs.ClassTables as plain;
ghost use Rattle.bound_declarations.specs.constant_values.specs.declared_names.specs.binder.specs.EventTables as event_tables;
ghost use Rattle.bound_declarations.specs.constant_values.specs.declared_names.specs.binder.specs.Classes as classes;
ghost use Rattle.bound_declarations.specs.constant_values.specs.declared_names.specs.binder.specs.Scopes.{first_at, is_named};
ghost use Rattle.bound_declarations.specs.constant_values.specs.declared_names.specs.binder.specs.Storage as storage;
ghost use Rattle.bound_declarations.specs.constant_values.specs.declared_names.specs.binder.specs.Storage.{procedure_number};
ghost use Rattle.bound_project.specs.Project as project;
ghost use Rattle.bound_project.specs.View.{class_member_view, class_view, declaration_view, named_view};
ghost use Rattle.bound_declarations.specs.constant_values.specs.Rounds.{IsPlaced};
ghost use Rattle.bound_declarations.specs.constant_values.specs.Tables.{AreConstants, AreProjectValues};
ghost use Rattle.bound_declarations.specs.constant_values.specs.declared_names.specs.Lookup.{found_view};
ghost use Rattle.bound_declarations.specs.constant_values.specs.declared_names.specs.View.{entry_view, scope_view, what_view, written_view};
ghost use Rattle.bound_declarations.specs.constant_values.specs.declared_names.specs.module_parts.specs.View.{part_view, parts_view};
ghost use Rattle.project_tables.specs.ClassParts.{counts, is_part, marks, member_marked};
ghost use Rattle.vba_module.specs.Headers.{parameters_of};
ghost use Rattle.vba_tree.specs.View.{listed_view, parameters_view, variable_view};

use crate::event_tables::{class_handlers, declared_events, sources};
use bound_declarations::constant_values::declared_names::module_parts::Part;
use bound_declarations::constant_values::declared_names::{
    Entry, Scope, What, Written, field_number, first_entries, is_of_object, is_word,
};
use bound_declarations::constant_values::{Constants, ProjectValues, constants_in, own_values};
use bound_declarations::{
    NotYet, copy_name, is_property, made_by, module_variables, procedure_number, variable_type,
};
use bound_project::{Class, Declaration, Member, NamedMember};
use std::alloc::Global;
use vba_base::{NoMemory, OrMemory};
use vba_expression::LiteralValue;
use vba_lexer::Token;
use vba_tree::{
    Access, AccessWord, AttributeLine, AttributeValue, LineTree, Parameters, ProcedureWords,
    Variable,
};
use vba_words::Identifier;

/// Which attribute a member has: that of a default member, or that of an enumerator.
#[derive(Clone, Copy)]
enum Mark {
    Default,
    Enumerator,
}

/// A procedure of a property: its Get, its Let or its Set.
#[derive(Clone, Copy)]
enum PropertyPart {
    Get,
    Let,
    Set,
}

/// Are there no parameters?
fn has_none(parameters: &Option<Parameters>) -> bool
    ensures { result ≡ (length (parameters_of (option_map parameters_view parameters.now)) == 0) }
{
    match parameters {
        None => true,
        Some(parameters) => parameters.parameters.is_none(),
    }
}

/// Is it a Sub?
pub(crate) fn is_sub(words: ProcedureWords) -> bool
    ensures { result ≡ plain.is_sub words }
{
    match words {
        ProcedureWords::Sub(_) => true,
        _ => false,
    }
}

/// Is it a Sub without parameters?
fn is_plain_sub(what: What) -> bool
    ensures { result ≡ plain.is_plain_sub (what_view what.entry) }
{
    match what {
        What::Procedure(written) => {
            is_sub(written.header.words) && has_none(&written.header.parameters)
        }
        _ => false,
    }
}

/// The Sub without parameters that has a name, with the number of its entry.
#[tactic(auto, using(std::proofs::lemmas::List::drop_more))]
fn sub_named<'a>(scope: Scope<'a>, word: &[u8]) -> Option<(usize, Entry<'a>)>
    ensures { option_map found_view result ≡ first_at (λ e. is_named word.now e.name && plain.is_plain_sub e.what) 0 (scope_view scope.entry).here.entries }
{
    for (number, entry) in scope.here.entries.iter().enumerate() {
        if is_word(entry.name.name.units(), word) && is_plain_sub(entry.what) {
            return Some((number, *entry));
        }
    }
    None
}

/// The number of a procedure of this module, where there is one.
fn numbered<'a>(
    scope: Scope<'a>,
    found: Option<(usize, Entry<'a>)>,
) -> Result<Option<u32>, NoMemory>
    ensures { IfOk result (λ number. number ≡ option_map (λ f. procedure_number (scope_view scope.entry) (scope_view scope.entry).here f.0) (option_map found_view found.entry)) }
{
    match found {
        None => Ok(None),
        Some((number, _)) => Ok(Some(procedure_number(scope, scope.here, number)?)),
    }
}

/// The Sub without parameters that has a name, by its number.
fn plain_sub(scope: Scope, word: &[u8]) -> Result<Option<u32>, NoMemory>
    ensures { IfOk result (λ number. number ≡ plain.plain_sub (scope_view scope.entry) word.now) }
{
    numbered(scope, sub_named(scope, word))
}

/// Is it Friend?
fn is_friend_access(access: Access) -> bool
    ensures { result ≡ plain.is_friend_access access }
{
    match access {
        Access::Friend => true,
        _ => false,
    }
}

/// Does a word say Friend?
fn is_friend_word(access: Option<AccessWord>) -> bool
    ensures { result ≡ plain.is_friend_word access }
{
    match access {
        None => false,
        Some(word) => is_friend_access(word.access),
    }
}

/// Is it a Friend procedure?
fn is_friend(what: What) -> bool
    ensures { result ≡ plain.is_friend (what_view what.entry) }
{
    match what {
        What::Procedure(written) => is_friend_word(written.header.access),
        _ => false,
    }
}

/// Is an entry found in the run?
fn is_public_member(entry: &Entry) -> bool
    ensures { result ≡ plain.is_public_member (entry_view entry.now) }
{
    is_of_object(entry.what) && (entry.is_public && !is_friend(entry.what))
}

/// Does an entry count for a member: all do, or what is found in the run?
fn counts(all: bool, entry: &Entry) -> bool
    ensures { result ≡ counts all (entry_view entry.now) }
{
    all || is_public_member(entry)
}

/// Is it such a procedure of a property?
fn is_part(part: PropertyPart, words: ProcedureWords) -> bool
    ensures { result ≡ is_part part words }
{
    match part {
        PropertyPart::Get => matches!(words, ProcedureWords::PropertyGet { .. }),
        PropertyPart::Let => matches!(words, ProcedureWords::PropertyLet { .. }),
        PropertyPart::Set => matches!(words, ProcedureWords::PropertySet { .. }),
    }
}

/// The same of what an entry is.
fn is_procedure_that(part: PropertyPart, what: What) -> bool
    ensures { result ≡ plain.is_procedure_that (is_part part) (what_view what.entry) }
{
    match what {
        What::Procedure(written) => is_part(part, written.header.words),
        _ => false,
    }
}

/// A procedure of a property, with the number of its entry.
#[tactic(auto, using(std::proofs::lemmas::List::drop_more))]
fn part_named<'a>(
    scope: Scope<'a>,
    all: bool,
    part: PropertyPart,
    name: &Identifier,
) -> Option<(usize, Entry<'a>)>
    ensures { option_map found_view result
        ≡ first_at (λ e. is_named name.now.name e.name && (counts all e && plain.is_procedure_that (is_part part) e.what)) 0 (scope_view scope.entry).here.entries }
{
    for (number, entry) in scope.here.entries.iter().enumerate() {
        if entry.name.name == name.name
            && (counts(all, entry) && is_procedure_that(part, entry.what))
        {
            return Some((number, *entry));
        }
    }
    None
}

/// A procedure of a property, by its number.
fn part_of_property(
    scope: Scope,
    all: bool,
    part: PropertyPart,
    name: &Identifier,
) -> Result<Option<u32>, NoMemory>
    ensures { IfOk result (λ number. number ≡ plain.part_of_property (scope_view scope.entry) (counts all) (is_part part) name.now) }
{
    numbered(scope, part_named(scope, all, part, name))
}

/// The member that a procedure is, or is part of.
fn procedure_member(
    scope: Scope,
    all: bool,
    number: usize,
    name: &Identifier,
    written: Written,
) -> Result<Member, NoMemory>
    ensures { IfOk result (λ member. class_member_view member ≡ plain.procedure_member (scope_view scope.entry) (counts all) number name.now (written_view written.entry).kind) }
{
    if !is_property(written.header.words) {
        return Ok(Member::Procedure(procedure_number(scope, scope.here, number)?));
    }
    Ok(Member::Property {
        reads: part_of_property(scope, all, PropertyPart::Get, name)?,
        lets: part_of_property(scope, all, PropertyPart::Let, name)?,
        sets: part_of_property(scope, all, PropertyPart::Set, name)?,
    })
}

/// The member that a variable is.
fn variable_member(
    alloc: Global,
    constants: Constants,
    number: usize,
    variable: &Variable,
) -> Result<Member, OrMemory<NotYet>>
    requires { AreConstants constants }
    ensures { IfOk result (λ member. class_member_view member
        ≡ project.is_variable (classes.field_number (scope_view constants.entry.scope).here number) (classes.made_class (scope_view constants.entry.scope) (variable_view variable.now))) }
{
    let of = variable_type(alloc, constants, variable)?;
    Ok(Member::Variable {
        field: field_number(constants.scope.here, number)?,
        makes: made_by(&variable.type_clause, of),
    })
}

/// The member that an entry is, or is part of.
fn member_of(
    alloc: Global,
    constants: Constants,
    all: bool,
    number: usize,
    entry: &Entry,
) -> Result<Option<Member>, OrMemory<NotYet>>
    requires { AreConstants constants }
    ensures { IfOk result (λ member. option_map class_member_view member ≡ plain.member_of (scope_view constants.entry.scope) (counts all) number (entry_view entry.now)) }
{
    match entry.what {
        What::Variable(variable) => {
            Ok(Some(variable_member(alloc, constants, number, variable)?))
        }
        What::Procedure(written) => {
            let member = procedure_member(constants.scope, all, number, entry.name, written)?;
            Ok(Some(member))
        }
        _ => Ok(None),
    }
}

/// Is there a public member with a name among entries?
#[tactic(auto, using(std::proofs::lemmas::List::drop_more))]
fn is_among(entries: &[Entry], name: &Identifier) -> bool
    ensures { result ≡ plain.is_among (map entry_view entries.now) name.now }
{
    for entry in entries {
        if entry.name.name == name.name && is_public_member(entry) {
            return true;
        }
    }
    false
}

/// Adds a member by its name.
#[tactic(auto, using(crate::proofs::Shared::named_push))]
fn push_named(
    alloc: Global,
    members: &mut Vec<NamedMember>,
    name: &Identifier,
    member: Member,
) -> Result<(), NoMemory>
    ensures { OnOk result (map named_view members.new.items ≡ map named_view members.old.items ++ plain.listed_member name.now.name (Some (class_member_view member))) }
{
    let fold = name.name.copy(alloc)?;
    Ok(members.push(NamedMember { fold, member })?)
}

/// Adds an entry where it is a public member, and the first of its name.
#[tactic(auto, using(crate::proofs::Shared::take_entries, crate::proofs::Shared::none_pushed))]
fn push_member(
    alloc: Global,
    constants: Constants,
    number: usize,
    entry: &Entry,
    members: &mut Vec<NamedMember>,
) -> Result<(), OrMemory<NotYet>>
    requires { AreConstants constants }
    ensures { OnOk result (map named_view members.new.items ≡ map named_view members.old.items ++ plain.public_member (scope_view constants.entry.scope) number (entry_view entry.now)) }
{
    let entries = constants.scope.here.entries.as_slice();
    if !is_public_member(entry) || is_among(first_entries(entries, number), entry.name) {
        return Ok(());
    }
    match member_of(alloc, constants, false, number, entry)? {
        Some(member) => Ok(push_named(alloc, members, entry.name, member)?),
        None => Ok(()),
    }
}

/// The public members of a class, each once: a property at the first of its procedures.
#[tactic(auto, using(std::proofs::lemmas::List::drop_more))]
fn public_members(alloc: Global, constants: Constants) -> Result<Vec<NamedMember>, OrMemory<NotYet>>
    requires { AreConstants constants }
    ensures { IfOk result (λ members. map named_view members.items ≡ plain.public_members (scope_view constants.entry.scope) 0 (scope_view constants.entry.scope).here.entries) }
{
    let mut members = Vec::new(alloc);
    for (number, entry) in constants.scope.here.entries.iter().enumerate() {
        push_member(alloc, constants, number, entry, &mut members)?;
    }
    Ok(members)
}

/// Is it the value of such an attribute?
fn is_marking(mark: Mark, minus: Option<Token>, value: &LiteralValue) -> bool
    ensures { result ≡ marks mark minus value.now }
{
    match value {
        LiteralValue::Number { number, .. } => match mark {
            Mark::Default => minus.is_none() && number.value == 0,
            Mark::Enumerator => minus.is_some() && number.value == 4,
        },
        _ => false,
    }
}

/// Is it the name of such an attribute?
fn is_of_member(name: &Identifier) -> bool
    ensures { result ≡ bytes_eq name.now.name (codes "vb_usermemid") }
{
    is_word(name.name.units(), b"vb_usermemid")
}

/// The name before such an attribute.
fn attribute_name(mark: Mark, line: &AttributeLine) -> Option<&Identifier>
    ensures { option_map (λ name. name.now) result ≡ plain.name_marked (marks mark) (listed_view (λ name. name) line.now.names) (listed_view (λ value. value) line.now.values) }
{
    match line.names.others.as_slice() {
        [next] => {
            let first: &AttributeValue = &line.values.first;
            if is_of_member(&next.item) && is_marking(mark, first.minus, &first.literal.value) {
                Some(&line.names.first)
            } else {
                None
            }
        }
        _ => None,
    }
}

/// The name before such an attribute, where a part is one.
fn marked_name(mark: Mark, part: &Part) -> Option<&Identifier>
    ensures { option_map (λ name. name.now) result ≡ plain.marked_name (marks mark) (part_view part.now) }
{
    match part {
        Part::WholeLine(LineTree::Attribute(line)) => attribute_name(mark, line),
        _ => None,
    }
}

/// The first of these in a module.
#[tactic(auto, using(std::proofs::lemmas::List::drop_more))]
fn first_marked(mark: Mark, parts: &[Part]) -> Option<&Identifier>
    ensures { option_map (λ name. name.now) result ≡ plain.first_marked (marks mark) (parts_view parts.now) }
{
    for part in parts {
        if let Some(name) = marked_name(mark, part) {
            return Some(name);
        }
    }
    None
}

/// The first variable or procedure of a module that has a name, with the number of its entry.
#[tactic(auto, using(std::proofs::lemmas::List::drop_more))]
fn object_named<'a>(scope: Scope<'a>, name: &Identifier) -> Option<(usize, Entry<'a>)>
    ensures { option_map found_view result ≡ first_at (λ e. is_named name.now.name e.name && classes.is_of_object e.what) 0 (scope_view scope.entry).here.entries }
{
    for (number, entry) in scope.here.entries.iter().enumerate() {
        if entry.name.name == name.name && is_of_object(entry.what) {
            return Some((number, *entry));
        }
    }
    None
}

/// The member with a name, which may be Private.
fn member_named(
    alloc: Global,
    constants: Constants,
    name: &Identifier,
) -> Result<Option<Member>, OrMemory<NotYet>>
    requires { AreConstants constants }
    ensures { IfOk result (λ member. option_map class_member_view member ≡ plain.member_named (scope_view constants.entry.scope) name.now) }
{
    match object_named(constants.scope, name) {
        None => Ok(None),
        Some((number, entry)) => member_of(alloc, constants, true, number, &entry),
    }
}

/// The member that such an attribute marks, which may be Private.
fn member_marked(
    alloc: Global,
    constants: Constants,
    mark: Mark,
) -> Result<Option<Member>, OrMemory<NotYet>>
    requires { AreConstants constants }
    ensures { IfOk result (λ member. option_map class_member_view member ≡ member_marked mark (scope_view constants.entry.scope)) }
{
    let here = constants.scope.here;
    let source = here.source;
    match first_marked(mark, source.parts.as_slice()) {
        None => Ok(None),
        Some(name) => member_named(alloc, constants, name),
    }
}

/// The variables of a class.
fn class_fields(alloc: Global, constants: Constants) -> Result<Vec<Declaration>, OrMemory<NotYet>>
    requires { AreConstants constants }
    ensures { IfOk result (λ fields. map declaration_view fields.items ≡ storage.module_declarations (scope_view constants.entry.scope) (scope_view constants.entry.scope).here.entries) }
{
    let mut fields = Vec::new(alloc);
    module_variables(
        alloc,
        constants,
        constants.scope.here.entries.as_slice(),
        &mut fields,
    )?;
    Ok(fields)
}

/// The table of the class whose module this is.
pub(crate) fn class_table<'a>(
    alloc: Global,
    scope: Scope<'a>,
    project: &ProjectValues,
) -> Result<Class, OrMemory<NotYet>>
    requires placed { IsPlaced (scope_view scope) }
    requires values { AreProjectValues project.now (scope_view scope).spaces }
    ensures { IfOk result (λ class. class_view class ≡ event_tables.class_table (scope_view scope.entry)) }
{
    let own = own_values(alloc, project, scope)?;
    let constants = constants_in(scope, project, &own);
    let fields = class_fields(alloc, constants)?;
    let members = public_members(alloc, constants)?;
    let default = member_marked(alloc, constants, Mark::Default)?;
    let enumerator = member_marked(alloc, constants, Mark::Enumerator)?;
    let events = declared_events(alloc, constants)?;
    let with_events = sources(alloc, scope)?;
    let handlers = class_handlers(alloc, constants)?;
    Ok(Class {
        name: copy_name(alloc, &scope.here.name)?,
        fields,
        initialize: plain_sub(scope, b"class_initialize")?,
        terminate: plain_sub(scope, b"class_terminate")?,
        members,
        default,
        enumerator,
        events,
        with_events,
        handlers,
    })
}
