//! Where lines begin.

ghost use Rattle.std.specs.Prelude.{◌≡◌, List, ◌++◌, map, option_map};
ghost use Rattle.vba_module.specs.Parts.{nowhere, first_place};
ghost use Rattle.vba_tree.specs.Spelling.{spell, spell_line_label, spell_statements, spell_words};
ghost use Rattle.vba_tree.specs.Tree as tree;
ghost use Rattle.vba_tree.specs.View as views;
ghost use Rattle.vba_tree.specs.View.{Next};
ghost use Rattle.vba_words.specs.declared.reading.ReadToken.{ReadToken};

use crate::declarations::place_behind_access;
use crate::statements::statement_place;
use vba_base::Place;
use vba_tree::{
    LineLabel, LineTree, NextStatement, ProcedureHeader, ProcedureWords, StatementLine,
};

/// The place of a line without tokens.
const NOWHERE: Place = Place {
    module: 0,
    line: 0,
    column: 0,
};

/// The place of a label.
pub(crate) fn label_place(label: &LineLabel) -> Place
    ensures { result ≡ first_place nowhere (spell_line_label label.now) }
{
    match label {
        LineLabel::Name { name, .. } => name.token.place,
        LineLabel::Number { token, .. } => token.place,
    }
}

/// The place of the first of the words for the kind of a procedure.
fn words_place(words: ProcedureWords) -> Place
    ensures { (rest : List ReadToken) → result ≡ first_place nowhere (spell_words words ++ rest) }
{
    match words {
        ProcedureWords::Sub(word) | ProcedureWords::Function(word) => word.place,
        ProcedureWords::PropertyGet { property_word, .. }
        | ProcedureWords::PropertyLet { property_word, .. }
        | ProcedureWords::PropertySet { property_word, .. } => property_word.place,
    }
}

/// The place of the first token of a header.
fn header_place(header: &ProcedureHeader) -> Place
    ensures { result ≡ first_place nowhere (spell (tree.procedure_header header.now.access header.now.static_word header.now.words header.now.name
        (option_map views.parameters_view header.now.parameters) (option_map views.result_type_view header.now.result_type))) }
{
    if let Some(word) = header.access {
        return word.token.place;
    }
    match header.static_word {
        Some(word) => word.place,
        None => words_place(header.words),
    }
}

/// The place of the colon with which a line begins.
fn colon_place(next: &NextStatement) -> Place
    ensures { (others : List Next) → result
        ≡ first_place nowhere (spell_statements (views.put_all (views.put tree.nothing (views.next_view next.now)) others)) }
{
    match next {
        NextStatement::Written { colon, .. } => colon.place,
        NextStatement::Missing { colon } => colon.place,
    }
}

/// The place of the first token of statements behind colons.
fn others_place(others: &[NextStatement]) -> Place
    ensures { result ≡ first_place nowhere (spell_statements (views.put_all tree.nothing (map views.next_view others.now))) }
{
    match others {
        [] => NOWHERE,
        [next, ..] => colon_place(next),
    }
}

/// The place of the first token of a line of statements.
#[tactic(auto, using(crate::proofs::Firsts::first_front, crate::proofs::Firsts::label_front))]
fn statements_place(line: &StatementLine) -> Place
    ensures { result ≡ first_place nowhere
        (spell (tree.statement_line line.now.label (views.put_all (views.front line.now.first) (map views.next_view line.now.others.items)))) }
{
    if let Some(label) = &line.label {
        return label_place(label);
    }
    match &line.first {
        Some(statement) => statement_place(statement),
        None => others_place(&line.others),
    }
}

/// The place of the first token of a line, or where it has none the place of no line at all.
pub(crate) fn line_place(line: &LineTree) -> Place
    ensures { result ≡ first_place nowhere (spell (views.view line.now)) }
{
    match line {
        LineTree::Option(option) => option.option_word.place,
        LineTree::Attribute(attribute) => attribute.attribute_word.place,
        LineTree::EnumHeader(header) => place_behind_access(header.access, header.enum_word),
        LineTree::EnumEnd { end_word, .. } => end_word.place,
        LineTree::TypeHeader(header) => place_behind_access(header.access, header.type_word),
        LineTree::TypeMember(member) => member.name.token.place,
        LineTree::TypeEnd { end_word, .. } => end_word.place,
        LineTree::Event(event) => place_behind_access(event.access, event.event_word),
        LineTree::ProcedureHeader(header) => header_place(header),
        LineTree::ProcedureEnd(ending) => ending.end_word.place,
        LineTree::Statements(statements) => statements_place(statements),
    }
}
