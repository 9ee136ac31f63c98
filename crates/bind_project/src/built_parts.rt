//! Parts that declare nothing of a type that doesn't run yet.

ghost use Rattle.std.specs.Prelude.{◌≡◌, ◌&&◌, IfOk, option_map};
ghost use Rattle.std.specs.List.{list_all};
ghost use Rattle.bound_names.specs.bound_members.specs.bound_calls.specs.bound_forms.specs.Bind as plain;
ghost use Rattle.bound_names.specs.bound_members.specs.bound_calls.specs.bound_declarations.specs.constant_values.specs.declared_names.specs.View.{scope_view};
ghost use Rattle.module_parts.specs.View.{part_view};
ghost use Rattle.vba_module.specs.Headers.{parameters_of};
ghost use Rattle.vba_module.specs.Parts as parts;
ghost use Rattle.vba_tree.specs.View.{parameters_view, result_type_view, statement_view, view};

use crate::built_declarations::{
    are_built_parameters, are_built_variables, is_built_result, is_built_suffix, is_built_written,
};
use bound_names::bound_members::bound_calls::bound_declarations::constant_values::declared_names::{
    Scope, is_public_word,
};
use module_parts::Part;
use vba_base::NoMemory;
use vba_tree::{LineTree, ProcedureHeader, SimpleStatement, Statement};

fn is_built_header(scope: Scope, header: &ProcedureHeader) -> Result<bool, NoMemory>
    ensures { IfOk result (λ built. built ≡ (plain.is_built_suffix header.now.name.suffix
        && (plain.is_built_result (scope_view scope.entry) (option_map result_type_view header.now.result_type)
        && list_all (plain.is_built_parameter (scope_view scope.entry)) (parameters_of (option_map parameters_view header.now.parameters))))) }
{
    if !is_built_suffix(header.name.suffix) {
        return Ok(false);
    }
    if !is_built_result(scope, &header.result_type)? {
        return Ok(false);
    }
    are_built_parameters(scope, &header.parameters)
}

fn is_built_line(scope: Scope, line: &LineTree) -> Result<bool, NoMemory>
    ensures { IfOk result (λ built. built ≡ plain.is_built_part (scope_view scope.entry) (parts.whole_line (view line.now))) }
{
    match line {
        LineTree::TypeMember(member) => {
            is_built_written(scope, &member.type_clause.declared_type)
        }
        LineTree::ProcedureHeader(header) => is_built_header(scope, header),
        LineTree::Option(_) => Ok(true),
        LineTree::EnumHeader(_) => Ok(true),
        LineTree::EnumEnd { .. } => Ok(true),
        LineTree::TypeHeader(_) => Ok(true),
        LineTree::TypeEnd { .. } => Ok(true),
        LineTree::Event(event) => are_built_parameters(scope, &event.parameters),
        LineTree::Attribute(_) => Ok(true),
        LineTree::ProcedureEnd(_) => Ok(true),
        LineTree::Statements(_) => Ok(true),
    }
}

fn is_built_statement(scope: Scope, statement: &Statement) -> Result<bool, NoMemory>
    ensures { IfOk result (λ built. built ≡ plain.is_built_part (scope_view scope.entry) (parts.statement (statement_view statement.now))) }
{
    match statement {
        Statement::Simple(SimpleStatement::Variables(variables)) => {
            let is_open = scope.here.source.is_class && is_public_word(variables.word);
            are_built_variables(scope, is_open, &variables.variables)
        }
        _ => Ok(true),
    }
}

/// Does a declaration run? Other parts are told by what they are bound to.
pub(crate) fn is_built_part(scope: Scope, part: &Part) -> Result<bool, NoMemory>
    ensures { IfOk result (λ built. built ≡ plain.is_built_part (scope_view scope.entry) (part_view part.now)) }
{
    match part {
        Part::Label(_) => Ok(true),
        Part::Statement(statement) => is_built_statement(scope, statement),
        Part::WholeLine(line) => is_built_line(scope, line),
    }
}
