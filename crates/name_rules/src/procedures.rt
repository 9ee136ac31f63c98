//! S15 to S20 at the procedures of a module.

ghost use Rattle.std.specs.Prelude.{◌≡◌, [], ◌∷◌, map, flat_map, OnOk};
ghost use Rattle.constant_values.specs.declared_names.specs.binder.specs.Names as names;
ghost use Rattle.constant_values.specs.declared_names.specs.binder.specs.Names.{scope_in};
ghost use Rattle.constant_values.specs.declared_names.specs.binder.specs.Said.{said_in_body};
ghost use Rattle.constant_values.specs.declared_names.specs.binder.specs.Violations.{in_body, label_said, labels_in, later, names_said, place_of_label, place_of_name, procedure_faults, procedures_in, same_label, same_name, twice_in_procedure, types_said};
ghost use Rattle.constant_values.specs.Rounds.{IsPlaced};
ghost use Rattle.constant_values.specs.Tables.{AreProjectValues};
ghost use Rattle.constant_values.specs.declared_names.specs.View.{entry_view, local_view, scope_view, written_view};
ghost use Rattle.name_rules.specs.Naming.{names_in};
ghost use Rattle.use_rules.specs.Found.{noted};

use crate::constants::note_constants_inside;
use crate::labelled::note_twice_labelled;
use crate::names_of::names_of_procedure;
use crate::twice::note_twice;
use constant_values::ProjectValues;
use constant_values::declared_names::{Entry, Local, Scope, What, Written};
use procedure_names::locals_of;
use said_parts::push_header;
use std::alloc::Global;
use use_rules::{BodyFound, Question, labels_of, note_all_names, note_all_types, note_body};
use vba_base::{NoMemory, Refusal};
use vba_tree::LineLabel;

/// The least refusals by S15 to S20 that were found in procedures.
#[derive(Clone, Copy)]
pub struct ProceduresFound {
    pub twice: Option<Refusal>,
    pub body: BodyFound,
    pub labelled: Option<Refusal>,
    pub constants: Option<Refusal>,
}

/// Notes the names that a procedure declares twice (S15).
fn note_twice_in<'a>(
    alloc: Global,
    written: Written<'a>,
    least: &mut Option<Refusal>,
) -> Result<(), NoMemory>
    ensures { OnOk result (least.new ≡ noted 15 least.old (later same_name place_of_name [] (names_in (written_view written.entry)))) }
{
    let names = names_of_procedure(alloc, written)?;
    note_twice(names.as_slice(), least);
    Ok(())
}

/// Notes where the header and the body of a procedure break S16, S17 and S18, in its own scope, where these labels stand.
#[tactic(auto, using(crate::proofs::Gathered::header_noted))]
fn note_inside<'a>(
    alloc: Global,
    scope: Scope<'a>,
    written: Written<'a>,
    labels: &[&LineLabel],
    found: &mut BodyFound,
) -> Result<(), NoMemory>
    ensures types { OnOk result (found.new.types ≡ noted 16 found.old.types (in_body (λ within. types_said (scope_view scope.entry)) (written_view written.entry))) }
    ensures names { OnOk result (found.new.names ≡ noted 17 found.old.names (in_body (names_said (scope_view scope.entry)) (written_view written.entry))) }
    ensures labels { OnOk result (found.new.labels ≡ noted 18 found.old.labels (flat_map (label_said (map (λ l. l.now) labels.now)) (said_in_body (written_view written.entry)))) }
{
    let mut said = Vec::new(alloc);
    push_header(&mut said, written.header)?;
    note_all_types(alloc, scope, said.as_slice(), &mut found.types)?;
    let question = Question::IsUnknown { in_with: false };
    note_all_names(alloc, scope, question, said.as_slice(), &mut found.names)?;
    let is_static = written.header.static_word.is_some();
    note_body(alloc, scope, is_static, labels, written.body.slice(), found)
}

/// The scope of a procedure, with its names.
pub fn scope_inside<'a>(
    scope: Scope<'a>,
    written: Written<'a>,
    locals: &'a [Local<'a>],
) -> Scope<'a>
    requires { map local_view locals.now ≡ names.locals_of (scope_view scope) (written_view written) }
    ensures { scope_view result ≡ scope_in (scope_view scope.entry) (written_view written.entry) }
{
    let _written = written;
    Scope {
        spaces: scope.spaces,
        here: scope.here,
        locals: &*locals,
    }
}

/// Notes where a procedure breaks the rules.
fn note_procedure<'a>(
    alloc: Global,
    scope: Scope<'a>,
    project: &ProjectValues,
    written: Written<'a>,
    found: &mut ProceduresFound,
) -> Result<(), NoMemory>
    requires placed { IsPlaced (scope_view scope) }
    requires values { AreProjectValues project.now (scope_view scope).spaces }
    ensures twice { OnOk result (found.new.twice ≡ noted 15 found.old.twice (twice_in_procedure (scope_in (scope_view scope.entry) (written_view written.entry)) (written_view written.entry))) }
    ensures types { OnOk result (found.new.body.types ≡ noted 16 found.old.body.types (in_body (λ within. types_said (scope_in (scope_view scope.entry) (written_view written.entry))) (written_view written.entry))) }
    ensures names { OnOk result (found.new.body.names ≡ noted 17 found.old.body.names (in_body (names_said (scope_in (scope_view scope.entry) (written_view written.entry))) (written_view written.entry))) }
    ensures labels { OnOk result (found.new.body.labels ≡ noted 18 found.old.body.labels (flat_map (label_said (labels_in (written_view written.entry).body)) (said_in_body (written_view written.entry)))) }
    ensures labelled { OnOk result (found.new.labelled ≡ noted 19 found.old.labelled (later same_label place_of_label [] (labels_in (written_view written.entry).body))) }
    ensures constants { OnOk result (found.new.constants ≡ noted 20 found.old.constants (procedure_faults (scope_in (scope_view scope.entry) (written_view written.entry)) (written_view written.entry))) }
{
    let locals = locals_of(alloc, scope, written)?;
    let inner = scope_inside(scope, written, locals.as_slice());
    let labels = labels_of(alloc, written.body.slice())?;
    note_twice_in(alloc, written, &mut found.twice)?;
    note_inside(alloc, inner, written, labels.as_slice(), &mut found.body)?;
    note_twice_labelled(labels.as_slice(), &mut found.labelled);
    note_constants_inside(alloc, inner, project, written, &mut found.constants)?;
    Ok(())
}

/// Notes where an entry breaks the rules, if it is a procedure.
#[tactic(auto, using(use_rules::proofs::Noted::noted_append))]
fn note_entry<'a>(
    alloc: Global,
    scope: Scope<'a>,
    project: &ProjectValues,
    entry: Entry<'a>,
    found: &mut ProceduresFound,
) -> Result<(), NoMemory>
    requires placed { IsPlaced (scope_view scope) }
    requires values { AreProjectValues project.now (scope_view scope).spaces }
    ensures twice { OnOk result (found.new.twice ≡ noted 15 found.old.twice (flat_map (λ p. twice_in_procedure (scope_in (scope_view scope.entry) p) p) (procedures_in (entry_view entry.entry ∷ [])))) }
    ensures types { OnOk result (found.new.body.types ≡ noted 16 found.old.body.types (flat_map (λ p. in_body (λ within. types_said (scope_in (scope_view scope.entry) p)) p) (procedures_in (entry_view entry.entry ∷ [])))) }
    ensures names { OnOk result (found.new.body.names ≡ noted 17 found.old.body.names (flat_map (λ p. in_body (names_said (scope_in (scope_view scope.entry) p)) p) (procedures_in (entry_view entry.entry ∷ [])))) }
    ensures labels { OnOk result (found.new.body.labels ≡ noted 18 found.old.body.labels (flat_map (λ p. flat_map (label_said (labels_in p.body)) (said_in_body p)) (procedures_in (entry_view entry.entry ∷ [])))) }
    ensures labelled { OnOk result (found.new.labelled ≡ noted 19 found.old.labelled (flat_map (λ p. later same_label place_of_label [] (labels_in p.body)) (procedures_in (entry_view entry.entry ∷ [])))) }
    ensures constants { OnOk result (found.new.constants ≡ noted 20 found.old.constants (flat_map (λ p. procedure_faults (scope_in (scope_view scope.entry) p) p) (procedures_in (entry_view entry.entry ∷ [])))) }
{
    match entry.what {
        What::Procedure(written) => note_procedure(alloc, scope, project, written, found),
        What::Variable(_)
        | What::Constant(_)
        | What::Enum
        | What::Member { .. }
        | What::Type(_)
        | What::Event(_) => Ok(()),
    }
}

/// Notes where the procedures among entries break the rules.
pub fn note_procedures<'a>(
    alloc: Global,
    scope: Scope<'a>,
    project: &ProjectValues,
    entries: &[Entry<'a>],
    found: &mut ProceduresFound,
) -> Result<(), NoMemory>
    requires placed { IsPlaced (scope_view scope) }
    requires values { AreProjectValues project.now (scope_view scope).spaces }
    ensures twice { OnOk result (found.new.twice ≡ noted 15 found.old.twice (flat_map (λ p. twice_in_procedure (scope_in (scope_view scope.entry) p) p) (procedures_in (map entry_view entries.now)))) }
    ensures types { OnOk result (found.new.body.types ≡ noted 16 found.old.body.types (flat_map (λ p. in_body (λ within. types_said (scope_in (scope_view scope.entry) p)) p) (procedures_in (map entry_view entries.now)))) }
    ensures names { OnOk result (found.new.body.names ≡ noted 17 found.old.body.names (flat_map (λ p. in_body (names_said (scope_in (scope_view scope.entry) p)) p) (procedures_in (map entry_view entries.now)))) }
    ensures labels { OnOk result (found.new.body.labels ≡ noted 18 found.old.body.labels (flat_map (λ p. flat_map (label_said (labels_in p.body)) (said_in_body p)) (procedures_in (map entry_view entries.now)))) }
    ensures labelled { OnOk result (found.new.labelled ≡ noted 19 found.old.labelled (flat_map (λ p. later same_label place_of_label [] (labels_in p.body)) (procedures_in (map entry_view entries.now)))) }
    ensures constants { OnOk result (found.new.constants ≡ noted 20 found.old.constants (flat_map (λ p. procedure_faults (scope_in (scope_view scope.entry) p) p) (procedures_in (map entry_view entries.now)))) }
{
    for entry in entries {
        note_entry(alloc, scope, project, *entry, found)?;
    }
    Ok(())
}
