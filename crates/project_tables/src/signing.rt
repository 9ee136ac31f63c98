//! What calls and module variables need of a project.

ghost use Rattle.std.specs.Prelude.{◌≡◌, ◌+◌, [], ◌∷◌, ◌++◌, Option, Some, IfOk, OnOk, length, map, slice_get, slice_index_or, take};
ghost use Rattle.bound_declarations.specs.constant_values.specs.declared_names.specs.binder.specs.Projects.{numbered};
ghost use Rattle.bound_declarations.specs.constant_values.specs.declared_names.specs.binder.specs.Declarations as plain;
ghost use Rattle.bound_declarations.specs.constant_values.specs.declared_names.specs.binder.specs.Signatures as signatures;
ghost use Rattle.bound_declarations.specs.constant_values.specs.declared_names.specs.binder.specs.Storage as storage;
ghost use Rattle.bound_declarations.specs.constant_values.specs.declared_names.specs.binder.specs.Types.{counted};
ghost use Rattle.bound_project.specs.View.{parameter_view, storage_view};
ghost use Rattle.bound_declarations.specs.constant_values.specs.Rounds.{AreNumbered, IsPlaced};
ghost use Rattle.bound_declarations.specs.constant_values.specs.Tables.{AreConstants, AreProjectValues};
ghost use Rattle.bound_declarations.specs.constant_values.specs.declared_names.specs.View.{local_view, scope_view, space_view, written_view};
ghost use Rattle.project_tables.specs.Rows.{AreRows, AreRowsFrom, row_view};
ghost use Rattle.project_tables.specs.Signed.{AreSignatures, signed_in, signed_lists, signed_of, signed_view};
ghost use Rattle.project_tables.specs.Steps.{HasValues, IsModule, module_scope, parameters_at, row_lists, signed_row, with_names};

use crate::counting::{shared_count, sum};
use crate::rows::{ProcedureRow, Rows};
use crate::scopes::constants_of;
use bound_declarations::constant_values::ProjectValues;
use bound_declarations::constant_values::declared_names::{Counted, Scope, Space, count_before};
use bound_declarations::{NotYet, parameters_of};
use bound_project::{Parameter, Storage};
use std::alloc::Global;
use vba_base::{NoMemory, OrMemory};

/// The parameters of a procedure by the number of its entry.
#[derive(Drop)]
pub(crate) struct Signature {
    pub(crate) number: usize,
    pub(crate) parameters: Vec<Parameter>,
}

/// What calls and module variables need: the parameters of each procedure, and how many shared variables there are
/// before each module and in all.
#[derive(Drop)]
pub struct Signatures {
    pub(crate) of: Vec<Vec<Signature>>,
    pub(crate) before: Vec<u32>,
    pub(crate) total: u32,
}

/// The parameters of a procedure.
fn signature_of<'a>(
    alloc: Global,
    scope: Scope<'a>,
    project: &ProjectValues,
    row: &ProcedureRow<'a>,
) -> Result<Signature, OrMemory<NotYet>>
    requires placed { IsPlaced (scope_view scope) }
    requires values { AreProjectValues project.now (scope_view scope).spaces }
    requires own { HasValues (scope_view scope) row.now }
    ensures { IfOk result (λ signature. signed_view signature ≡ signed_row (scope_view scope.entry) (row_view row.now)) }
{
    let constants = constants_of(scope, &*project, &*row);
    let parameters = parameters_of(alloc, constants, row.written)?;
    Ok(Signature {
        number: row.number,
        parameters,
    })
}

/// Adds the parameters of a procedure.
#[tactic(auto, using(crate::proofs::Found::signed_push))]
fn push_signature(
    signatures: &mut Vec<Signature>,
    signature: Signature,
) -> Result<(), OrMemory<NotYet>>
    ensures { OnOk result (map signed_view signatures.new.items ≡ map signed_view signatures.old.items ++ signed_view signature ∷ []) }
{
    Ok(signatures.push(signature)?)
}

/// The parameters of the procedures of a module.
#[tactic(auto, using(std::proofs::lemmas::List::drop_more, crate::proofs::Steps::own_values_of, crate::proofs::Found::module_signed))]
fn module_signatures<'a>(
    alloc: Global,
    scope: Scope<'a>,
    project: &ProjectValues,
    rows: &[ProcedureRow<'a>],
) -> Result<Vec<Signature>, OrMemory<NotYet>>
    requires { IsModule (scope_view scope) project.now rows.now }
    ensures { IfOk result (λ signatures. map signed_view signatures.items ≡ signed_in (scope_view scope.entry)) }
{
    let mut signatures = Vec::new(alloc);
    for row in rows {
        push_signature(&mut signatures, signature_of(alloc, scope, project, row)?)?;
    }
    Ok(signatures)
}

/// Adds a module by its procedures, and goes on behind its shared variables.
#[tactic(auto, using(crate::proofs::Found::signed_lists_push))]
fn push_signatures(
    signatures: &mut Signatures,
    of: Vec<Signature>,
    shared: u32,
) -> Result<(), OrMemory<NotYet>>
    ensures of { OnOk result (signed_lists signatures.new.of.items ≡ signed_lists signatures.old.of.items ++ map signed_view of.items ∷ []) }
    ensures before { OnOk result (signatures.new.before.items ≡ signatures.old.before.items ++ signatures.old.total ∷ []) }
    ensures total { OnOk result (signatures.new.total ≡ signatures.old.total + shared) }
{
    signatures.of.push(of)?;
    signatures.before.push(signatures.total)?;
    signatures.total = sum(signatures.total, shared)?;
    Ok(())
}

/// Adds a module.
fn push_module<'a>(
    alloc: Global,
    spaces: &'a [Space<'a>],
    space: &'a Space<'a>,
    project: &ProjectValues,
    rows: &[ProcedureRow<'a>],
    signatures: &mut Signatures,
) -> Result<(), OrMemory<NotYet>>
    requires { IsModule (module_scope spaces.now space.now) project.now rows.now }
    ensures of { OnOk result (signed_lists signatures.new.of.items ≡ signed_lists signatures.old.of.items ++ signed_in (module_scope spaces.now space.now) ∷ []) }
    ensures before { OnOk result (signatures.new.before.items ≡ signatures.old.before.items ++ signatures.old.total ∷ []) }
    ensures total { OnOk result (signatures.new.total ≡ signatures.old.total + length (storage.shared_of (module_scope spaces.now space.now))) }
{
    let scope = Scope {
        spaces,
        here: space,
        locals: &[],
    };
    let of = module_signatures(alloc, scope, project, rows)?;
    let shared = shared_count(scope, rows)?;
    push_signatures(signatures, of, shared)
}

/// What calls and module variables need of a project.
#[tactic(auto, using(std::proofs::lemmas::List::drop_more))]
pub fn project_signatures<'a>(
    alloc: Global,
    spaces: &'a [Space<'a>],
    rows: &Rows<'a>,
) -> Result<Signatures, OrMemory<NotYet>>
    requires numbered { AreNumbered (map space_view spaces.now) }
    requires rows { AreRows rows.now (map space_view spaces.now) }
    ensures { IfOk result (λ signatures. AreSignatures signatures (map space_view spaces.now)) }
{
    let mut signatures = Signatures {
        of: Vec::new(alloc),
        before: Vec::new(alloc),
        total: 0,
    };
    for (number, space) in spaces.iter().enumerate() {
        let of = rows.of[number].as_slice();
        push_module(alloc, spaces, space, &rows.values, of, &mut signatures)?;
    }
    Ok(signatures)
}

/// The parameters of the procedure with a number, or none.
#[tactic(auto, using(std::proofs::lemmas::List::drop_more))]
fn parameters_at(signatures: &[Signature], number: usize) -> &[Parameter]
    ensures { map parameter_view result.now ≡ parameters_at (map signed_view signatures.now) number }
{
    for signature in signatures {
        if signature.number == number {
            return signature.parameters.as_slice();
        }
    }
    &[]
}

impl Signatures {
    /// How many shared variables there are before a module.
    fn shared_before(&self, number: usize) -> u32
        ensures { result ≡ slice_index_or self.now.before.items number self.now.total }
    {
        match self.before.as_slice().get(number) {
            Some(before) => *before,
            None => self.total,
        }
    }

    /// The procedures of a module.
    fn of_module(&self, number: usize) -> &[Signature]
        ensures { map signed_view result.now ≡ slice_index_or (signed_lists self.now.of.items) number [] }
    {
        if let Some(signatures) = self.of.as_slice().get(number) {
            return signatures.as_slice();
        }
        &[]
    }

    /// Where a module variable is kept, by its entry.
    #[tactic(auto, using(crate::proofs::Found::before_is))]
    pub fn module_storage<'a>(
        &self,
        scope: Scope<'a>,
        space: &'a Space<'a>,
        number: usize,
    ) -> Result<Storage, NoMemory>
        requires { AreSignatures self.now (scope_view scope).spaces }
        ensures { IfOk result (λ kept. storage_view kept ≡ storage.module_storage (scope_view scope.entry) (space_view space.now) number) }
    {
        let before = self.shared_before(space.number);
        let place = sum(before, count_before(Counted::Variables, space, number)?)?;
        Ok(Storage::Shared(place))
    }

    /// The parameters of a procedure, by its entry in a module of the project.
    #[tactic(auto, using(crate::proofs::Found::parameters_are))]
    pub fn parameters<'a>(
        &self,
        scope: Scope<'a>,
        space: &'a Space<'a>,
        number: usize,
    ) -> Result<&[Parameter], NoMemory>
        requires { AreSignatures self.now (scope_view scope).spaces }
        ensures { IfOk result (λ parameters. (e : plain.Entry) (w : plain.Written)
            → slice_get (scope_view scope.entry).spaces (space_view space.now).number ≡ Some (space_view space.now)
            → slice_get (space_view space.now).entries number ≡ Some e → e.what ≡ plain.a_procedure w
            → map parameter_view parameters.now ≡ signatures.parameters_in (scope_view scope.entry) (space_view space.now) w) }
    {
        Ok(parameters_at(self.of_module(space.number), number))
    }
}
