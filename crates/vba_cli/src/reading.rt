//! The project that the files of modules are.

ghost use Rattle.std.specs.Prelude.{◌≡◌, ◌≤◌, [], ◌∷◌, ◌++◌, length, map, option_map, IfOk, List, OnOk, Option};
ghost use Rattle.constant_values.specs.declared_names.specs.binder.specs.Projects.{startup_fault as plain_fault};
ghost use Rattle.constant_values.specs.declared_names.specs.binder.specs.LeftOut.{first_left_out as plain_left_out};
ghost use Rattle.constant_values.specs.declared_names.specs.binder.specs.Sources.{Source as PlainSource};
ghost use Rattle.constant_values.specs.declared_names.specs.binder.specs.Scopes.{spaces_from};
ghost use Rattle.constant_values.specs.Rounds.{AreNumbered};
ghost use Rattle.constant_values.specs.declared_names.specs.Outside.{the_outside};
ghost use Rattle.constant_values.specs.declared_names.specs.View.{source_view, space_view};
ghost use Rattle.list_file.specs.Sources.{files_view};
ghost use Rattle.list_file.specs.View.{start_view};
ghost use Rattle.bind_project.specs.Bound.{IsBound};
ghost use Rattle.project_tables.specs.Startups.{startup_view};
ghost use Rattle.signature_rules.specs.Signatures.{first_signature as plain_signature};
ghost use Rattle.bound_forms.specs.Bind.{not_built, project_of};
ghost use Rattle.constant_values.specs.declared_names.specs.binder.specs.Options.{or_else};
ghost use Rattle.vba_cli.specs.Program.{begins_at, bound_modules, first_of_two, judged_by, program_of};
ghost use Rattle.vba_cli.specs.Programs.{IsFitted, IsProgram, rule_of, first_fold, module_view, unless_refused};

use crate::modules::ReadModule;
use crate::phases::{keep_all, read_all};
use bind_project::{Bound, Startup as BoundStartup, bind, startup_fault};
use constant_values::declared_names::{Source, Space, spaces_of};
use list_file::{ModuleBytes, Startup};
use name_rules::{first_left_out, verdict};
use refusal_order::note_both;
use signature_rules::first_signature;
use static_rules::first_broken;
use std::alloc::Global;
use vba_base::{NoMemory, OrMemory, Refusal};

/// The project that the files of modules are, or the place of a part that isn't built yet. The run begins at
/// the startup of their list, or else at Main of the first module. The fault is the first rule that is broken: the
/// first of the rules of tokens and directives, in the order of the modules, else the first of those of lines and
/// modules, else the first of those of names; else that the startup isn't there, else the first of what the language
/// leaves out, of signatures that differ and, where each part is built, of Double results. No file has more than
/// 67108864 bytes.
#[tactic(auto, unfolding(crate::specs::Program::program_of))]
pub fn program(
    alloc: Global,
    files: &[ModuleBytes],
    start: Option<&Startup>,
) -> Result<Bound, OrMemory<Refusal>>
    requires { length files.now ≤ 67108865 }
    ensures { IsProgram (program_of (option_map (λ s. start_view s.now) start.entry) (files_view files.now)) result }
{
    let kept = keep_all(alloc, files)?;
    let modules = read_all(alloc, kept.as_slice())?;
    bound(alloc, modules.as_slice(), start)
}

// Modules as the binder takes them.
fn sources_of<'a, 'b>(
    alloc: Global,
    modules: &'a [ReadModule<'b>],
) -> Result<Vec<Source<'a>>, NoMemory>
    ensures { IfOk result (λ sources. map source_view sources.items ≡ map module_view modules.now) }
{
    let mut sources = Vec::new(alloc);
    for module in modules {
        push_source(&mut sources, source_of(module))?;
    }
    Ok(sources)
}

// A module as the binder takes it.
fn source_of<'a, 'b>(read: &'a ReadModule<'b>) -> Source<'a>
    ensures { source_view result ≡ module_view read.now }
{
    Source {
        is_class: read.is_class,
        text: &*read.text,
        parts: &read.parts,
    }
}

// Adds a module.
#[tactic(auto, using(crate::proofs::Bound::sources_push))]
fn push_source<'a>(sources: &mut Vec<Source<'a>>, source: Source<'a>) -> Result<(), NoMemory>
    ensures { OnOk result (map source_view sources.new.items ≡ map source_view sources.old.items ++ source_view source.entry ∷ []) }
{
    Ok(sources.push(source)?)
}

// Modules, judged and bound.
fn bound(
    alloc: Global,
    modules: &[ReadModule],
    start: Option<&Startup>,
) -> Result<Bound, OrMemory<Refusal>>
    ensures { IsProgram (bound_modules (option_map (λ s. start_view s.now) start.entry) (map module_view modules.now)) result }
{
    let sources = sources_of(alloc, modules)?;
    bound_sources(alloc, sources.as_slice(), start)
}

// Modules as the binder takes them, judged and bound.
#[tactic(auto, using(crate::proofs::Bound::modules_numbered))]
fn bound_sources(
    alloc: Global,
    sources: &[Source],
    start: Option<&Startup>,
) -> Result<Bound, OrMemory<Refusal>>
    ensures { IsProgram (bound_modules (option_map (λ s. start_view s.now) start.entry) (map source_view sources.now)) result }
{
    let spaces = spaces_of(alloc, sources)?;
    judge(alloc, &spaces, start)
}

/// The modules of a project.
#[derive(Clone, Copy)]
struct Modules<'a> {
    spaces: &'a [Space<'a>],
    start: Option<&'a Startup>,
}

// The modules of a project, judged and bound.
fn judge(
    alloc: Global,
    spaces: &[Space],
    start: Option<&Startup>,
) -> Result<Bound, OrMemory<Refusal>>
    requires { AreNumbered (map space_view spaces.now) }
    ensures { (ms : List PlainSource) → map space_view spaces.now ≡ spaces_from 0 ms → IsProgram (bound_modules (option_map (λ s. start_view s.now) start.entry) ms) result }
{
    judged(alloc, Modules { spaces, start })
}

// The modules of a project: refused by the first rule of names that they break, or because the macro to begin with
// isn't there (S33), or else asked the rules behind these.
#[tactic(auto, using(crate::proofs::Bound::modules_broken, crate::proofs::Bound::modules_faulty, crate::proofs::Bound::modules_named))]
fn judged<'a>(alloc: Global, modules: Modules<'a>) -> Result<Bound, OrMemory<Refusal>>
    requires { AreNumbered (map space_view modules.spaces.now) }
    ensures { (ms : List PlainSource) → map space_view modules.entry.spaces.now ≡ spaces_from 0 ms → IsProgram (bound_modules (option_map (λ s. start_view s.now) modules.entry.start) ms) result }
{
    if let Some(refusal) = verdict(alloc, modules.spaces)? {
        return Err(OrMemory::Fault(refusal));
    }
    match fault_at(modules.spaces, modules.start)? {
        Some(refusal) => Err(OrMemory::Fault(refusal)),
        None => asked(alloc, modules),
    }
}

// Modules in which names, types and the macro to begin with are found: refused by the first of S23, S31, S32 and of what
// is asked of the project that is bound, or else bound.
#[tactic(auto, using(crate::proofs::Bound::modules_asked))]
fn asked<'a>(alloc: Global, modules: Modules<'a>) -> Result<Bound, OrMemory<Refusal>>
    requires { AreNumbered (map space_view modules.spaces.now) }
    ensures { (ms : List PlainSource) → map space_view modules.entry.spaces.now ≡ spaces_from 0 ms → let st = begins_at (option_map (λ s. start_view s.now) modules.entry.start) ms in
        IsProgram (λ told. judged_by None ms (or_else told (not_built the_outside ms)) (project_of the_outside ms st)) result }
{
    let fault = first_fault(alloc, modules.spaces)?;
    let bound = bind_at(alloc, modules.spaces, modules.start)?;
    let first = first_of_two(fault, rule_in(&bound));
    unless_refused(bound, first)
}

// The first rule that what was bound breaks.
fn rule_in(bound: &Bound) -> Option<Refusal>
    requires { IsFitted bound.now }
    ensures { result ≡ rule_of bound.now }
{
    match bound {
        Bound::NotBuilt(_) => None,
        Bound::Runs(project) => first_broken(project),
    }
}

// What was bound, unless a rule is broken.
fn unless_refused(bound: Bound, first: Option<Refusal>) -> Result<Bound, OrMemory<Refusal>>
    ensures { result ≡ unless_refused first bound }
{
    match first {
        Some(refusal) => Err(OrMemory::Fault(refusal)),
        None => Ok(bound),
    }
}

// The first of what the language leaves out (S23) and of signatures that differ (S31, S32).
fn first_fault<'a>(alloc: Global, spaces: &'a [Space<'a>]) -> Result<Option<Refusal>, NoMemory>
    requires { AreNumbered (map space_view spaces.now) }
    ensures { IfOk result (λ fault. fault ≡ first_of_two (plain_left_out the_outside (map space_view spaces.now)) (plain_signature the_outside (map space_view spaces.now))) }
{
    let left_out = first_left_out(alloc, &*spaces)?;
    let signature = first_signature(alloc, &*spaces)?;
    Ok(first_of_two(left_out, signature))
}

// The first of two refusals: by module, and in one module by place and rule.
fn first_of_two(left: Option<Refusal>, right: Option<Refusal>) -> Option<Refusal>
    ensures { result ≡ first_of_two left right }
{
    let Some(one) = left else {
        return right;
    };
    let Some(other) = right else {
        return Some(one);
    };
    if one.place.module < other.place.module {
        return Some(one);
    }
    if other.place.module < one.place.module {
        return Some(other);
    }
    let mut least = Some(one);
    note_both(&mut least, Some(other));
    least
}

// S33: the macro to begin with isn't there.
fn fault_at<'a>(
    spaces: &'a [Space<'a>],
    start: Option<&'a Startup>,
) -> Result<Option<Refusal>, NoMemory>
    ensures { (ms : List PlainSource) → map space_view spaces.now ≡ spaces_from 0 ms → IfOk result (λ fault. fault ≡ plain_fault the_outside (map space_view spaces.now) (begins_at (option_map (λ s. start_view s.now) start.entry) ms)) }
{
    startup_fault(spaces, startup_of(spaces, start))
}

// The modules of a project, bound with the macro to begin with.
fn bind_at<'a>(
    alloc: Global,
    spaces: &'a [Space<'a>],
    start: Option<&'a Startup>,
) -> Result<Bound, NoMemory>
    requires { AreNumbered (map space_view spaces.now) }
    ensures fits { IfOk result IsFitted }
    ensures bound { (ms : List PlainSource) → map space_view spaces.now ≡ spaces_from 0 ms → IfOk result (IsBound the_outside (map space_view spaces.now) (begins_at (option_map (λ s. start_view s.now) start.entry) ms)) }
{
    bind(alloc, spaces, startup_of(spaces, start))
}

// The macro to begin with.
#[tactic(auto, using(crate::proofs::Bound::main_begins))]
fn startup_of<'a>(spaces: &'a [Space<'a>], start: Option<&'a Startup>) -> BoundStartup<'a>
    ensures { (ms : List PlainSource) → map space_view spaces.now ≡ spaces_from 0 ms → startup_view result ≡ begins_at (option_map (λ s. start_view s.now) start.entry) ms }
{
    match start {
        Some(start) => BoundStartup {
            module_fold: start.in_module.units(),
            sub_fold: start.procedure.units(),
        },
        None => BoundStartup {
            module_fold: first_fold(spaces),
            sub_fold: &MAIN,
        },
    }
}

// The fold of the name of the first module.
fn first_fold<'a>(spaces: &'a [Space<'a>]) -> &'a [u16]
    ensures { result.now ≡ first_fold (map space_view spaces.now) }
{
    match spaces.first() {
        Some(space) => space.name.fold.units(),
        None => &[],
    }
}

/// The fold of Main.
const MAIN: [u16; 4] = [109, 97, 105, 110];
