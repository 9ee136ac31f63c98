//! A project is compiled and run.

ghost use Rattle.std.specs.Prelude.{◌≡◌, IfOk, IfErr};
ghost use Rattle.vba_base.specs.Causes.{Adds, AddsPrefix, RoseOnly};
ghost use Rattle.bound_project.specs.Bodies.{Fits, project_view};
ghost use Rattle.bound_project.specs.Project.{Project as PlainProject};
ghost use Rattle.pcode.specs.Layout.{code_of};
ghost use Rattle.pcode.specs.View.{code_view};
ghost use Rattle.pcode_vm.specs.View.{ending_view};
ghost use Rattle.project_run.specs.Meant.{RunsAsMeant, is_write_fault, outcome_of};
ghost use Rattle.project_run.specs.Places.{headers_of, places_of, lists_of};

use crate::outcome::{Outcome, RunFault};
use crate::places::{Places, places_of};
use bound_project::Project;
use codegen::compile;
use pcode::Code;
use pcode_run::{Cut, Shows, run};
use pcode_vm::Ending;
use sheet_host::Book;
use std::alloc::Global;
use vba_base::{NoMemory, Sink};

/// How a run that ended so is told, with the place of the statement that ran.
#[tactic(auto, using(crate::proofs::Placed::placed))]
fn outcome(places: &Places, ending: &Ending) -> Outcome
    ensures { (pr : PlainProject) → places.now.headers.items ≡ headers_of pr → lists_of places.now.statements.items ≡ places_of pr
        → result ≡ outcome_of pr (ending_view ending.now) }
{
    match ending {
        Ending::Ended => Outcome::Ended,
        Ending::Faulted(error) => Outcome::Faulted(
            error.number,
            places.place(error.procedure, error.statement),
        ),
        Ending::Stopped {
            why,
            procedure,
            statement,
        } => Outcome::Stopped(*why, places.place(*procedure, *statement)),
        Ending::Going => Outcome::Going,
    }
}

/// The places of a project and its code.
fn compiled(alloc: Global, project: Project) -> Result<(Places, Code), NoMemory>
    requires { Fits project }
    ensures headers { IfOk result (λ made. made.0.headers.items ≡ headers_of (project_view project)) }
    ensures statements { IfOk result (λ made. lists_of made.0.statements.items ≡ places_of (project_view project)) }
    ensures code { IfOk result (λ made. code_view made.1 ≡ code_of (project_view project)) }
{
    let places = places_of(alloc, &project)?;
    match compile(alloc, project) {
        Ok(code) => Ok((places, code)),
        Err(_) => Err(NoMemory),
    }
}

/// Runs a project over a book and with a bound on its turns, and puts what it shows to the sink: what it prints, or its
/// trace. The book that is left is given back. More instructions than a number of 32 bits counts are answered by
/// NoMemory.
pub fn run_project<S: Sink>(
    alloc: Global,
    project: Project,
    book: Book,
    turns: u64,
    shows: Shows,
    sink: &mut S,
) -> Result<(Outcome, Book), RunFault>
    requires { Fits project }
    ensures meant { RunsAsMeant (project_view project) book turns shows result (S.taken sink.old) (S.taken sink.new) }
    ensures faults { RoseOnly (is_write_fault result) (S.faults sink.old) (S.faults sink.new) }
{
    let Ok((places, code)) = compiled(alloc, project) else {
        return Err(RunFault::NoMemory);
    };
    match run(alloc, &code, book, turns, shows, sink) {
        Ok((ending, left)) => Ok((outcome(&places, &ending), left)),
        Err(Cut::WriteFault) => Err(RunFault::WriteFault),
        Err(Cut::NoMemory) => Err(RunFault::NoMemory),
        Err(Cut::Stuck) => Err(RunFault::NoMemory),
    }
}
