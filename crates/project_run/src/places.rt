//! The places of procedures and statements.

ghost use Rattle.std.specs.Prelude.{◌≡◌, ◌++◌, [], map, IfOk, OnOk};
ghost use Rattle.bound_project.specs.Bodies.{project_view};
ghost use Rattle.project_run.specs.Places.{headers_of, places_of, place_in, statement_places, lists_of};

use bound_project::{Body, Procedure, Project, StatementNode};
use std::alloc::Global;
use vba_base::{NoMemory, Place};

/// The places of the headers of procedures, and of the statements of each.
#[derive(Drop)]
pub struct Places {
    pub headers: Vec<Place>,
    pub statements: Vec<Vec<Place>>,
}

/// Adds the places of statements.
fn push_statements(places: &mut Vec<Place>, mut left: &[StatementNode]) -> Result<(), NoMemory>
    ensures { OnOk result (places.new.items ≡ places.old.items ++ map (λ s. s.place) left.entry.now) }
{
    while let [statement, rest @ ..] = left {
        places.push(statement.place)?;
        left = rest;
    }
    Ok(())
}

/// The places of the statements of a body.
fn places_in_body(alloc: Global, body: &Body) -> Result<Vec<Place>, NoMemory>
    ensures { IfOk result (λ places. places.items ≡ statement_places body.now) }
{
    let mut places = Vec::new(alloc);
    push_statements(&mut places, &body.statements)?;
    Ok(places)
}

/// Adds the places of the statements of bodies.
#[tactic(auto, using(crate::proofs::Placed::lists_append))]
fn push_bodies(
    alloc: Global,
    places: &mut Vec<Vec<Place>>,
    mut left: &[Body],
) -> Result<(), NoMemory>
    ensures { OnOk result (lists_of places.new.items ≡ lists_of places.old.items ++ map statement_places left.entry.now) }
{
    while let [body, rest @ ..] = left {
        places.push(places_in_body(alloc, body)?)?;
        left = rest;
    }
    Ok(())
}

/// Adds the places of the headers of procedures.
fn push_headers(headers: &mut Vec<Place>, mut left: &[Procedure]) -> Result<(), NoMemory>
    ensures { OnOk result (headers.new.items ≡ headers.old.items ++ map (λ p. p.place) left.entry.now) }
{
    while let [procedure, rest @ ..] = left {
        headers.push(procedure.place)?;
        left = rest;
    }
    Ok(())
}

/// The places of a project.
#[tactic(auto, using(crate::proofs::Placed::headers_seen, crate::proofs::Placed::bodies_seen))]
pub fn places_of(alloc: Global, project: &Project) -> Result<Places, NoMemory>
    ensures headers { IfOk result (λ places. places.headers.items ≡ headers_of (project_view project.now)) }
    ensures statements { IfOk result (λ places. lists_of places.statements.items ≡ places_of (project_view project.now)) }
{
    let mut headers = Vec::new(alloc);
    push_headers(&mut headers, &project.declared.procedures)?;
    let mut statements = Vec::new(alloc);
    push_bodies(alloc, &mut statements, &project.bodies)?;
    Ok(Places {
        headers,
        statements,
    })
}

const NOWHERE: Place = Place {
    module: 0,
    line: 0,
    column: 0,
};

impl Places {
    /// The place of a statement of a procedure, or of its header where none was begun.
    pub fn place(&self, procedure: u32, statement: Option<u32>) -> Place
        ensures { result ≡ place_in self.now.headers.items (lists_of self.now.statements.items) procedure statement }
    {
        let header = match self.headers.get(procedure as usize) {
            Some(place) => *place,
            None => NOWHERE,
        };
        let Some(number) = statement else {
            return header;
        };
        let Some(places) = self.statements.get(procedure as usize) else {
            return header;
        };
        match places.get(number as usize) {
            Some(place) => *place,
            None => header,
        }
    }
}
