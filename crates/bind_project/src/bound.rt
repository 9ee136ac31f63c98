use bound_project::Project;
use vba_base::Place;

/// Modules bound: a project that runs, or where a part stands that isn't bound yet.
#[derive(Drop)]
pub enum Bound {
    NotBuilt(Place),
    Runs(Project),
}
