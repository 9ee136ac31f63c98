ghost use Rattle.std.specs.Prelude.{◌≡◌, [], IfOk, OnOk, None, map};
ghost use Rattle.arrays_udt.specs.Paths.{same_step};
ghost use Rattle.bound_project.specs.View.{declared_view};
ghost use Rattle.vba_values.specs.Types.{declared};
ghost use Rattle.vba_values.specs.View.{view};
ghost use Rattle.vba_meaning.specs.Memory.{Memory as PlainMemory, root_value};
ghost use Rattle.vba_meaning.specs.Objects.{made_at};
ghost use Rattle.vba_meaning.specs.Paths.{any_moves, element_path, field_path, in_fields, is_below, item_path, leads_through, object_path, plain_steps, same_root};
ghost use Rattle.run_memory.specs.Looks.{root_or};
ghost use Rattle.run_memory.specs.View.{path_view, root_view, step_view};

use arrays_udt::PathStep;
use bound_project::DeclaredType;
use std::alloc::Global;
use vba_base::NoMemory;
use vba_values::{ObjRef, VType, Value, copy_type, copy_value};

/// Where a path begins: a variable of a frame, whose number is that of the frames below it, or of the project; a variable
/// of a counted object, by the object's number; the value that a With block of a frame keeps; or an object or an item of
/// a Collection that an index gave, which no variable has.
pub enum Root {
    Frame { frame: usize, variable: u32 },
    Project { variable: u32 },
    Instance { object: u32, field: u32 },
    Block { frame: usize, header: u32 },
    Object { reference: ObjRef },
    Item { value: Value },
}

impl Drop for Root {
    fn drop(self) {
        match self {
            Root::Frame {
                frame: _frame,
                variable: _variable,
            } => {}
            Root::Project {
                variable: _variable,
            } => {}
            Root::Instance {
                object: _object,
                field: _field,
            } => {}
            Root::Block {
                frame: _frame,
                header: _header,
            } => {}
            Root::Object {
                reference: _reference,
            } => {}
            Root::Item { value: _value } => {}
        }
    }
}

/// A step, and whether it leads into an array that can be replaced: one that isn't declared with bounds.
#[derive(Clone, Copy)]
pub struct Step {
    pub step: PathStep,
    pub moves: bool,
}

/// A path to a value: to a variable, then to fields and elements inside it. It has the declared type of what is there,
/// whether that is an array declared with bounds, and the class of which an object is made where it, or an element of it,
/// is read while it has Nothing, if it is declared As New.
pub struct Path {
    pub root: Root,
    pub steps: Vec<Step>,
    pub of: VType,
    pub is_bounded: bool,
    pub makes: Option<u32>,
}

impl Drop for Path {
    fn drop(self) {
        let Path {
            root: _root,
            steps: _steps,
            of: _of,
            is_bounded: _is_bounded,
            makes: _makes,
        } = self;
    }
}

impl Root {
    /// The object that a path begins at; of other paths Empty.
    pub fn object_value(&self) -> Value
        ensures { (m : PlainMemory) → root_or m (root_view self.now) (view result) ≡ root_value m (root_view self.now) }
    {
        match self {
            Root::Object { reference } => Value::Object(*reference),
            Root::Frame { .. }
            | Root::Project { .. }
            | Root::Instance { .. }
            | Root::Block { .. }
            | Root::Item { .. } => Value::Empty,
        }
    }

    /// A copy.
    fn copy(&self, alloc: Global) -> Result<Root, NoMemory>
        ensures { IfOk result (λ copy. root_view copy ≡ root_view self.now) }
    {
        match self {
            Root::Frame { frame, variable } => Ok(Root::Frame {
                frame: *frame,
                variable: *variable,
            }),
            Root::Project { variable } => Ok(Root::Project {
                variable: *variable,
            }),
            Root::Instance { object, field } => Ok(Root::Instance {
                object: *object,
                field: *field,
            }),
            Root::Block { frame, header } => Ok(Root::Block {
                frame: *frame,
                header: *header,
            }),
            Root::Object { reference } => Ok(Root::Object {
                reference: *reference,
            }),
            Root::Item { value } => Ok(Root::Item {
                value: copy_value(alloc, value)?,
            }),
        }
    }
}

impl Path {
    /// Where an object is that no variable has.
    pub fn of_object(alloc: Global, reference: ObjRef) -> Path
        ensures { path_view result ≡ object_path reference }
    {
        Path {
            root: Root::Object { reference },
            steps: Vec::new(alloc),
            of: VType::Variant,
            is_bounded: false,
            makes: None,
        }
    }

    /// Where an item of a Collection is.
    pub fn of_item(alloc: Global, value: Value) -> Path
        ensures { path_view result ≡ item_path (view value) }
    {
        Path {
            root: Root::Item { value },
            steps: Vec::new(alloc),
            of: VType::Variant,
            is_bounded: false,
            makes: None,
        }
    }

    /// Where a variable of a counted object is.
    pub fn of_instance(
        alloc: Global,
        object: u32,
        field: u32,
        of: DeclaredType,
        is_bounded: bool,
    ) -> Result<Path, NoMemory>
        ensures { IfOk result (λ path. path_view path ≡ record { root = in_fields object field; steps = []; of = declared_view of; bounded = is_bounded; makes = None }) }
    {
        Ok(Path {
            root: Root::Instance { object, field },
            steps: Vec::new(alloc),
            of: of.value_type(alloc)?,
            is_bounded,
            makes: None,
        })
    }

    /// The place is declared As New.
    pub fn making(self, class: u32) -> Path
        ensures { path_view result ≡ made_at class (path_view self) }
    {
        let mut path = self;
        path.makes = Some(class);
        path
    }

    /// A copy of the path.
    pub fn copy(&self, alloc: Global) -> Result<Path, NoMemory>
        ensures { IfOk result (λ copy. path_view copy ≡ path_view self.now) }
    {
        let steps = Vec::from_slice(alloc, self.steps.as_slice())?;
        let of = copy_type(alloc, &self.of)?;
        Ok(Path {
            root: self.root.copy(alloc)?,
            steps,
            of,
            is_bounded: self.is_bounded,
            makes: self.makes,
        })
    }

    /// The path becomes that of its element at an offset.
    pub fn into_element(&mut self, offset: usize, of: VType) -> Result<(), NoMemory>
        ensures { OnOk result (path_view self.new ≡ element_path (path_view self.old) offset (declared of)) }
    {
        self.steps.push(Step {
            step: PathStep::Element(offset),
            moves: !self.is_bounded,
        })?;
        self.of = of;
        self.is_bounded = false;
        Ok(())
    }

    /// The path becomes that of its field.
    pub fn into_field(&mut self, field: u32, of: VType, is_bounded: bool) -> Result<(), NoMemory>
        ensures { OnOk result (path_view self.new ≡ field_path (path_view self.old) field (declared of) is_bounded) }
    {
        self.steps.push(Step {
            step: PathStep::Field(field),
            moves: false,
        })?;
        self.of = of;
        self.is_bounded = is_bounded;
        self.makes = None;
        Ok(())
    }

    /// The path of its field.
    pub fn field(
        self,
        alloc: Global,
        field: u32,
        of: DeclaredType,
        is_bounded: bool,
    ) -> Result<Path, NoMemory>
        ensures { IfOk result (λ path. path_view path ≡ field_path (path_view self) field (declared_view of) is_bounded) }
    {
        let mut path = self;
        path.into_field(field, of.value_type(alloc)?, is_bounded)?;
        Ok(path)
    }

    /// The steps alone.
    #[tactic(auto, using(crate::proofs::Steps::plain_next))]
    pub fn plain_steps(&self, alloc: Global) -> Result<Vec<PathStep>, NoMemory>
        ensures { IfOk result (λ steps. steps.items ≡ plain_steps (path_view self.now).steps) }
    {
        let mut steps = Vec::new(alloc);
        for step in &self.steps {
            steps.push(step.step)?;
        }
        Ok(steps)
    }

    /// Whether the path would lead nowhere where what is at a place is replaced.
    pub fn is_below(&self, place: &Path) -> bool
        ensures { result ≡ is_below (path_view self.now) (path_view place.now) }
    {
        same_root(&self.root, &place.root)
            && leads_through(self.steps.as_slice(), place.steps.as_slice())
    }
}

fn same_root(left: &Root, right: &Root) -> bool
    ensures { result ≡ same_root (root_view left.now) (root_view right.now) }
{
    match (left, right) {
        (
            Root::Frame { frame, variable },
            Root::Frame {
                frame: other,
                variable: of_other,
            },
        ) => frame == other && variable == of_other,
        (Root::Project { variable }, Root::Project { variable: other }) => variable == other,
        (
            Root::Instance { object, field },
            Root::Instance {
                object: other,
                field: of_other,
            },
        ) => object == other && field == of_other,
        (
            Root::Block { frame, header },
            Root::Block {
                frame: other,
                header: of_other,
            },
        ) => frame == other && header == of_other,
        _ => false,
    }
}

fn same_step(left: PathStep, right: PathStep) -> bool
    ensures { result ≡ same_step left right }
{
    match (left, right) {
        (PathStep::Field(left), PathStep::Field(right)) => left == right,
        (PathStep::Element(left), PathStep::Element(right)) => left == right,
        _ => false,
    }
}

/// Whether steps lead to a place and from there through an array that can be replaced.
fn leads_through(steps: &[Step], place: &[Step]) -> bool
    ensures { result ≡ leads_through (map step_view steps.now) (map step_view place.now) }
{
    match place {
        [] => any_moves(steps),
        [first, place @ ..] => match steps {
            [] => false,
            [step, steps @ ..] => same_step(step.step, first.step) && leads_through(steps, place),
        },
    }
}

fn any_moves(steps: &[Step]) -> bool
    ensures { result ≡ any_moves (map step_view steps.now) }
{
    match steps {
        [] => false,
        [step, steps @ ..] => step.moves || any_moves(steps),
    }
}
