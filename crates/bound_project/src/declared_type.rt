ghost use Rattle.std.specs.Prelude.{◌≡◌, IfOk};
ghost use Rattle.vba_values.specs.Types.{declared};
ghost use Rattle.bound_project.specs.View.{element_view, declared_view};

use std::alloc::Global;
use vba_base::NoMemory;
use vba_values::VType;

/// A declared type that is no array's. `Class(n)` is the n-th class module of the project, from 1; `UserType(n)` is
/// place n, from 0, of the list of Types; `FixedText(n)` has n units.
#[derive(Clone, Copy)]
pub enum ElementType {
    Boolean,
    Byte,
    Integer,
    Long,
    LongLong,
    Currency,
    Text,
    FixedText(u16),
    Object,
    Class(u32),
    Collection,
    Worksheet,
    Range,
    Variant,
    UserType(u32),
}

/// A declared type: one of the types of elements, or an array of it.
#[derive(Clone, Copy)]
pub enum DeclaredType {
    Plain(ElementType),
    ArrayOf(ElementType),
}

impl ElementType {
    /// The same type, as values know it.
    pub fn value_type(self) -> VType
        ensures { declared result ≡ element_view self }
    {
        match self {
            ElementType::Boolean => VType::Boolean,
            ElementType::Byte => VType::Byte,
            ElementType::Integer => VType::Integer,
            ElementType::Long => VType::Long,
            ElementType::LongLong => VType::LongLong,
            ElementType::Currency => VType::Currency,
            ElementType::Text => VType::Text,
            ElementType::FixedText(size) => VType::FixedText(size),
            ElementType::Object => VType::Object,
            ElementType::Class(number) => VType::Class(number),
            ElementType::Collection => VType::Collection,
            ElementType::Worksheet => VType::Worksheet,
            ElementType::Range => VType::Range,
            ElementType::Variant => VType::Variant,
            ElementType::UserType(place) => VType::Udt(place),
        }
    }
}

impl DeclaredType {
    /// The same type, as values know it. Only an array's type takes memory.
    pub fn value_type(self, alloc: Global) -> Result<VType, NoMemory>
        ensures { IfOk result (λ of. declared of ≡ declared_view self) }
    {
        match self {
            DeclaredType::Plain(of) => Ok(of.value_type()),
            DeclaredType::ArrayOf(element) => {
                let element = Box::new(alloc, element.value_type())?;
                Ok(VType::ArrayOf(element))
            }
        }
    }
}
