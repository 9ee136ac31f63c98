// The types that no project declares.
ghost use Rattle.std.specs.Prelude.{◌≡◌, map, option_map};
ghost use Rattle.binder.specs.Types.{in_profile, profile};
ghost use Rattle.declared_names.specs.View.{type_meant_view};

use crate::scope::TypeMeant;
use crate::words::is_written;
use bound_project::{DeclaredType, ElementType};
use vba_base::Name;

/// The profile's types, and those of the host and those that are left out, by their case folds.
const PROFILE: [(&[u8], TypeMeant); 21] = [
    (
        b"boolean",
        TypeMeant::Known(DeclaredType::Plain(ElementType::Boolean)),
    ),
    (
        b"byte",
        TypeMeant::Known(DeclaredType::Plain(ElementType::Byte)),
    ),
    (
        b"integer",
        TypeMeant::Known(DeclaredType::Plain(ElementType::Integer)),
    ),
    (
        b"long",
        TypeMeant::Known(DeclaredType::Plain(ElementType::Long)),
    ),
    (
        b"longlong",
        TypeMeant::Known(DeclaredType::Plain(ElementType::LongLong)),
    ),
    (
        b"longptr",
        TypeMeant::Known(DeclaredType::Plain(ElementType::LongLong)),
    ),
    (
        b"currency",
        TypeMeant::Known(DeclaredType::Plain(ElementType::Currency)),
    ),
    (
        b"string",
        TypeMeant::Known(DeclaredType::Plain(ElementType::Text)),
    ),
    (
        b"variant",
        TypeMeant::Known(DeclaredType::Plain(ElementType::Variant)),
    ),
    (
        b"object",
        TypeMeant::Known(DeclaredType::Plain(ElementType::Object)),
    ),
    (
        b"collection",
        TypeMeant::Known(DeclaredType::Plain(ElementType::Collection)),
    ),
    (
        b"worksheet",
        TypeMeant::Known(DeclaredType::Plain(ElementType::Worksheet)),
    ),
    (
        b"range",
        TypeMeant::Known(DeclaredType::Plain(ElementType::Range)),
    ),
    (
        b"iunknown",
        TypeMeant::Known(DeclaredType::Plain(ElementType::Object)),
    ),
    (b"application", TypeMeant::OfHost),
    (b"workbook", TypeMeant::OfHost),
    (b"sheets", TypeMeant::OfHost),
    (b"double", TypeMeant::LeftOut),
    (b"single", TypeMeant::LeftOut),
    (b"date", TypeMeant::LeftOut),
    (b"decimal", TypeMeant::LeftOut),
];

/// What stands beside a name in a table of types.
fn sought(mut table: &[(&[u8], TypeMeant)], name: &Name) -> Option<TypeMeant>
    ensures { option_map type_meant_view result
        ≡ in_profile (map (λ row. (row.0.now, type_meant_view row.1)) table.entry.now) name.now }
{
    while let [row, rest @ ..] = table {
        if is_written(row.0, name.units()) {
            return Some(row.1);
        }
        table = rest;
    }
    None
}

/// What a name means as a type that no project declares.
pub(crate) fn in_profile(name: &Name) -> Option<TypeMeant>
    ensures { option_map type_meant_view result ≡ in_profile profile name.now }
{
    sought(&PROFILE, name)
}
