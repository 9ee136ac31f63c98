// What stands outside of a project, by the case folds of names.
ghost use Rattle.std.specs.Prelude.{◌≡◌, false, is_some};
ghost use Rattle.vba_lib.specs.Names.{constant_named, function_named};
ghost use Rattle.declared_names.specs.Outside.{is_host_name, is_left_out_name, is_library_name, is_text_function};

use crate::words::{is_among, is_word};
use vba_base::Name;
use vba_lib::{has_text_form, is_outside_name, is_outside_type, library_named};

/// The names of the host that stand by themselves.
const HOST_NAMES: [&[u8]; 10] = [
    b"application",
    b"thisworkbook",
    b"activeworkbook",
    b"worksheets",
    b"sheets",
    b"activesheet",
    b"cells",
    b"range",
    b"err",
    b"debug",
];

/// The names of the library's constants, in alphabetical order.
const CONSTANT_NAMES: [&[u8]; 24] = [
    b"vbarray",
    b"vbbinarycompare",
    b"vbboolean",
    b"vbbyte",
    b"vbcr",
    b"vbcrlf",
    b"vbcurrency",
    b"vbempty",
    b"vberror",
    b"vbfalse",
    b"vbinteger",
    b"vblf",
    b"vblong",
    b"vblonglong",
    b"vbnewline",
    b"vbnull",
    b"vbnullstring",
    b"vbobject",
    b"vbobjecterror",
    b"vbstring",
    b"vbtab",
    b"vbtextcompare",
    b"vbtrue",
    b"vbvariant",
];

/// Is a name the host's?
pub fn is_host_name(name: &Name) -> bool
    ensures { result ≡ is_host_name name.now }
{
    is_among(&HOST_NAMES, name.units())
}

/// Is a name that of a constant of the library?
pub fn is_constant_name(name: &Name) -> bool
    ensures { result ≡ is_some (constant_named name.now) }
{
    is_among(&CONSTANT_NAMES, name.units())
}

/// Is a name that of a function that is written with `$`?
fn is_text_function(name: &Name) -> bool
    ensures { result ≡ is_text_function (function_named name.now) }
{
    match library_named(name) {
        None => false,
        Some(function) => has_text_form(function),
    }
}

/// Is a name without `$` the library's, also where VBA has it and this library hasn't?
fn is_plain_library_name(name: &Name) -> bool
    ensures { result ≡ is_library_name name.now false }
{
    library_named(name).is_some()
        || is_constant_name(name)
        || is_outside_name(name)
        || is_outside_type(name)
        || is_word(name.units(), b"error")
}

/// Is a name the library's, with `$` or without?
pub fn is_library_name(name: &Name, has_dollar: bool) -> bool
    ensures { result ≡ is_library_name name.now has_dollar }
{
    if has_dollar {
        is_text_function(name) || is_outside_name(name)
    } else {
        is_plain_library_name(name)
    }
}

/// Is a name that of a function or a type of VBA that the language leaves out?
pub fn is_left_out_name(name: &Name) -> bool
    ensures { result ≡ is_left_out_name name.now }
{
    is_outside_name(name) || is_outside_type(name)
}
