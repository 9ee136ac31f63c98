ghost use Rattle.std.specs.Prelude.{◌≡◌};
ghost use Rattle.vba_lib.specs.Names.{function_named, is_outside, is_outside_type};

use crate::table::{is_among, sought};
use vba_base::Name;

/// A function of the VBA library.
#[derive(Clone, Copy, Debug, PartialEq, Eq)]
pub enum LibraryFunction {
    Len,
    Left,
    Right,
    Mid,
    InStr,
    UCase,
    LCase,
    Trim,
    LTrim,
    RTrim,
    Space,
    String,
    ChrW,
    AscW,
    Chr,
    Asc,
    Replace,
    Split,
    Join,
    UBound,
    LBound,
    IsEmpty,
    IsNull,
    IsObject,
    IsArray,
    IsMissing,
    TypeName,
    VarType,
    Abs,
    Int,
    Fix,
    Sgn,
    Hex,
    Oct,
    StrComp,
    StrReverse,
    Array,
    IIf,
    CByte,
    CInt,
    CLng,
    CLngLng,
    CCur,
    CBool,
    CStr,
    CVar,
}

/// The functions in alphabetical order, each by its case fold.
const FUNCTIONS: [(&[u8], LibraryFunction); 46] = [
    (b"abs", LibraryFunction::Abs),
    (b"array", LibraryFunction::Array),
    (b"asc", LibraryFunction::Asc),
    (b"ascw", LibraryFunction::AscW),
    (b"cbool", LibraryFunction::CBool),
    (b"cbyte", LibraryFunction::CByte),
    (b"ccur", LibraryFunction::CCur),
    (b"chr", LibraryFunction::Chr),
    (b"chrw", LibraryFunction::ChrW),
    (b"cint", LibraryFunction::CInt),
    (b"clng", LibraryFunction::CLng),
    (b"clnglng", LibraryFunction::CLngLng),
    (b"cstr", LibraryFunction::CStr),
    (b"cvar", LibraryFunction::CVar),
    (b"fix", LibraryFunction::Fix),
    (b"hex", LibraryFunction::Hex),
    (b"iif", LibraryFunction::IIf),
    (b"instr", LibraryFunction::InStr),
    (b"int", LibraryFunction::Int),
    (b"isarray", LibraryFunction::IsArray),
    (b"isempty", LibraryFunction::IsEmpty),
    (b"ismissing", LibraryFunction::IsMissing),
    (b"isnull", LibraryFunction::IsNull),
    (b"isobject", LibraryFunction::IsObject),
    (b"join", LibraryFunction::Join),
    (b"lbound", LibraryFunction::LBound),
    (b"lcase", LibraryFunction::LCase),
    (b"left", LibraryFunction::Left),
    (b"len", LibraryFunction::Len),
    (b"ltrim", LibraryFunction::LTrim),
    (b"mid", LibraryFunction::Mid),
    (b"oct", LibraryFunction::Oct),
    (b"replace", LibraryFunction::Replace),
    (b"right", LibraryFunction::Right),
    (b"rtrim", LibraryFunction::RTrim),
    (b"sgn", LibraryFunction::Sgn),
    (b"space", LibraryFunction::Space),
    (b"split", LibraryFunction::Split),
    (b"strcomp", LibraryFunction::StrComp),
    (b"string", LibraryFunction::String),
    (b"strreverse", LibraryFunction::StrReverse),
    (b"trim", LibraryFunction::Trim),
    (b"typename", LibraryFunction::TypeName),
    (b"ubound", LibraryFunction::UBound),
    (b"ucase", LibraryFunction::UCase),
    (b"vartype", LibraryFunction::VarType),
];

/// The function with this name, which is written without `$`.
pub fn library_named(name: &Name) -> Option<LibraryFunction>
    ensures { result ≡ function_named name.now }
{
    sought(&FUNCTIONS, name.units())
}

/// Functions that VBA has and this library hasn't, in alphabetical order, each by its case fold.
const OUTSIDE_FUNCTIONS: [&[u8]; 49] = [
    b"atn",
    b"cdate",
    b"cdbl",
    b"cdec",
    b"command",
    b"cos",
    b"createobject",
    b"csng",
    b"cverr",
    b"dateadd",
    b"datediff",
    b"datepart",
    b"dateserial",
    b"datevalue",
    b"day",
    b"dir",
    b"doevents",
    b"environ",
    b"exp",
    b"format",
    b"formatcurrency",
    b"formatnumber",
    b"getobject",
    b"hour",
    b"inputbox",
    b"isdate",
    b"iserror",
    b"isnumeric",
    b"log",
    b"minute",
    b"month",
    b"msgbox",
    b"now",
    b"randomize",
    b"rnd",
    b"round",
    b"second",
    b"shell",
    b"sin",
    b"sqr",
    b"str",
    b"tan",
    b"time",
    b"timer",
    b"timeserial",
    b"timevalue",
    b"val",
    b"weekday",
    b"year",
];

/// Whether VBA has a function with this name, and this library hasn't.
pub fn is_outside_name(name: &Name) -> bool
    ensures { result ≡ is_outside name.now }
{
    is_among(&OUTSIDE_FUNCTIONS, name.units())
}

/// Types that VBA has and this library hasn't, in alphabetical order, each by its case fold.
const OUTSIDE_TYPES: [&[u8]; 4] = [b"date", b"decimal", b"double", b"single"];

/// Whether VBA has a type with this name, and this library hasn't.
pub fn is_outside_type(name: &Name) -> bool
    ensures { result ≡ is_outside_type name.now }
{
    is_among(&OUTSIDE_TYPES, name.units())
}
