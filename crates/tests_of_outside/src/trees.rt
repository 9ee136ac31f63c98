//! Trees are not let go here but forgotten: so this crate needn't prove again how a tree of each kind is dropped.

use module_parser::{check_module, parse_module};
use std::alloc::Global;
use std::mem;
use std::process::Abort;
use std::test::Fail;
use vba_base::{NoMemory, OrMemory, Place, Refusal, Units};
use vba_lexer::{Token, TokenKind, lex};
use vba_parser::parse_line;
use vba_tree::spell;

/// The source of a text.
fn source_of(alloc: Global, text: &str) -> Result<Units, NoMemory> {
    let units: Vec<u16> = text.encode_utf16().collect(alloc)?;
    Units::from_units(alloc, units.as_slice())
}

/// Whether a text's first line has a tree.
fn has_tree(alloc: Global, text: &str) -> Result<bool, Fail> {
    let source = source_of(alloc, text)?;
    if source.units().len() > 67108864 {
        return Err(Fail::from("too long"));
    }
    let lines = lex(alloc, &source, 1)?;
    let Some(line) = lines.first() else {
        return Err(Fail::from("no line"));
    };
    match parse_line(alloc, &source, line) {
        Ok(tree) => {
            mem::forget(tree);
            Ok(true)
        }
        Err(_) => Ok(false),
    }
}

/// Whether the tree of a text's first line spells just the tokens of that line.
fn is_spelled(alloc: Global, text: &str) -> Result<bool, Fail> {
    let source = source_of(alloc, text)?;
    if source.units().len() > 67108864 {
        return Err(Fail::from("too long"));
    }
    let lines = lex(alloc, &source, 1)?;
    let Some(line) = lines.first() else {
        return Err(Fail::from("no line"));
    };
    match parse_line(alloc, &source, line) {
        Ok(tree) => {
            let tokens = spell(alloc, &tree);
            mem::forget(tree);
            Ok(tokens?.as_slice() == line.tokens.as_slice())
        }
        Err(_) => Ok(false),
    }
}

#[test]
fn trees_spell_their_lines(rt: HostRuntime) -> Result<(), Fail> {
    for text in [
        "Option Compare Text",
        "Attribute m.VB_UserMemId = -4, True",
        "Private Enum E",
        "End Type",
        "a(1 To 2, 3) As String * 5",
        "Public Event Changed(ByVal a As Long)",
        "Friend Static Property Get P(Optional ByVal a = 1, ParamArray b()) As String()",
        "End Property",
        "10: Dim a As New M.C, b(3): Const c As Long = 1, d = 2: ReDim Preserve e(1 To 2) As Byte, f.g(3): Erase a, b",
        "x: If a Then b 1, , c:=2: : Set d = New E Else Call f.g(.h): On Error GoTo -1: Resume Next: RaiseEvent i(1)",
        "Debug.Print TypeOf a Is B.C; -(1 + 2) * 3 ^ e, Not Me.d(Null)(\"x\");: GoSub 10: Exit Sub: Stop",
        "If a Then: ElseIf b Then: Else: End If: Select Case c: Case 1, 2 To 3, Is > 4: Case Else: End Select",
        "For i = 1 To 2 Step 3: Next i: For Each j In k: Next: Do While l: Loop Until m",
        "While n: Wend: With o: End With: Do: Loop",
    ] {
        assert!(rt; is_spelled(rt.alloc(), text)?, "{text}");
    }
    Ok(())
}

/// Whether a line of so many repeated parts between a beginning and an end has a tree.
fn is_long_line_read(alloc: Global, parts: [&str; 3], count: u32) -> Result<bool, Fail> {
    let [opening, part, closing] = parts;
    let mut text = String::from_str(alloc, "x = ")?;
    for _ in 0..count {
        text.push_str(opening)?;
    }
    text.push_str(part)?;
    for _ in 0..count {
        text.push_str(closing)?;
    }
    has_tree(alloc, text.as_str())
}

#[test]
fn reading_takes_no_stack(rt: HostRuntime) -> Result<(), Fail> {
    assert!(rt; is_long_line_read(rt.alloc(), ["(", "a", ")"], 10_000)?);
    assert!(rt; is_long_line_read(rt.alloc(), ["1 + ", "1", ""], 10_000)?);
    Ok(())
}

/// How many parts stand outside of all brackets of a module, where it breaks no rule.
fn parsed(alloc: Global, text: &str) -> Result<Option<usize>, Fail> {
    let source = source_of(alloc, text)?;
    if source.units().len() > 67108864 {
        return Err(Fail::from("too long"));
    }
    let lines = lex(alloc, &source, 1)?;
    match parse_module(alloc, &source, lines.as_slice(), false) {
        Ok(tree) => {
            let count = tree.nodes.len();
            mem::forget(tree);
            Ok(Some(count))
        }
        Err(OrMemory::Fault(_)) => Ok(None),
        Err(OrMemory::NoMemory) => Err(Fail::from("no memory")),
    }
}

#[test]
fn modules_have_trees(rt: HostRuntime) -> Result<(), Fail> {
    let whole =
        "Option Explicit\nEnum E\nA\nEnd Enum\nSub Main()\nIf a Then\nElse\nFor i = 1 To 2: x: Next\nEnd If\nEnd Sub";
    assert_eq!(rt; parsed(rt.alloc(), whole)?, Some(3));
    assert_eq!(rt; parsed(rt.alloc(), "Sub Main()\nElse\nEnd Sub")?, None);
    Ok(())
}

/// The rule that a class breaks, and where.
fn broken_in_class(alloc: Global, text: &str) -> Result<Option<(u8, u32, u32)>, Fail> {
    let source = source_of(alloc, text)?;
    if source.units().len() > 67108864 {
        return Err(Fail::from("too long"));
    }
    let lines = lex(alloc, &source, 1)?;
    match check_module(alloc, &source, lines.as_slice(), true) {
        Ok(()) => Ok(None),
        Err(OrMemory::Fault(Refusal { rule, place })) => Ok(Some((rule, place.line, place.column))),
        Err(OrMemory::NoMemory) => Err(Fail::from("no memory")),
    }
}

/// What a class may have otherwise than a standard module. No list of modules is read yet, so no command reaches it.
#[test]
fn classes(rt: HostRuntime) -> Result<(), Fail> {
    for (text, wanted) in [
        (
            "Private WithEvents c As D\nEvent E()\nPublic Event F(a)",
            None,
        ),
        (
            "Private Type T\nn As Long\nEnd Type\nPublic Enum E\na\nEnd Enum",
            None,
        ),
        ("Public Type T\nn As Long\nEnd Type", Some((12, 1, 1))),
        ("Type T\nn As Long\nEnd Type", Some((12, 1, 1))),
        ("Event E(ByVal a() As Long)", Some((14, 1, 9))),
        ("Sub a()\nDim WithEvents b As C\nEnd Sub", Some((12, 2, 5))),
    ] {
        assert_eq!(rt; broken_in_class(rt.alloc(), text)?, wanted, "{text}");
    }
    Ok(())
}

/// A word of one unit.
fn word(start: u32, end: u32) -> Token {
    Token {
        kind: TokenKind::Word,
        start,
        end,
        place: Place {
            module: 1,
            line: 1,
            column: 1,
        },
    }
}
