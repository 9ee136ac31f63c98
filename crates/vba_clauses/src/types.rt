//! Types behind `As` ([MS-VBAL] 5.2.3.1.4).

ghost use Rattle.std.specs.Prelude.{◌≡◌, IfOk, option_map};
ghost use Rattle.vba_expression.specs.Reader.{short_type};
ghost use Rattle.vba_tree.specs.Tree as tree;
ghost use Rattle.vba_tree.specs.View.{declared_type_view, type_clause_view, new_type_clause_view};
ghost use Rattle.vba_grammar.specs.Clauses.{type_name_at, is_fixed, type_at, type_clause_at, new_type_clause_at};

use crate::expected::{Expected, is_expected};
use crate::front::{read_plain_name, read_token, read_word, skip_token};
use crate::part::Part;
use std::alloc::Global;
use vba_base::NoMemory;
use vba_expression::{TypeName, TypeQualifier, read_expression};
use vba_tree::{DeclaredType, NewTypeClause, TypeClause};
use vba_words::{Identifier, ReadToken, reads_word};

/// The name of a type at the front, and the tokens behind it: `name`, or `name.name` where a dot and a name stand behind
/// the first. No name of a type has a suffix.
pub fn read_type_name(
    alloc: Global,
    tokens: &[ReadToken],
) -> Result<Option<(TypeName, &[ReadToken])>, NoMemory>
    ensures { IfOk result (λ found. option_map (λ f. (f.0, f.1.now)) found ≡ type_name_at tokens.now) }
{
    let Some((first, rest)) = read_plain_name(alloc, tokens)? else {
        return Ok(None);
    };
    let Some((dot, behind)) = read_token(rest, Expected::Dot) else {
        return Ok(Some((one_name(first), rest)));
    };
    let Some((last, left)) = read_plain_name(alloc, behind)? else {
        return Ok(Some((one_name(first), rest)));
    };
    let class = TypeName {
        qualifier: Some(TypeQualifier { name: first, dot }),
        name: last,
    };
    Ok(Some((class, left)))
}

/// A type of one name.
fn one_name(name: Identifier) -> TypeName
    ensures { result ≡ short_type name }
{
    TypeName {
        qualifier: None,
        name,
    }
}

/// Does `String *` stand at the front?
pub(crate) fn is_fixed(tokens: &[ReadToken]) -> bool
    ensures { result ≡ is_fixed tokens.now }
{
    match tokens {
        [first, second, ..] => {
            reads_word(first, b"string") && is_expected(&second.reading, Expected::Times)
        }
        _ => false,
    }
}

/// The type at the front, and the tokens behind it: its name, or `String * length`.
pub fn read_type(
    alloc: Global,
    tokens: &[ReadToken],
) -> Result<Option<(DeclaredType, &[ReadToken])>, NoMemory>
    ensures { IfOk result (λ found. option_map (λ f. (declared_type_view f.0, f.1.now)) found ≡ type_at tokens.now) }
{
    if !is_fixed(tokens) {
        let Some((class, behind)) = read_type_name(alloc, tokens)? else {
            return Ok(None);
        };
        return Ok(Some((DeclaredType::Named(class), behind)));
    }
    let Some((string_word, rest)) = read_word(tokens, b"string") else {
        return Ok(None);
    };
    let Some((times, rest)) = read_token(rest, Expected::Times) else {
        return Ok(None);
    };
    let Some((length, behind)) = read_expression(alloc, rest)? else {
        return Ok(None);
    };
    let declared_type = DeclaredType::FixedText {
        string_word,
        times,
        length,
    };
    Ok(Some((declared_type, behind)))
}

/// `As type` at the front, and the tokens behind it.
pub fn read_type_clause(
    alloc: Global,
    tokens: &[ReadToken],
) -> Result<Option<(TypeClause, &[ReadToken])>, NoMemory>
    ensures { IfOk result (λ found. option_map (λ f. (type_clause_view f.0, f.1.now)) found ≡ type_clause_at tokens.now) }
{
    let Some((as_word, rest)) = read_token(tokens, Expected::As) else {
        return Ok(None);
    };
    let Some((declared_type, behind)) = read_type(alloc, rest)? else {
        return Ok(None);
    };
    let clause = TypeClause {
        as_word,
        declared_type,
    };
    Ok(Some((clause, behind)))
}

/// `As [New] type` at the front, and the tokens behind it.
pub fn read_new_type_clause(
    alloc: Global,
    tokens: &[ReadToken],
) -> Result<Option<(NewTypeClause, &[ReadToken])>, NoMemory>
    ensures { IfOk result (λ found. option_map (λ f. (new_type_clause_view f.0, f.1.now)) found ≡ new_type_clause_at tokens.now) }
{
    let Some((as_word, rest)) = read_token(tokens, Expected::As) else {
        return Ok(None);
    };
    let (new_word, class) = skip_token(rest, Expected::New);
    let Some((declared_type, behind)) = read_type(alloc, class)? else {
        return Ok(None);
    };
    let clause = NewTypeClause {
        as_word,
        new_word,
        declared_type,
    };
    Ok(Some((clause, behind)))
}

/// `As type`.
pub struct TypeClausePart;

impl Part for TypeClausePart {
    type Tree = TypeClause;

    ghost Plain = { tree.TypeClause };

    ghost plain_of = { type_clause_view };

    ghost part_at = { type_clause_at };

    fn read(
        alloc: Global,
        tokens: &[ReadToken],
    ) -> Result<Option<(TypeClause, &[ReadToken])>, NoMemory> {
        read_type_clause(alloc, tokens)
    }
}

/// `As [New] type`.
pub struct NewTypeClausePart;

impl Part for NewTypeClausePart {
    type Tree = NewTypeClause;

    ghost Plain = { tree.NewTypeClause };

    ghost plain_of = { new_type_clause_view };

    ghost part_at = { new_type_clause_at };

    fn read(
        alloc: Global,
        tokens: &[ReadToken],
    ) -> Result<Option<(NewTypeClause, &[ReadToken])>, NoMemory> {
        read_new_type_clause(alloc, tokens)
    }
}
