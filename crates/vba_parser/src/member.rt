//! Members of Types ([MS-VBAL] 5.2.3.3).

ghost use Rattle.std.specs.Prelude.{◌≡◌, IfOk, option_map};
ghost use Rattle.vba_grammar.specs.Clauses.{type_clause_at};
ghost use Rattle.vba_grammar.specs.Front.{whole_line};
ghost use Rattle.vba_grammar.specs.Lines as lines;
ghost use Rattle.vba_parser.specs.Headers.{member_of};
ghost use Rattle.vba_tree.specs.View.{type_clause_view, view};

use std::alloc::Global;
use vba_base::NoMemory;
use vba_clauses::{DimsPart, Expected, is_expected, read_name, read_part_if, read_type_clause};
use vba_tree::{LineTree, TypeClause, TypeMember};
use vba_words::{Identifier, ReadToken};

/// Does an `As` stand before the first colon?
pub fn has_as(tokens: &[ReadToken]) -> bool
    ensures { result ≡ lines.has_as tokens.now }
{
    let mut left = tokens;
    'tokens: while let [token, rest @ ..] = left {
        if is_expected(&token.reading, Expected::As) {
            return true;
        }
        if is_expected(&token.reading, Expected::Colon) {
            return false;
        }
        left = rest;
    }
    false
}

/// `name [([dims])] As type`
pub fn read_member(alloc: Global, tokens: &[ReadToken]) -> Result<Option<LineTree>, NoMemory>
    ensures { IfOk result (λ line. option_map view line ≡ lines.member_of_type tokens.now) }
{
    let Some((name, rest)) = read_name(alloc, tokens)? else {
        return Ok(None);
    };
    read_named_member(alloc, name, rest)
}

/// `[([dims])] As type`, behind the name of a member.
fn read_named_member(
    alloc: Global,
    name: Identifier,
    tokens: &[ReadToken],
) -> Result<Option<LineTree>, NoMemory>
    ensures { IfOk result (λ line. option_map view line ≡ member_of name tokens.now) }
{
    let Some((dims, rest)) = read_part_if::<DimsPart>(alloc, tokens, Expected::LeftParenthesis)?
    else {
        return Ok(None);
    };
    let Some(type_clause) = read_last_type(alloc, rest)? else {
        return Ok(None);
    };
    Ok(Some(LineTree::TypeMember(TypeMember {
        name,
        dims,
        type_clause,
    })))
}

/// `As type` at the end of a line.
fn read_last_type(alloc: Global, tokens: &[ReadToken]) -> Result<Option<TypeClause>, NoMemory>
    ensures { IfOk result (λ found. option_map type_clause_view found ≡ whole_line (type_clause_at tokens.now)) }
{
    let Some((type_clause, rest)) = read_type_clause(alloc, tokens)? else {
        return Ok(None);
    };
    if rest.is_empty() {
        Ok(Some(type_clause))
    } else {
        Ok(None)
    }
}
