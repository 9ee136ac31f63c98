//! Attribute lines ([MS-VBAL] 4.2).

ghost use Rattle.std.specs.Prelude.{◌≡◌, IfOk, option_map};
ghost use Rattle.vba_expression.specs.Parts.{part_of, keyword_part};
ghost use Rattle.vba_words.specs.declared.identifier.Identifier.{Identifier};
ghost use Rattle.vba_grammar.specs.Front.{name_at};
ghost use Rattle.vba_grammar.specs.Lines.{attribute_value_at, attribute_of};
ghost use Rattle.vba_parser.specs.Values.{attribute_literal_of};
ghost use Rattle.vba_tree.specs.View.{view};
ghost use Rattle.vba_tree.specs.declared.line.AttributeValue.{AttributeValue};

use std::alloc::Global;
use vba_base::{NoMemory, Units};
use vba_clauses::{Expected, Part, read_commas, read_listed, read_name, read_token, skip_token};
use vba_expression::{Literal, LiteralValue};
use vba_lexer::Token;
use vba_tree::{AttributeLine, AttributeValue, LineTree};
use vba_words::{Identifier, Keyword, ReadToken, Reading};

/// A name.
pub struct NamePart;

impl Part for NamePart {
    type Tree = Identifier;

    ghost Plain = { Identifier };

    ghost plain_of = { λ name. name };

    ghost part_at = { name_at };

    fn read(
        alloc: Global,
        tokens: &[ReadToken],
    ) -> Result<Option<(Identifier, &[ReadToken])>, NoMemory> {
        read_name(alloc, tokens)
    }
}

/// A value of an attribute.
pub struct AttributeValuePart;

impl Part for AttributeValuePart {
    type Tree = AttributeValue;

    ghost Plain = { AttributeValue };

    ghost plain_of = { λ value. value };

    ghost part_at = { attribute_value_at };

    fn read(
        alloc: Global,
        tokens: &[ReadToken],
    ) -> Result<Option<(AttributeValue, &[ReadToken])>, NoMemory> {
        read_attribute_value(alloc, tokens)
    }
}

/// `[-] literal`
fn read_attribute_value(
    alloc: Global,
    tokens: &[ReadToken],
) -> Result<Option<(AttributeValue, &[ReadToken])>, NoMemory>
    ensures { IfOk result (λ found. option_map (λ f. (f.0, f.1.now)) found ≡ attribute_value_at tokens.now) }
{
    let (minus, signed) = skip_token(tokens, Expected::Minus);
    let [token, rest @ ..] = signed else {
        return Ok(None);
    };
    let Some(value) = attribute_literal(alloc, minus, token)? else {
        return Ok(None);
    };
    let literal = Literal {
        token: token.token,
        value,
    };
    Ok(Some((AttributeValue { minus, literal }, rest)))
}

/// The literal of a value of an attribute: a number or a text, and without a minus True and False too.
fn attribute_literal(
    alloc: Global,
    minus: Option<Token>,
    token: &ReadToken,
) -> Result<Option<LiteralValue>, NoMemory>
    ensures { IfOk result (λ value. value ≡ attribute_literal_of minus (part_of token.now)) }
{
    match &token.reading {
        Reading::Number { number, is_plain } => Ok(Some(LiteralValue::Number {
            number: *number,
            is_plain: *is_plain,
        })),
        Reading::Text(text) => Ok(Some(LiteralValue::Text(Units::from_units(
            alloc,
            text.units(),
        )?))),
        Reading::Keyword(keyword) => Ok(value_word(minus, *keyword)),
        Reading::Name { .. } | Reading::Mark(_) | Reading::Other => Ok(None),
    }
}

/// The word that is a value of an attribute.
fn value_word(minus: Option<Token>, keyword: Keyword) -> Option<LiteralValue>
    ensures { result ≡ attribute_literal_of minus (keyword_part keyword) }
{
    match (keyword, minus) {
        (Keyword::True, None) => Some(LiteralValue::True),
        (Keyword::False, None) => Some(LiteralValue::False),
        _ => None,
    }
}

/// `Attribute name{.name} = value, ..`, behind its first word.
pub fn read_attribute(
    alloc: Global,
    attribute_word: Token,
    tokens: &[ReadToken],
) -> Result<Option<LineTree>, NoMemory>
    ensures { IfOk result (λ line. option_map view line ≡ attribute_of attribute_word tokens.now) }
{
    let Some((names, rest)) = read_listed::<NamePart>(alloc, tokens, Expected::Dot)? else {
        return Ok(None);
    };
    let Some((equal, rest)) = read_token(rest, Expected::Equal) else {
        return Ok(None);
    };
    let Some((values, rest)) = read_commas::<AttributeValuePart>(alloc, rest)? else {
        return Ok(None);
    };
    if !rest.is_empty() {
        return Ok(None);
    }
    Ok(Some(LineTree::Attribute(AttributeLine {
        attribute_word,
        names,
        equal,
        values,
    })))
}
