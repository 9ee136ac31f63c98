//! Reading the lines of If, Select and With blocks, behind their first word ([MS-VBAL] 5.4.2.8, 5.4.2.10, 5.4.2.21).

ghost use Rattle.std.specs.Prelude.{◌≡◌, IfOk, option_map};
ghost use Rattle.vba_words.specs.declared.reading.Reading.TheVariants as readings;
ghost use Rattle.vba_expression.specs.Parts.{part_of, mark_part};
ghost use Rattle.vba_tree.specs.Tree as tree;
ghost use Rattle.vba_tree.specs.View.{test_view, block_line_view, simple_view};
ghost use Rattle.vba_grammar.specs.Front.{found_as, whole_at};
ghost use Rattle.vba_grammar.specs.Blocks.{comparison_of, compared_at, range_at, test_at, case_at, else_if_at, block_end};
ghost use Rattle.vba_grammar.specs.Statements.{as_block, end_at};
ghost use Rattle.vba_statements.specs.Kept.{select_at};

use std::alloc::Global;
use vba_base::NoMemory;
use vba_clauses::{Expected, Part, read_commas, read_token};
use vba_expression::{BinaryOperator, read_expression};
use vba_lexer::Token;
use vba_tree::{BlockLine, CaseTest, SimpleStatement};
use vba_words::{Keyword, Mark, ReadToken, Reading};

/// The comparison that a mark is.
fn comparison_mark(mark: Mark) -> Option<BinaryOperator>
    ensures { result ≡ comparison_of (mark_part mark) }
{
    match mark {
        Mark::Equal => Some(BinaryOperator::Equal),
        Mark::NotEqual => Some(BinaryOperator::NotEqual),
        Mark::Less => Some(BinaryOperator::Less),
        Mark::Greater => Some(BinaryOperator::Greater),
        Mark::LessEqual => Some(BinaryOperator::LessEqual),
        Mark::GreaterEqual => Some(BinaryOperator::GreaterEqual),
        _ => None,
    }
}

/// The comparison that a token is.
#[tactic(auto, using(crate::proofs::Words::no_keyword_compares))]
fn comparison_of(token: &ReadToken) -> Option<BinaryOperator>
    ensures { result ≡ comparison_of (part_of token.now) }
{
    match &token.reading {
        Reading::Mark(mark) => comparison_mark(*mark),
        Reading::Keyword(_) => None,
        Reading::Name { .. } | Reading::Number { .. } | Reading::Text(_) | Reading::Other => None,
    }
}

/// A comparison behind `Is`, and the value compared with.
fn read_compared(
    alloc: Global,
    is_word: Token,
    tokens: &[ReadToken],
) -> Result<Option<(CaseTest, &[ReadToken])>, NoMemory>
    ensures { IfOk result (λ found. option_map (λ f. (test_view f.0, f.1.now)) found ≡ compared_at is_word tokens.now) }
{
    let [token, rest @ ..] = tokens else {
        return Ok(None);
    };
    let Some(operator) = comparison_of(token) else {
        return Ok(None);
    };
    let Some((value, behind)) = read_expression(alloc, rest)? else {
        return Ok(None);
    };
    let test = CaseTest::Comparison {
        is_word,
        operator,
        operator_token: token.token,
        value,
    };
    Ok(Some((test, behind)))
}

/// A value, and `To` with the high end where it is written.
fn read_range(
    alloc: Global,
    tokens: &[ReadToken],
) -> Result<Option<(CaseTest, &[ReadToken])>, NoMemory>
    ensures { IfOk result (λ found. option_map (λ f. (test_view f.0, f.1.now)) found ≡ range_at tokens.now) }
{
    let Some((low, rest)) = read_expression(alloc, tokens)? else {
        return Ok(None);
    };
    let Some((to_word, behind)) = read_token(rest, Expected::To) else {
        return Ok(Some((CaseTest::Value(low), rest)));
    };
    let Some((high, left)) = read_expression(alloc, behind)? else {
        return Ok(None);
    };
    Ok(Some((CaseTest::Range { low, to_word, high }, left)))
}

/// A test of a `Case` line: `value`, `low To high` or `Is < value`.
fn read_test(
    alloc: Global,
    tokens: &[ReadToken],
) -> Result<Option<(CaseTest, &[ReadToken])>, NoMemory>
    ensures { IfOk result (λ found. option_map (λ f. (test_view f.0, f.1.now)) found ≡ test_at tokens.now) }
{
    match read_token(tokens, Expected::Is) {
        Some((is_word, rest)) => read_compared(alloc, is_word, rest),
        None => read_range(alloc, tokens),
    }
}

/// The tests of a `Case` line.
struct TestPart;

impl Part for TestPart {
    type Tree = CaseTest;

    ghost Plain = { tree.CaseTest };

    ghost plain_of = { test_view };

    ghost part_at = { test_at };

    fn read(
        alloc: Global,
        tokens: &[ReadToken],
    ) -> Result<Option<(CaseTest, &[ReadToken])>, NoMemory> {
        read_test(alloc, tokens)
    }
}

/// Behind `Case`: `Else`, or tests.
pub fn read_case(
    alloc: Global,
    case_word: Token,
    tokens: &[ReadToken],
) -> Result<Option<(SimpleStatement, &[ReadToken])>, NoMemory>
    ensures { IfOk result (λ found. option_map (λ f. (simple_view f.0, f.1.now)) found ≡ as_block (case_at case_word tokens.now)) }
{
    if let Some((else_word, rest)) = read_token(tokens, Expected::Else) {
        let line = BlockLine::CaseElse {
            case_word,
            else_word,
        };
        return Ok(Some((SimpleStatement::BlockLine(line), rest)));
    }
    let Some((tests, rest)) = read_commas::<TestPart>(alloc, tokens)? else {
        return Ok(None);
    };
    let line = BlockLine::Case { case_word, tests };
    Ok(Some((SimpleStatement::BlockLine(line), rest)))
}

/// Behind `ElseIf`: a condition and `Then`.
pub fn read_else_if(
    alloc: Global,
    else_if_word: Token,
    tokens: &[ReadToken],
) -> Result<Option<(SimpleStatement, &[ReadToken])>, NoMemory>
    ensures { IfOk result (λ found. option_map (λ f. (simple_view f.0, f.1.now)) found ≡ as_block (else_if_at else_if_word tokens.now)) }
{
    let Some((condition, rest)) = read_expression(alloc, tokens)? else {
        return Ok(None);
    };
    let Some((then_word, behind)) = read_token(rest, Expected::Then) else {
        return Ok(None);
    };
    let line = BlockLine::ElseIf {
        else_if_word,
        condition,
        then_word,
    };
    Ok(Some((SimpleStatement::BlockLine(line), behind)))
}

/// Behind `Select`: `Case` and the value that is tested.
pub fn read_select(
    alloc: Global,
    select_word: Token,
    tokens: &[ReadToken],
) -> Result<Option<(SimpleStatement, &[ReadToken])>, NoMemory>
    ensures { IfOk result (λ found. option_map (λ f. (simple_view f.0, f.1.now)) found ≡ select_at select_word tokens.now) }
{
    let Some((case_word, rest)) = read_token(tokens, Expected::Case) else {
        return Ok(None);
    };
    let Some((value, behind)) = read_expression(alloc, rest)? else {
        return Ok(None);
    };
    let line = BlockLine::SelectCase {
        select_word,
        case_word,
        value,
    };
    Ok(Some((SimpleStatement::BlockLine(line), behind)))
}

/// Behind `With`: the object or value of the block.
pub fn read_with(
    alloc: Global,
    with_word: Token,
    tokens: &[ReadToken],
) -> Result<Option<(SimpleStatement, &[ReadToken])>, NoMemory>
    ensures { IfOk result (λ found. option_map (λ f. (simple_view f.0, f.1.now)) found
        ≡ found_as (λ e. tree.block_line (tree.with_line with_word e)) (whole_at tokens.now)) }
{
    let Some((object, rest)) = read_expression(alloc, tokens)? else {
        return Ok(None);
    };
    let line = BlockLine::With { with_word, object };
    Ok(Some((SimpleStatement::BlockLine(line), rest)))
}

/// The end of a block behind `End`, by the word that stands there.
fn block_end(end_word: Token, token: &ReadToken) -> Option<BlockLine>
    ensures { option_map block_line_view result ≡ block_end end_word token.now.token token.now.reading }
{
    match &token.reading {
        Reading::Keyword(keyword) => block_end_by(end_word, token.token, *keyword),
        Reading::Name { .. }
        | Reading::Number { .. }
        | Reading::Text(_)
        | Reading::Mark(_)
        | Reading::Other => None,
    }
}

fn block_end_by(end_word: Token, token: Token, keyword: Keyword) -> Option<BlockLine>
    ensures { option_map block_line_view result ≡ block_end end_word token (readings.Keyword keyword) }
{
    match keyword {
        Keyword::If => Some(BlockLine::EndIf {
            end_word,
            if_word: token,
        }),
        Keyword::Select => Some(BlockLine::EndSelect {
            end_word,
            select_word: token,
        }),
        Keyword::With => Some(BlockLine::EndWith {
            end_word,
            with_word: token,
        }),
        _ => None,
    }
}

/// Behind `End`: the end of a block; or nothing, and the program ends there.
pub fn read_end(end_word: Token, tokens: &[ReadToken]) -> Option<(SimpleStatement, &[ReadToken])>
    ensures { option_map (λ f. (simple_view f.0, f.1.now)) result ≡ end_at end_word tokens.now }
{
    let [token, rest @ ..] = tokens else {
        return Some((SimpleStatement::End(end_word), tokens));
    };
    match block_end(end_word, token) {
        Some(line) => Some((SimpleStatement::BlockLine(line), rest)),
        None => Some((SimpleStatement::End(end_word), tokens)),
    }
}
