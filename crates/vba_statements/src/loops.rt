//! Reading the lines of For, Do and While blocks, behind their first word ([MS-VBAL] 5.4.2.2 to 5.4.2.7).

ghost use Rattle.std.specs.Prelude.{◌≡◌, IfOk, codes, option_map, if◌then◌else◌};
ghost use Rattle.vba_tree.specs.Tree as tree;
ghost use Rattle.vba_tree.specs.View.{step_view, loop_condition_view, simple_view};
ghost use Rattle.vba_grammar.specs.Front.{found_as, begins, reads, name_at, whole_at, part_if};
ghost use Rattle.vba_grammar.specs.Blocks.{step_at, is_each, for_at, for_each_at, loop_word_of, loop_condition_if, is_name};
ghost use Rattle.vba_grammar.specs.Statements.{as_block};
ghost use Rattle.vba_statements.specs.Kept.{for_range_at};

use std::alloc::Global;
use vba_base::NoMemory;
use vba_clauses::{Expected, begins_with, read_name, read_token, read_word};
use vba_expression::read_expression;
use vba_lexer::Token;
use vba_tree::{BlockLine, LoopCondition, LoopWord, SimpleStatement, StepClause};
use vba_words::{Identifier, Keyword, ReadToken, Reading};

/// `Step` and its value, where they are written.
fn read_step_if(
    alloc: Global,
    tokens: &[ReadToken],
) -> Result<Option<(Option<StepClause>, &[ReadToken])>, NoMemory>
    ensures { IfOk result (λ found. option_map (λ f. (option_map step_view f.0, f.1.now)) found
        ≡ part_if (reads (codes "step")) step_at tokens.now) }
{
    let Some((step_word, rest)) = read_word(tokens, b"step") else {
        return Ok(Some((None, tokens)));
    };
    let Some((value, behind)) = read_expression(alloc, rest)? else {
        return Ok(None);
    };
    Ok(Some((Some(StepClause { step_word, value }), behind)))
}

/// Behind `For`: `counter = start To limit [Step value]`.
fn read_for(
    alloc: Global,
    for_word: Token,
    tokens: &[ReadToken],
) -> Result<Option<(SimpleStatement, &[ReadToken])>, NoMemory>
    ensures { IfOk result (λ found. option_map (λ f. (simple_view f.0, f.1.now)) found ≡ as_block (for_at for_word tokens.now)) }
{
    let Some((counter, behind_counter)) = read_name(alloc, tokens)? else {
        return Ok(None);
    };
    let Some((equal, behind_equal)) = read_token(behind_counter, Expected::Equal) else {
        return Ok(None);
    };
    read_for_range(alloc, for_word, counter, equal, behind_equal)
}

/// Behind `For counter =`: `start To limit [Step value]`.
fn read_for_range(
    alloc: Global,
    for_word: Token,
    counter: Identifier,
    equal: Token,
    tokens: &[ReadToken],
) -> Result<Option<(SimpleStatement, &[ReadToken])>, NoMemory>
    ensures { IfOk result (λ found. option_map (λ f. (simple_view f.0, f.1.now)) found
        ≡ as_block (for_range_at for_word counter equal tokens.now)) }
{
    let Some((start, behind_start)) = read_expression(alloc, tokens)? else {
        return Ok(None);
    };
    let Some((to_word, behind_to)) = read_token(behind_start, Expected::To) else {
        return Ok(None);
    };
    let Some((limit, behind_limit)) = read_expression(alloc, behind_to)? else {
        return Ok(None);
    };
    let Some((step, rest)) = read_step_if(alloc, behind_limit)? else {
        return Ok(None);
    };
    let line = BlockLine::For {
        for_word,
        counter,
        equal,
        start,
        to_word,
        limit,
        step,
    };
    Ok(Some((SimpleStatement::BlockLine(line), rest)))
}

/// Behind `For`: `Each element In group`.
fn read_for_each(
    alloc: Global,
    for_word: Token,
    tokens: &[ReadToken],
) -> Result<Option<(SimpleStatement, &[ReadToken])>, NoMemory>
    ensures { IfOk result (λ found. option_map (λ f. (simple_view f.0, f.1.now)) found ≡ as_block (for_each_at for_word tokens.now)) }
{
    let Some((each_word, behind_each)) = read_token(tokens, Expected::Each) else {
        return Ok(None);
    };
    let Some((element, behind_element)) = read_name(alloc, behind_each)? else {
        return Ok(None);
    };
    let Some((in_word, behind_in)) = read_token(behind_element, Expected::In) else {
        return Ok(None);
    };
    let Some((group, rest)) = read_expression(alloc, behind_in)? else {
        return Ok(None);
    };
    let line = BlockLine::ForEach {
        for_word,
        each_word,
        element,
        in_word,
        group,
    };
    Ok(Some((SimpleStatement::BlockLine(line), rest)))
}

/// Behind `For`.
pub fn read_for_line(
    alloc: Global,
    for_word: Token,
    tokens: &[ReadToken],
) -> Result<Option<(SimpleStatement, &[ReadToken])>, NoMemory>
    ensures { IfOk result (λ found. option_map (λ f. (simple_view f.0, f.1.now)) found
        ≡ as_block (if begins is_each tokens.now then for_each_at for_word tokens.now else for_at for_word tokens.now)) }
{
    if begins_with(tokens, Expected::Each) {
        read_for_each(alloc, for_word, tokens)
    } else {
        read_for(alloc, for_word, tokens)
    }
}

/// Behind `Next`: the counter, where it is written.
pub fn read_next(
    alloc: Global,
    next_word: Token,
    tokens: &[ReadToken],
) -> Result<Option<(SimpleStatement, &[ReadToken])>, NoMemory>
    ensures { IfOk result (λ found. option_map (λ f. (simple_view f.0, f.1.now)) found
        ≡ found_as (λ counter. tree.block_line (tree.next_line next_word counter)) (part_if is_name name_at tokens.now)) }
{
    if !begins_with(tokens, Expected::Name) {
        let line = BlockLine::Next {
            next_word,
            counter: None,
        };
        return Ok(Some((SimpleStatement::BlockLine(line), tokens)));
    }
    let Some((counter, rest)) = read_name(alloc, tokens)? else {
        return Ok(None);
    };
    let line = BlockLine::Next {
        next_word,
        counter: Some(counter),
    };
    Ok(Some((SimpleStatement::BlockLine(line), rest)))
}

/// `While` or `Until`.
fn loop_word_of(reading: &Reading) -> Option<LoopWord>
    ensures { result ≡ loop_word_of reading.now }
{
    match reading {
        Reading::Keyword(Keyword::While) => Some(LoopWord::While),
        Reading::Keyword(Keyword::Until) => Some(LoopWord::Until),
        _ => None,
    }
}

/// The condition of a Do or Loop line, where it is written.
fn read_condition_if(
    alloc: Global,
    tokens: &[ReadToken],
) -> Result<Option<(Option<LoopCondition>, &[ReadToken])>, NoMemory>
    ensures { IfOk result (λ found. option_map (λ f. (option_map loop_condition_view f.0, f.1.now)) found ≡ loop_condition_if tokens.now) }
{
    let [token, rest @ ..] = tokens else {
        return Ok(Some((None, tokens)));
    };
    let Some(word) = loop_word_of(&token.reading) else {
        return Ok(Some((None, tokens)));
    };
    let Some((condition, behind)) = read_expression(alloc, rest)? else {
        return Ok(None);
    };
    let condition = LoopCondition {
        word,
        word_token: token.token,
        condition,
    };
    Ok(Some((Some(condition), behind)))
}

/// Behind `Do`: a condition, where it is written.
pub fn read_do(
    alloc: Global,
    do_word: Token,
    tokens: &[ReadToken],
) -> Result<Option<(SimpleStatement, &[ReadToken])>, NoMemory>
    ensures { IfOk result (λ found. option_map (λ f. (simple_view f.0, f.1.now)) found
        ≡ found_as (λ condition. tree.block_line (tree.do_line do_word condition)) (loop_condition_if tokens.now)) }
{
    let Some((condition, rest)) = read_condition_if(alloc, tokens)? else {
        return Ok(None);
    };
    let line = BlockLine::Do { do_word, condition };
    Ok(Some((SimpleStatement::BlockLine(line), rest)))
}

/// Behind `Loop`: a condition, where it is written.
pub fn read_loop(
    alloc: Global,
    loop_word: Token,
    tokens: &[ReadToken],
) -> Result<Option<(SimpleStatement, &[ReadToken])>, NoMemory>
    ensures { IfOk result (λ found. option_map (λ f. (simple_view f.0, f.1.now)) found
        ≡ found_as (λ condition. tree.block_line (tree.loop_line loop_word condition)) (loop_condition_if tokens.now)) }
{
    let Some((condition, rest)) = read_condition_if(alloc, tokens)? else {
        return Ok(None);
    };
    let line = BlockLine::Loop {
        loop_word,
        condition,
    };
    Ok(Some((SimpleStatement::BlockLine(line), rest)))
}

/// Behind `While`: the condition.
pub fn read_while(
    alloc: Global,
    while_word: Token,
    tokens: &[ReadToken],
) -> Result<Option<(SimpleStatement, &[ReadToken])>, NoMemory>
    ensures { IfOk result (λ found. option_map (λ f. (simple_view f.0, f.1.now)) found
        ≡ found_as (λ e. tree.block_line (tree.while_line while_word e)) (whole_at tokens.now)) }
{
    let Some((condition, rest)) = read_expression(alloc, tokens)? else {
        return Ok(None);
    };
    let line = BlockLine::While {
        while_word,
        condition,
    };
    Ok(Some((SimpleStatement::BlockLine(line), rest)))
}
