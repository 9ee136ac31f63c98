//! The tokens of the lines of blocks.

ghost use Rattle.std.specs.Prelude.{◌≡◌, [], ◌∷◌, ◌++◌, map, OnOk, option_map};
ghost use Rattle.vba_words.specs.declared.keyword.Keyword.TheVariants.{To};
ghost use Rattle.vba_words.specs.declared.mark.Mark.TheVariants.{Comma, Equal};
ghost use Rattle.vba_words.specs.Spelling.{naming, word, marked};
ghost use Rattle.vba_tree.specs.Spelling as spelling;
ghost use Rattle.vba_tree.specs.Spelling.{tokens_of};
ghost use Rattle.vba_tree.specs.Tree as tree;
ghost use Rattle.vba_tree.specs.View as views;
ghost use Rattle.vba_expression.specs.Spelling.{spell as spell_expression};
ghost use Rattle.vba_expression.specs.View.{view as expression_view};

use crate::block::{BlockLine, CaseTest, LoopCondition, StepClause};
use crate::list::{Listed, Next};
use crate::word_tokens::{push_behind, push_between, push_two};
use vba_base::NoMemory;
use vba_expression::{Expression, push_tokens as push_expression};
use vba_lexer::Token;
use vba_words::Identifier;

/// Adds the tokens of a test.
#[tactic(auto, using(crate::proofs::Tokens::tokens_of_append))]
fn push_test(tokens: &mut Vec<Token>, test: &CaseTest) -> Result<(), NoMemory>
    ensures { OnOk result (tokens.new.items ≡ tokens.old.items ++ tokens_of (spelling.spell_test (views.test_view test.now))) }
{
    match test {
        CaseTest::Value(value) => push_expression(tokens, value),
        CaseTest::Range { low, to_word, high } => {
            push_expression(tokens, low)?;
            push_behind(tokens, *to_word, high)
        }
        CaseTest::Comparison {
            is_word,
            operator_token,
            value,
            ..
        } => {
            tokens.push(*is_word)?;
            push_behind(tokens, *operator_token, value)
        }
    }
}

/// Adds the tokens of tests behind their commas.
#[tactic(auto, using(crate::proofs::Tokens::tokens_of_append))]
fn push_other_tests(tokens: &mut Vec<Token>, mut others: &[Next<CaseTest>]) -> Result<(), NoMemory>
    ensures { OnOk result (tokens.new.items ≡ tokens.old.items
        ++ tokens_of (spelling.spell_others spelling.spell_test Comma (map (λ next. (next.mark, views.test_view next.item)) others.entry.now))) }
{
    while let [next, rest @ ..] = others {
        tokens.push(next.mark)?;
        push_test(tokens, &next.item)?;
        others = rest;
    }
    Ok(())
}

/// Adds the tokens of tests.
#[tactic(auto, using(crate::proofs::Tokens::tokens_of_append))]
fn push_tests(tokens: &mut Vec<Token>, list: &Listed<CaseTest>) -> Result<(), NoMemory>
    ensures { OnOk result (tokens.new.items ≡ tokens.old.items
        ++ tokens_of (spelling.with_commas spelling.spell_test (views.listed_view views.test_view list.now))) }
{
    push_test(tokens, &list.first)?;
    push_other_tests(tokens, list.others.as_slice())
}

/// Adds the tokens of `Step value`, which may be missing.
#[tactic(auto, using(crate::proofs::Tokens::tokens_of_append))]
fn push_step(tokens: &mut Vec<Token>, step: &Option<StepClause>) -> Result<(), NoMemory>
    ensures { OnOk result (tokens.new.items ≡ tokens.old.items
        ++ tokens_of (spelling.optional spelling.spell_step (option_map views.step_view step.now))) }
{
    if let Some(step) = step {
        push_behind(tokens, step.step_word, &step.value)?;
    }
    Ok(())
}

/// Adds the tokens of the condition of a Do or Loop line, which may be missing.
#[tactic(auto, using(crate::proofs::Tokens::tokens_of_append))]
fn push_loop_condition(
    tokens: &mut Vec<Token>,
    condition: &Option<LoopCondition>,
) -> Result<(), NoMemory>
    ensures { OnOk result (tokens.new.items ≡ tokens.old.items
        ++ tokens_of (spelling.optional spelling.spell_loop_condition (option_map views.loop_condition_view condition.now))) }
{
    if let Some(condition) = condition {
        push_behind(tokens, condition.word_token, &condition.condition)?;
    }
    Ok(())
}

/// Adds the token of a counter, which may be missing.
fn push_counter(tokens: &mut Vec<Token>, counter: &Option<Identifier>) -> Result<(), NoMemory>
    ensures { OnOk result (tokens.new.items ≡ tokens.old.items
        ++ tokens_of (spelling.optional (λ name. naming name ∷ []) counter.now)) }
{
    if let Some(name) = counter {
        tokens.push(name.token)?;
    }
    Ok(())
}

/// Adds the tokens of `Case tests`.
fn push_case(
    tokens: &mut Vec<Token>,
    case_word: Token,
    tests: &Listed<CaseTest>,
) -> Result<(), NoMemory>
    ensures { OnOk result (tokens.new.items ≡ tokens.old.items
        ++ tokens_of (spelling.spell_block_line (tree.case_line case_word (views.listed_view views.test_view tests.now)))) }
{
    tokens.push(case_word)?;
    push_tests(tokens, tests)
}

/// Adds the tokens of `= start To limit [Step value]`.
#[tactic(auto, using(crate::proofs::Tokens::tokens_of_append))]
fn push_bounds(
    tokens: &mut Vec<Token>,
    equal: Token,
    start: &Expression,
    to_word: Token,
    limit: &Expression,
    step: &Option<StepClause>,
) -> Result<(), NoMemory>
    ensures { OnOk result (tokens.new.items ≡ tokens.old.items
        ++ tokens_of (marked equal Equal ∷ (spell_expression (expression_view start.now)
        ++ word to_word To ∷ (spell_expression (expression_view limit.now)
        ++ spelling.optional spelling.spell_step (option_map views.step_view step.now))))) }
{
    push_behind(tokens, equal, start)?;
    push_behind(tokens, to_word, limit)?;
    push_step(tokens, step)
}

/// Adds the tokens of `For Each element In group`.
fn push_for_each(
    tokens: &mut Vec<Token>,
    for_word: Token,
    each_word: Token,
    element: &Identifier,
    in_word: Token,
    group: &Expression,
) -> Result<(), NoMemory>
    ensures { OnOk result (tokens.new.items ≡ tokens.old.items
        ++ tokens_of (spelling.spell_block_line (tree.for_each for_word each_word element.now in_word (expression_view group.now)))) }
{
    push_two(tokens, for_word, each_word)?;
    tokens.push(element.token)?;
    push_behind(tokens, in_word, group)
}

/// Adds the tokens of `Next [counter]`.
fn push_next(
    tokens: &mut Vec<Token>,
    next_word: Token,
    counter: &Option<Identifier>,
) -> Result<(), NoMemory>
    ensures { OnOk result (tokens.new.items ≡ tokens.old.items
        ++ tokens_of (spelling.spell_block_line (tree.next_line next_word counter.now))) }
{
    tokens.push(next_word)?;
    push_counter(tokens, counter)
}

/// Adds the tokens of Do or Loop and its condition.
fn push_do(
    tokens: &mut Vec<Token>,
    word: Token,
    condition: &Option<LoopCondition>,
) -> Result<(), NoMemory>
    ensures { OnOk result (tokens.new.items ≡ tokens.old.items
        ++ word ∷ tokens_of (spelling.optional spelling.spell_loop_condition (option_map views.loop_condition_view condition.now))) }
{
    tokens.push(word)?;
    push_loop_condition(tokens, condition)
}

/// Adds the tokens of a line of a block.
#[tactic(auto, using(crate::proofs::Tokens::tokens_of_append))]
pub(crate) fn push_block_line(tokens: &mut Vec<Token>, line: &BlockLine) -> Result<(), NoMemory>
    ensures { OnOk result (tokens.new.items ≡ tokens.old.items ++ tokens_of (spelling.spell_block_line (views.block_line_view line.now))) }
{
    match line {
        BlockLine::If {
            if_word: first,
            condition,
            then_word,
        }
        | BlockLine::ElseIf {
            else_if_word: first,
            condition,
            then_word,
        } => push_between(tokens, *first, condition, *then_word),
        BlockLine::Else(token) | BlockLine::Wend(token) => Ok(tokens.push(*token)?),
        BlockLine::EndIf {
            end_word: first,
            if_word: last,
        }
        | BlockLine::CaseElse {
            case_word: first,
            else_word: last,
        }
        | BlockLine::EndSelect {
            end_word: first,
            select_word: last,
        }
        | BlockLine::EndWith {
            end_word: first,
            with_word: last,
        } => push_two(tokens, *first, *last),
        BlockLine::SelectCase {
            select_word,
            case_word,
            value,
        } => {
            tokens.push(*select_word)?;
            push_behind(tokens, *case_word, value)
        }
        BlockLine::Case { case_word, tests } => push_case(tokens, *case_word, tests),
        BlockLine::For {
            for_word,
            counter,
            equal,
            start,
            to_word,
            limit,
            step,
        } => {
            push_two(tokens, *for_word, counter.token)?;
            push_bounds(tokens, *equal, start, *to_word, limit, step)
        }
        BlockLine::ForEach {
            for_word,
            each_word,
            element,
            in_word,
            group,
        } => push_for_each(tokens, *for_word, *each_word, element, *in_word, group),
        BlockLine::Next { next_word, counter } => push_next(tokens, *next_word, counter),
        BlockLine::Do {
            do_word: word,
            condition,
        }
        | BlockLine::Loop {
            loop_word: word,
            condition,
        } => push_do(tokens, *word, condition),
        BlockLine::While {
            while_word: word,
            condition: value,
        }
        | BlockLine::With {
            with_word: word,
            object: value,
        } => push_behind(tokens, *word, value),
    }
}
