//! The tokens of statements.

ghost use Rattle.std.specs.Prelude.{◌≡◌, [], ◌∷◌, ◌++◌, map, OnOk, option_map};
ghost use Rattle.vba_words.specs.declared.mark.Mark.TheVariants.{Comma, Equal};
ghost use Rattle.vba_words.specs.Spelling.{marked};
ghost use Rattle.vba_tree.specs.Spelling as spelling;
ghost use Rattle.vba_tree.specs.Spelling.{tokens_of};
ghost use Rattle.vba_tree.specs.Tree as tree;
ghost use Rattle.vba_tree.specs.View as views;
ghost use Rattle.vba_expression.specs.Spelling.{spell as spell_expression};
ghost use Rattle.vba_expression.specs.View.{view as expression_view, arguments_view};

use crate::block_tokens::push_block_line;
use crate::declaration::{Constants, Variables};
use crate::declaration_tokens::{
    push_access, push_constants, push_dim_list, push_type_clause, push_variables,
};
use crate::list::{Listed, Next};
use crate::simple::{
    ErrorHandling, EventArguments, ExitKind, LabelName, PrintItem, ReDimArray, ResumeTarget,
    SimpleStatement,
};
use crate::word_tokens::{push_behind, push_optional, push_two};
use vba_base::NoMemory;
use vba_expression::{Arguments, Expression, push_arguments, push_tokens as push_expression};
use vba_lexer::Token;
use vba_words::Identifier;

/// Adds the token of a label where it is gone to.
fn push_label_name(tokens: &mut Vec<Token>, label: &LabelName) -> Result<(), NoMemory>
    ensures { OnOk result (tokens.new.items ≡ tokens.old.items ++ tokens_of (spelling.spell_label_name label.now)) }
{
    let token = match label {
        LabelName::Name(name) => name.token,
        LabelName::Number { token, .. } => *token,
    };
    tokens.push(token)?;
    Ok(())
}

/// Adds the tokens of a label behind GoTo or GoSub.
fn push_jump(tokens: &mut Vec<Token>, word: Token, label: &LabelName) -> Result<(), NoMemory>
    ensures { OnOk result (tokens.new.items ≡ tokens.old.items ++ word ∷ tokens_of (spelling.spell_label_name label.now)) }
{
    tokens.push(word)?;
    push_label_name(tokens, label)
}

/// Adds the tokens of `place = value`.
#[tactic(auto, using(crate::proofs::Tokens::tokens_of_append))]
fn push_assignment(
    tokens: &mut Vec<Token>,
    place: &Expression,
    equal: Token,
    value: &Expression,
) -> Result<(), NoMemory>
    ensures { OnOk result (tokens.new.items ≡ tokens.old.items
        ++ tokens_of (spell_expression (expression_view place.now) ++ marked equal Equal ∷ spell_expression (expression_view value.now))) }
{
    push_expression(tokens, place)?;
    push_behind(tokens, equal, value)
}

/// Adds the tokens of an array of a ReDim statement.
#[tactic(auto, using(crate::proofs::Tokens::tokens_of_append))]
fn push_array(tokens: &mut Vec<Token>, array: &ReDimArray) -> Result<(), NoMemory>
    ensures { OnOk result (tokens.new.items ≡ tokens.old.items ++ tokens_of (spelling.spell_array (views.array_view array.now))) }
{
    push_expression(tokens, &array.place)?;
    tokens.push(array.left)?;
    push_dim_list(tokens, &array.dims)?;
    tokens.push(array.right)?;
    push_type_clause(tokens, &array.type_clause)
}

/// Adds the tokens of arrays behind their commas.
#[tactic(auto, using(crate::proofs::Tokens::tokens_of_append))]
fn push_other_arrays(
    tokens: &mut Vec<Token>,
    mut others: &[Next<ReDimArray>],
) -> Result<(), NoMemory>
    ensures { OnOk result (tokens.new.items ≡ tokens.old.items
        ++ tokens_of (spelling.spell_others spelling.spell_array Comma (map (λ next. (next.mark, views.array_view next.item)) others.entry.now))) }
{
    while let [next, rest @ ..] = others {
        tokens.push(next.mark)?;
        push_array(tokens, &next.item)?;
        others = rest;
    }
    Ok(())
}

/// Adds the tokens of arrays.
#[tactic(auto, using(crate::proofs::Tokens::tokens_of_append))]
fn push_arrays(tokens: &mut Vec<Token>, list: &Listed<ReDimArray>) -> Result<(), NoMemory>
    ensures { OnOk result (tokens.new.items ≡ tokens.old.items
        ++ tokens_of (spelling.with_commas spelling.spell_array (views.listed_view views.array_view list.now))) }
{
    push_array(tokens, &list.first)?;
    push_other_arrays(tokens, list.others.as_slice())
}

/// Adds the tokens of places behind their commas.
#[tactic(auto, using(crate::proofs::Tokens::tokens_of_append))]
fn push_other_places(
    tokens: &mut Vec<Token>,
    mut others: &[Next<Expression>],
) -> Result<(), NoMemory>
    ensures { OnOk result (tokens.new.items ≡ tokens.old.items
        ++ tokens_of (spelling.spell_others spell_expression Comma (map (λ next. (next.mark, expression_view next.item)) others.entry.now))) }
{
    while let [next, rest @ ..] = others {
        tokens.push(next.mark)?;
        push_expression(tokens, &next.item)?;
        others = rest;
    }
    Ok(())
}

/// Adds the tokens of places.
#[tactic(auto, using(crate::proofs::Tokens::tokens_of_append))]
fn push_places(tokens: &mut Vec<Token>, list: &Listed<Expression>) -> Result<(), NoMemory>
    ensures { OnOk result (tokens.new.items ≡ tokens.old.items
        ++ tokens_of (spelling.with_commas spell_expression (views.listed_view expression_view list.now))) }
{
    push_expression(tokens, &list.first)?;
    push_other_places(tokens, list.others.as_slice())
}

/// Adds the tokens of what stands behind `On Error`.
fn push_handling(tokens: &mut Vec<Token>, handling: &ErrorHandling) -> Result<(), NoMemory>
    ensures { OnOk result (tokens.new.items ≡ tokens.old.items ++ tokens_of (spelling.spell_handling handling.now)) }
{
    match handling {
        ErrorHandling::GoTo { goto_word, label } => push_jump(tokens, *goto_word, label),
        ErrorHandling::GoToZero { goto_word, zero } => push_two(tokens, *goto_word, *zero),
        ErrorHandling::GoToMinusOne {
            goto_word,
            minus,
            one,
        } => {
            tokens.push(*goto_word)?;
            push_two(tokens, *minus, *one)
        }
        ErrorHandling::ResumeNext {
            resume_word,
            next_word,
        } => push_two(tokens, *resume_word, *next_word),
    }
}

/// Adds the token of what stands behind `Resume`, which may be missing.
fn push_target(tokens: &mut Vec<Token>, target: &Option<ResumeTarget>) -> Result<(), NoMemory>
    ensures { OnOk result (tokens.new.items ≡ tokens.old.items ++ tokens_of (spelling.optional spelling.spell_target target.now)) }
{
    match target {
        None => Ok(()),
        Some(ResumeTarget::Next(token) | ResumeTarget::Zero(token)) => Ok(tokens.push(*token)?),
        Some(ResumeTarget::Label(label)) => push_label_name(tokens, label),
    }
}

/// Adds the tokens of `([arguments])`, which may be missing.
#[tactic(auto, using(crate::proofs::Tokens::tokens_of_append))]
fn push_event_arguments(
    tokens: &mut Vec<Token>,
    arguments: &Option<EventArguments>,
) -> Result<(), NoMemory>
    ensures { OnOk result (tokens.new.items ≡ tokens.old.items
        ++ tokens_of (spelling.optional spelling.spell_event_arguments (option_map views.event_arguments_view arguments.now))) }
{
    if let Some(arguments) = arguments {
        tokens.push(arguments.left)?;
        push_arguments(tokens, &arguments.arguments)?;
        tokens.push(arguments.right)?;
    }
    Ok(())
}

/// Adds the tokens of a value that may be missing.
#[tactic(auto, using(crate::proofs::Tokens::tokens_of_append))]
fn push_value(tokens: &mut Vec<Token>, value: &Option<Expression>) -> Result<(), NoMemory>
    ensures { OnOk result (tokens.new.items ≡ tokens.old.items
        ++ tokens_of (spelling.optional spell_expression (option_map expression_view value.now))) }
{
    if let Some(value) = value {
        push_expression(tokens, value)?;
    }
    Ok(())
}

/// Adds the tokens of what is printed behind the first value.
#[tactic(auto, using(crate::proofs::Tokens::tokens_of_append))]
fn push_print_items(tokens: &mut Vec<Token>, mut others: &[PrintItem]) -> Result<(), NoMemory>
    ensures { OnOk result (tokens.new.items ≡ tokens.old.items
        ++ tokens_of (spelling.spell_print_items (map views.print_item_view others.entry.now))) }
{
    while let [item, rest @ ..] = others {
        tokens.push(item.mark_token)?;
        push_value(tokens, &item.value)?;
        others = rest;
    }
    Ok(())
}

/// Adds the token of the word Preserve, which may be missing.
fn push_preserve(tokens: &mut Vec<Token>, token: Option<Token>) -> Result<(), NoMemory>
    ensures { OnOk result (tokens.new.items ≡ tokens.old.items ++ tokens_of (spelling.spell_preserve token)) }
{
    if let Some(token) = token {
        tokens.push(token)?;
    }
    Ok(())
}

/// Adds the tokens of a declaration of variables.
fn push_variable_line(tokens: &mut Vec<Token>, declaration: &Variables) -> Result<(), NoMemory>
    ensures { OnOk result (tokens.new.items ≡ tokens.old.items
        ++ tokens_of (spelling.spell_simple (tree.variables declaration.now.word declaration.now.word_token (views.listed_view views.variable_view declaration.now.variables)))) }
{
    tokens.push(declaration.word_token)?;
    push_variables(tokens, &declaration.variables)
}

/// Adds the tokens of a declaration of constants.
#[tactic(auto, using(crate::proofs::Tokens::tokens_of_append))]
fn push_constant_line(tokens: &mut Vec<Token>, declaration: &Constants) -> Result<(), NoMemory>
    ensures { OnOk result (tokens.new.items ≡ tokens.old.items
        ++ tokens_of (spelling.spell_simple (tree.constants declaration.now.access declaration.now.const_word (views.listed_view views.constant_view declaration.now.constants)))) }
{
    push_access(tokens, &declaration.access)?;
    tokens.push(declaration.const_word)?;
    push_constants(tokens, &declaration.constants)
}

/// Adds the tokens of `[Let] place = value`.
#[tactic(auto, using(crate::proofs::Tokens::tokens_of_append, crate::proofs::Tokens::tokens_of_word))]
fn push_let(
    tokens: &mut Vec<Token>,
    let_word: Option<Token>,
    place: &Expression,
    equal: Token,
    value: &Expression,
) -> Result<(), NoMemory>
    ensures { OnOk result (tokens.new.items ≡ tokens.old.items
        ++ tokens_of (spelling.spell_simple (tree.assignment let_word (expression_view place.now) equal (expression_view value.now)))) }
{
    push_optional(tokens, let_word)?;
    push_assignment(tokens, place, equal, value)
}

/// Adds the tokens of `Set place = value`.
fn push_set(
    tokens: &mut Vec<Token>,
    set_word: Token,
    place: &Expression,
    equal: Token,
    value: &Expression,
) -> Result<(), NoMemory>
    ensures { OnOk result (tokens.new.items ≡ tokens.old.items
        ++ tokens_of (spelling.spell_simple (tree.set_assignment set_word (expression_view place.now) equal (expression_view value.now)))) }
{
    tokens.push(set_word)?;
    push_assignment(tokens, place, equal, value)
}

/// Adds the tokens of `target [arguments]`.
#[tactic(auto, using(crate::proofs::Tokens::tokens_of_append))]
fn push_call(
    tokens: &mut Vec<Token>,
    target: &Expression,
    arguments: &Arguments,
) -> Result<(), NoMemory>
    ensures { OnOk result (tokens.new.items ≡ tokens.old.items
        ++ tokens_of (spelling.spell_simple (tree.call (expression_view target.now) (arguments_view arguments.now)))) }
{
    push_expression(tokens, target)?;
    push_arguments(tokens, arguments)
}

/// Adds the tokens of a ReDim statement.
#[tactic(auto, using(crate::proofs::Tokens::tokens_of_append))]
fn push_redim(
    tokens: &mut Vec<Token>,
    redim_word: Token,
    preserve_word: Option<Token>,
    arrays: &Listed<ReDimArray>,
) -> Result<(), NoMemory>
    ensures { OnOk result (tokens.new.items ≡ tokens.old.items
        ++ tokens_of (spelling.spell_simple (tree.re_dim redim_word preserve_word (views.listed_view views.array_view arrays.now)))) }
{
    tokens.push(redim_word)?;
    push_preserve(tokens, preserve_word)?;
    push_arrays(tokens, arrays)
}

/// Adds the tokens of `Erase place, ..`.
fn push_erase(
    tokens: &mut Vec<Token>,
    erase_word: Token,
    places: &Listed<Expression>,
) -> Result<(), NoMemory>
    ensures { OnOk result (tokens.new.items ≡ tokens.old.items
        ++ tokens_of (spelling.spell_simple (tree.erase erase_word (views.listed_view expression_view places.now)))) }
{
    tokens.push(erase_word)?;
    push_places(tokens, places)
}

/// Adds the tokens of an Exit statement.
#[tactic(auto, using(crate::proofs::Tokens::exit_token_itself))]
fn push_exit(
    tokens: &mut Vec<Token>,
    exit_word: Token,
    kind: ExitKind,
    kind_word: Token,
) -> Result<(), NoMemory>
    ensures { OnOk result (tokens.new.items ≡ tokens.old.items
        ++ tokens_of (spelling.spell_simple (tree.exit exit_word kind kind_word))) }
{
    push_two(tokens, exit_word, kind_word)
}

/// Adds the tokens of an On Error statement.
fn push_on_error(
    tokens: &mut Vec<Token>,
    on_word: Token,
    error_word: Token,
    handling: &ErrorHandling,
) -> Result<(), NoMemory>
    ensures { OnOk result (tokens.new.items ≡ tokens.old.items
        ++ tokens_of (spelling.spell_simple (tree.on_error on_word error_word handling.now))) }
{
    push_two(tokens, on_word, error_word)?;
    push_handling(tokens, handling)
}

/// Adds the tokens of a Resume statement.
fn push_resume(
    tokens: &mut Vec<Token>,
    resume_word: Token,
    target: &Option<ResumeTarget>,
) -> Result<(), NoMemory>
    ensures { OnOk result (tokens.new.items ≡ tokens.old.items
        ++ tokens_of (spelling.spell_simple (tree.resume resume_word target.now))) }
{
    tokens.push(resume_word)?;
    push_target(tokens, target)
}

/// Adds the tokens of a RaiseEvent statement.
fn push_raise_event(
    tokens: &mut Vec<Token>,
    raise_event_word: Token,
    event: &Identifier,
    arguments: &Option<EventArguments>,
) -> Result<(), NoMemory>
    ensures { OnOk result (tokens.new.items ≡ tokens.old.items
        ++ tokens_of (spelling.spell_simple (tree.raise_event raise_event_word event.now (option_map views.event_arguments_view arguments.now)))) }
{
    push_two(tokens, raise_event_word, event.token)?;
    push_event_arguments(tokens, arguments)
}

/// Adds the tokens of a Debug.Print statement.
#[tactic(auto, using(crate::proofs::Tokens::tokens_of_append))]
fn push_debug_print(
    tokens: &mut Vec<Token>,
    debug_word: Token,
    dot: Token,
    print_word: Token,
    first: &Option<Expression>,
    others: &[PrintItem],
) -> Result<(), NoMemory>
    ensures { OnOk result (tokens.new.items ≡ tokens.old.items
        ++ tokens_of (spelling.spell_simple (tree.debug_print debug_word dot print_word (option_map expression_view first.now) (map views.print_item_view others.now)))) }
{
    push_two(tokens, debug_word, dot)?;
    tokens.push(print_word)?;
    push_value(tokens, first)?;
    push_print_items(tokens, others)
}

/// Adds the tokens of a statement other than a single-line If.
pub(crate) fn push_simple(
    tokens: &mut Vec<Token>,
    statement: &SimpleStatement,
) -> Result<(), NoMemory>
    ensures { OnOk result (tokens.new.items ≡ tokens.old.items ++ tokens_of (spelling.spell_simple (views.simple_view statement.now))) }
{
    match statement {
        SimpleStatement::Variables(declaration) => push_variable_line(tokens, declaration),
        SimpleStatement::Constants(declaration) => push_constant_line(tokens, declaration),
        SimpleStatement::Assignment {
            let_word,
            place,
            equal,
            value,
        } => push_let(tokens, *let_word, place, *equal, value),
        SimpleStatement::SetAssignment {
            set_word,
            place,
            equal,
            value,
        } => push_set(tokens, *set_word, place, *equal, value),
        SimpleStatement::CallPlace { call_word, place } => push_behind(tokens, *call_word, place),
        SimpleStatement::Call { target, arguments } => { push_call(tokens, target, arguments) }
        SimpleStatement::ReDim {
            redim_word,
            preserve_word,
            arrays,
        } => push_redim(tokens, *redim_word, *preserve_word, arrays),
        SimpleStatement::Erase { erase_word, places } => push_erase(tokens, *erase_word, places),
        SimpleStatement::GoTo {
            goto_word: word,
            label,
        }
        | SimpleStatement::GoSub {
            gosub_word: word,
            label,
        } => push_jump(tokens, *word, label),
        SimpleStatement::Return(token)
        | SimpleStatement::End(token)
        | SimpleStatement::Stop(token) => Ok(tokens.push(*token)?),
        SimpleStatement::Exit {
            exit_word,
            kind,
            kind_word,
        } => push_exit(tokens, *exit_word, *kind, *kind_word),
        SimpleStatement::OnError {
            on_word,
            error_word,
            handling,
        } => push_on_error(tokens, *on_word, *error_word, handling),
        SimpleStatement::Resume {
            resume_word,
            target,
        } => push_resume(tokens, *resume_word, target),
        SimpleStatement::RaiseEvent {
            raise_event_word,
            event,
            arguments,
        } => push_raise_event(tokens, *raise_event_word, event, arguments),
        SimpleStatement::DebugPrint {
            debug_word,
            dot,
            print_word,
            first,
            others,
        } => push_debug_print(
            tokens,
            *debug_word,
            *dot,
            *print_word,
            first,
            others.as_slice(),
        ),
        SimpleStatement::BlockLine(line) => push_block_line(tokens, line),
    }
}
