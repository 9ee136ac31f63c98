//! Where statements other than single-line Ifs begin.

ghost use Rattle.std.specs.Prelude.{◌≡◌};
ghost use Rattle.vba_module.specs.Parts.{nowhere, first_place};
ghost use Rattle.vba_tree.specs.Spelling.{spell_block_line, spell_simple};
ghost use Rattle.vba_tree.specs.View.{block_line_view, simple_view};

use crate::declarations::place_behind_access;
use crate::expressions::expression_place;
use vba_base::Place;
use vba_tree::{BlockLine, SimpleStatement};

/// The place of the first token of a line of a block.
fn block_line_place(line: &BlockLine) -> Place
    ensures { result ≡ first_place nowhere (spell_block_line (block_line_view line.now)) }
{
    match line {
        BlockLine::If { if_word, .. } => if_word.place,
        BlockLine::ElseIf { else_if_word, .. } => else_if_word.place,
        BlockLine::Else(else_word) => else_word.place,
        BlockLine::EndIf { end_word, .. } => end_word.place,
        BlockLine::SelectCase { select_word, .. } => select_word.place,
        BlockLine::Case { case_word, .. } => case_word.place,
        BlockLine::CaseElse { case_word, .. } => case_word.place,
        BlockLine::EndSelect { end_word, .. } => end_word.place,
        BlockLine::For { for_word, .. } => for_word.place,
        BlockLine::ForEach { for_word, .. } => for_word.place,
        BlockLine::Next { next_word, .. } => next_word.place,
        BlockLine::Do { do_word, .. } => do_word.place,
        BlockLine::Loop { loop_word, .. } => loop_word.place,
        BlockLine::While { while_word, .. } => while_word.place,
        BlockLine::Wend(wend_word) => wend_word.place,
        BlockLine::With { with_word, .. } => with_word.place,
        BlockLine::EndWith { end_word, .. } => end_word.place,
    }
}

/// The place of the first token of a statement other than a single-line If.
#[tactic(auto, using(crate::proofs::Firsts::expression_front))]
pub(crate) fn simple_place(statement: &SimpleStatement) -> Place
    ensures { result ≡ first_place nowhere (spell_simple (simple_view statement.now)) }
{
    match statement {
        SimpleStatement::Variables(variables) => variables.word_token.place,
        SimpleStatement::Constants(constants) => {
            place_behind_access(constants.access, constants.const_word)
        }
        SimpleStatement::Assignment {
            let_word: Some(word),
            ..
        } => word.place,
        SimpleStatement::Assignment { place, .. } => expression_place(place),
        SimpleStatement::SetAssignment { set_word, .. } => set_word.place,
        SimpleStatement::CallPlace { call_word, .. } => call_word.place,
        SimpleStatement::Call { target, .. } => expression_place(target),
        SimpleStatement::ReDim { redim_word, .. } => redim_word.place,
        SimpleStatement::Erase { erase_word, .. } => erase_word.place,
        SimpleStatement::GoTo { goto_word, .. } => goto_word.place,
        SimpleStatement::GoSub { gosub_word, .. } => gosub_word.place,
        SimpleStatement::Return(return_word) => return_word.place,
        SimpleStatement::Exit { exit_word, .. } => exit_word.place,
        SimpleStatement::End(end_word) => end_word.place,
        SimpleStatement::Stop(stop_word) => stop_word.place,
        SimpleStatement::OnError { on_word, .. } => on_word.place,
        SimpleStatement::Resume { resume_word, .. } => resume_word.place,
        SimpleStatement::RaiseEvent {
            raise_event_word,
            ..
        } => raise_event_word.place,
        SimpleStatement::DebugPrint { debug_word, .. } => debug_word.place,
        SimpleStatement::BlockLine(line) => block_line_place(line),
    }
}
