//! Reading the statements that begin with a kept word.

ghost use Rattle.std.specs.Prelude.{◌≡◌, IfOk, option_map};
ghost use Rattle.vba_tree.specs.View.{simple_view};
ghost use Rattle.vba_grammar.specs.Statements.{kept_at};

use crate::assignment::{read_call_place, read_let, read_set};
use crate::block::{read_case, read_else_if, read_end, read_select, read_with};
use crate::declaration::{read_const, read_declaration};
use crate::handling::{read_on_error, read_raise_event, read_resume};
use crate::label::{read_exit, read_go_sub, read_go_to};
use crate::loops::{read_do, read_for_line, read_loop, read_next, read_while};
use crate::redim::{read_erase, read_re_dim};
use std::alloc::Global;
use vba_base::NoMemory;
use vba_lexer::Token;
use vba_tree::{BlockLine, SimpleStatement};
use vba_words::{Keyword, ReadToken};

/// Behind a kept word: the rest of the statement or of the line of a block that it begins.
pub fn read_kept(
    alloc: Global,
    token: Token,
    keyword: Keyword,
    tokens: &[ReadToken],
) -> Result<Option<(SimpleStatement, &[ReadToken])>, NoMemory>
    ensures { IfOk result (λ found. option_map (λ f. (simple_view f.0, f.1.now)) found ≡ kept_at token keyword tokens.now) }
{
    match keyword {
        Keyword::Const => read_const(alloc, None, token, tokens),
        Keyword::Let => read_let(alloc, token, tokens),
        Keyword::Set => read_set(alloc, token, tokens),
        Keyword::Call => read_call_place(alloc, token, tokens),
        Keyword::ReDim => read_re_dim(alloc, token, tokens),
        Keyword::Erase => read_erase(alloc, token, tokens),
        Keyword::GoTo => read_go_to(alloc, token, tokens),
        Keyword::GoSub => read_go_sub(alloc, token, tokens),
        Keyword::Return => Ok(Some((SimpleStatement::Return(token), tokens))),
        Keyword::Exit => Ok(read_exit(token, tokens)),
        Keyword::End => Ok(read_end(token, tokens)),
        Keyword::Stop => Ok(Some((SimpleStatement::Stop(token), tokens))),
        Keyword::On => read_on_error(alloc, token, tokens),
        Keyword::Resume => read_resume(alloc, token, tokens),
        Keyword::RaiseEvent => read_raise_event(alloc, token, tokens),
        Keyword::ElseIf => read_else_if(alloc, token, tokens),
        Keyword::Else => Ok(Some((SimpleStatement::BlockLine(BlockLine::Else(token)), tokens))),
        Keyword::Select => read_select(alloc, token, tokens),
        Keyword::Case => read_case(alloc, token, tokens),
        Keyword::For => read_for_line(alloc, token, tokens),
        Keyword::Next => read_next(alloc, token, tokens),
        Keyword::Do => read_do(alloc, token, tokens),
        Keyword::Loop => read_loop(alloc, token, tokens),
        Keyword::While => read_while(alloc, token, tokens),
        Keyword::Wend => Ok(Some((SimpleStatement::BlockLine(BlockLine::Wend(token)), tokens))),
        Keyword::With => read_with(alloc, token, tokens),
        _ => read_declaration(alloc, token, keyword, tokens),
    }
}
