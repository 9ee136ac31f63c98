//! Labels at the front of lines ([MS-VBAL] 5.4.1.1).

ghost use Rattle.std.specs.Prelude.{◌≡◌, IfOk};
ghost use Rattle.vba_grammar.specs.Lines.{label_if};

use std::alloc::Global;
use vba_base::NoMemory;
use vba_clauses::{Expected, skip_token};
use vba_tree::LineLabel;
use vba_words::{ReadToken, Reading, identifier_at};

/// The label at the front, if one stands there, and the tokens behind it, or else all: a name without a suffix and a colon, or
/// a line number with a colon or without.
pub fn skip_label(
    alloc: Global,
    tokens: &[ReadToken],
) -> Result<(Option<LineLabel>, &[ReadToken]), NoMemory>
    ensures { IfOk result (λ found. (found.0, found.1.now) ≡ label_if tokens.now) }
{
    let [first, rest @ ..] = tokens else {
        return Ok((None, tokens));
    };
    match &first.reading {
        Reading::Number {
            number,
            is_plain: true,
        } => {
            let (colon, behind) = skip_token(rest, Expected::Colon);
            let label = LineLabel::Number {
                token: first.token,
                number: *number,
                colon,
            };
            Ok((Some(label), behind))
        }
        Reading::Name { suffix: None, .. } => {
            let (Some(colon), behind) = skip_token(rest, Expected::Colon) else {
                return Ok((None, tokens));
            };
            match identifier_at(alloc, first)? {
                Some(name) => Ok((Some(LineLabel::Name { name, colon }), behind)),
                None => Ok((None, tokens)),
            }
        }
        _ => Ok((None, tokens)),
    }
}
