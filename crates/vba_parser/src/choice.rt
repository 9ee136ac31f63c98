//! What stands behind `Option` ([MS-VBAL] 5.2.1).

ghost use Rattle.std.specs.Prelude.{◌≡◌, Some, None, if◌then◌else◌, [], ◌∷◌, codes};
ghost use Rattle.vba_grammar.specs.Lines as lines;
ghost use Rattle.vba_grammar.specs.Statements.{is_digit};
ghost use Rattle.vba_tree.specs.declared.line.OptionChoice.TheVariants as choices;
ghost use Rattle.vba_words.specs.Words.{reads_word};

use vba_clauses::{Expected, is_expected};
use vba_lexer::Token;
use vba_statements::is_digit;
use vba_tree::OptionChoice;
use vba_words::{ReadToken, reads_word};

/// The choice that all of the tokens are.
pub fn read_choice(tokens: &[ReadToken]) -> Option<OptionChoice>
    ensures { result ≡ lines.choice_of tokens.now }
{
    match tokens {
        [first] if reads_word(first, b"explicit") => Some(OptionChoice::Explicit(first.token)),
        [first, second] => choice_of_two(first, second),
        _ => None,
    }
}

/// The choice that two tokens are.
fn choice_of_two(first: &ReadToken, second: &ReadToken) -> Option<OptionChoice>
    ensures { result ≡ lines.choice_of (first.now ∷ second.now ∷ []) }
{
    if reads_word(first, b"base") {
        base(first.token, second)
    } else if reads_word(first, b"compare") {
        comparison(first.token, second)
    } else if is_expected(&first.reading, Expected::Private) && reads_word(second, b"module") {
        Some(OptionChoice::PrivateModule {
            private_word: first.token,
            module_word: second.token,
        })
    } else {
        None
    }
}

/// `Base 0` or `Base 1`.
fn base(base_word: Token, digit: &ReadToken) -> Option<OptionChoice>
    ensures { result ≡ (if is_digit 0 digit.now then Some (choices.BaseZero base_word digit.now.token)
        else if is_digit 1 digit.now then Some (choices.BaseOne base_word digit.now.token)
        else None) }
{
    if is_digit(0, digit) {
        Some(OptionChoice::BaseZero {
            base_word,
            zero: digit.token,
        })
    } else if is_digit(1, digit) {
        Some(OptionChoice::BaseOne {
            base_word,
            one: digit.token,
        })
    } else {
        None
    }
}

/// `Compare Binary` or `Compare Text`.
fn comparison(compare_word: Token, word: &ReadToken) -> Option<OptionChoice>
    ensures { result ≡ (if reads_word word.now (codes "binary") then Some (choices.CompareBinary compare_word word.now.token)
        else if reads_word word.now (codes "text") then Some (choices.CompareText compare_word word.now.token)
        else None) }
{
    if reads_word(word, b"binary") {
        Some(OptionChoice::CompareBinary {
            compare_word,
            binary_word: word.token,
        })
    } else if reads_word(word, b"text") {
        Some(OptionChoice::CompareText {
            compare_word,
            text_word: word.token,
        })
    } else {
        None
    }
}
