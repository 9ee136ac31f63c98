ghost use Rattle.std.specs.Prelude.{◌≡◌};
ghost use Rattle.vba_words.specs.Marks.{mark_of};

use crate::table::sought;

/// The operators and marks of punctuation.
#[derive(Clone, Copy, Debug, PartialEq, Eq)]
pub enum Mark {
    /// `+`
    Plus,
    /// `-`
    Minus,
    /// `*`
    Times,
    /// `/`
    Slash,
    /// `\`
    Backslash,
    /// `^`
    Caret,
    /// `&`
    Ampersand,
    /// `=`
    Equal,
    /// `<`
    Less,
    /// `>`
    Greater,
    /// `<=`, also written `=<`.
    LessEqual,
    /// `>=`, also written `=>`.
    GreaterEqual,
    /// `<>`
    NotEqual,
    /// `(`
    LeftParenthesis,
    /// `)`
    RightParenthesis,
    /// `,`
    Comma,
    /// `.` that goes on with the place or primary in front of it: no white space stands between, or a continuation does.
    Dot,
    /// `.` that begins a place of a With block: any other.
    WithDot,
    /// `:`
    Colon,
    /// `;`
    Semicolon,
    /// `:=`
    ColonEqual,
    /// `!`
    Exclamation,
    /// `#`
    NumberSign,
}

/// The marks but the dot, by their texts.
const MARKS: [(&[u8], Mark); 23] = [
    (b"+", Mark::Plus),
    (b"-", Mark::Minus),
    (b"*", Mark::Times),
    (b"/", Mark::Slash),
    (b"\\", Mark::Backslash),
    (b"^", Mark::Caret),
    (b"&", Mark::Ampersand),
    (b"=", Mark::Equal),
    (b"<", Mark::Less),
    (b">", Mark::Greater),
    (b"<=", Mark::LessEqual),
    (b"=<", Mark::LessEqual),
    (b">=", Mark::GreaterEqual),
    (b"=>", Mark::GreaterEqual),
    (b"<>", Mark::NotEqual),
    (b"(", Mark::LeftParenthesis),
    (b")", Mark::RightParenthesis),
    (b",", Mark::Comma),
    (b":", Mark::Colon),
    (b";", Mark::Semicolon),
    (b":=", Mark::ColonEqual),
    (b"!", Mark::Exclamation),
    (b"#", Mark::NumberSign),
];

/// The mark that a text is. A dot is told apart by what stands before it.
pub(crate) fn mark_of(text: &[u16]) -> Option<Mark>
    ensures { result ≡ mark_of text.now }
{
    sought(&MARKS, text)
}
