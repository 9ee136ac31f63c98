// Names against ASCII words.
ghost use Rattle.std.specs.Prelude.{◌≡◌, map, bytes_eq};
ghost use Rattle.std.specs.List.{list_any};

/// Has a text these ASCII characters?
pub fn is_word(text: &[u16], word: &[u8]) -> bool
    ensures { result ≡ bytes_eq text.now word.now }
{
    match text {
        [] => word.is_empty(),
        [unit, text @ ..] => match word {
            [] => false,
            [character, word @ ..] => *unit == u16::from(*character) && is_word(text, word),
        },
    }
}

/// Are these ASCII characters a text?
#[tactic(auto, using(crate::proofs::Turned::bytes_eq_turned))]
pub(crate) fn is_written(word: &[u8], text: &[u16]) -> bool
    ensures { result ≡ bytes_eq word.now text.now }
{
    is_word(text, word)
}

/// Is a text one of these words?
pub(crate) fn is_among(mut words: &[&[u8]], text: &[u16]) -> bool
    ensures { result ≡ list_any (bytes_eq text.now) (map (λ word. word.now) words.entry.now) }
{
    while let [word, rest @ ..] = words {
        if is_word(text, word) {
            return true;
        }
        words = rest;
    }
    false
}
