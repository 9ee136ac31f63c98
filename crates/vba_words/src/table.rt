ghost use Rattle.std.specs.Prelude.{◌≡◌, map, bytes_eq};
ghost use Rattle.vba_words.specs.Keywords.{sought};

/// Has a text these ASCII characters?
pub(crate) fn is_text(text: &[u16], characters: &[u8]) -> bool
    ensures { result ≡ bytes_eq text.now characters.now }
{
    match text {
        [] => characters.is_empty(),
        [unit, text @ ..] => match characters {
            [] => false,
            [character, characters @ ..] => {
                *unit == u16::from(*character) && is_text(text, characters)
            }
        },
    }
}

/// What stands beside a text in a table.
pub(crate) fn sought<T: Copy>(mut table: &[(&[u8], T)], text: &[u16]) -> Option<T>
    ensures { result ≡ sought text.now (map (λ row. (row.0.now, row.1)) table.entry.now) }
{
    while let [row, rest @ ..] = table {
        if is_text(text, row.0) {
            return Some(row.1);
        }
        table = rest;
    }
    None
}
