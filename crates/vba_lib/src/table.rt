// Tables of names by their case folds.
ghost use Rattle.std.specs.Prelude.{◌≡◌, map, bytes_eq};
ghost use Rattle.std.specs.List.{list_any};
ghost use Rattle.vba_lib.specs.Names.{sought};

/// Has a text these ASCII characters?
fn is_text(text: &[u16], characters: &[u8]) -> bool
    ensures { result ≡ bytes_eq text.now characters.now }
{
    match text {
        [] => characters.is_empty(),
        [unit, text @ ..] => match characters {
            [] => false,
            [character, characters @ ..] => {
                *unit == u16::from(*character) && is_text(text, characters)
            }
        },
    }
}

/// What stands beside a name in a table.
pub fn sought<T: Copy>(mut table: &[(&[u8], T)], name: &[u16]) -> Option<T>
    ensures { result ≡ sought name.now (map (λ row. (row.0.now, row.1)) table.entry.now) }
{
    while let [row, rest @ ..] = table {
        if is_text(name, row.0) {
            return Some(row.1);
        }
        table = rest;
    }
    None
}

/// Whether a name stands in a table.
pub fn is_among(mut table: &[&[u8]], name: &[u16]) -> bool
    ensures { result ≡ list_any (bytes_eq name.now) (map (λ row. row.now) table.entry.now) }
{
    while let [row, rest @ ..] = table {
        if is_text(name, row) {
            return true;
        }
        table = rest;
    }
    false
}
