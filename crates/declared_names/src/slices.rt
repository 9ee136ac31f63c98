//! Parts of slices, of which some may lie outside.

ghost use Rattle.std.specs.Prelude.{◌≡◌, take, drop};

/// What stands behind so many items.
pub(crate) fn dropped<T>(items: &[T], count: usize) -> &[T]
    ensures { result.now ≡ drop count items.now }
{
    if count < items.len() {
        &items[count..]
    } else {
        &[]
    }
}

/// The first items, at most so many.
pub(crate) fn taken<T>(items: &[T], count: usize) -> &[T]
    ensures { result.now ≡ take count items.now }
{
    if count < items.len() {
        &items[..count]
    } else {
        items
    }
}
