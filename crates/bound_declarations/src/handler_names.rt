//! The names of handlers.

ghost use Rattle.std.specs.Prelude.{◌≡◌, [], bytes_eq};
ghost use Rattle.constant_values.specs.declared_names.specs.binder.specs.EventTables.{handler_name};

/// The unit of `_`.
const UNDERSCORE: u16 = 0x5f;

/// The fold of Change.
pub const CHANGE: [u16; 6] = [99, 104, 97, 110, 103, 101];

/// Is it the name of an event behind `_`?
fn is_behind(name: &[u16], event: &[u16]) -> bool
    ensures { result ≡ bytes_eq name.now (handler_name [] event.now) }
{
    match name {
        [first, left @ ..] => *first == UNDERSCORE && *left == *event,
        [] => false,
    }
}

/// Is a name that of a variable, `_` and that of an event?
pub fn is_handler_name(mut name: &[u16], mut source: &[u16], event: &[u16]) -> bool
    ensures { result ≡ bytes_eq name.entry.now (handler_name source.entry.now event.now) }
{
    while let [unit, more @ ..] = source {
        let [first, left @ ..] = name else {
            return false;
        };
        if *first != *unit {
            return false;
        }
        name = left;
        source = more;
    }
    is_behind(name, event)
}
