//! The names of handlers of events of a class itself.

ghost use Rattle.std.specs.Prelude.{◌≡◌, ◌||◌, codes, bytes_eq};

/// The folds of Class_Initialize and Class_Terminate.
const INITIALIZE: [u16; 16] = [
    99, 108, 97, 115, 115, 95, 105, 110, 105, 116, 105, 97, 108, 105, 122, 101,
];

const TERMINATE: [u16; 15] = [
    99, 108, 97, 115, 115, 95, 116, 101, 114, 109, 105, 110, 97, 116, 101,
];

/// Is it the name of a handler of an event of the class itself?
pub fn is_own_name(name: &[u16]) -> bool
    ensures { result ≡ (bytes_eq name.now (codes "class_initialize") || bytes_eq name.now (codes "class_terminate")) }
{
    name == INITIALIZE.as_slice() || name == TERMINATE.as_slice()
}
