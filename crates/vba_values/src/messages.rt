ghost use Rattle.std.specs.Prelude.{◌≡◌};
ghost use Rattle.vba_values.specs.Messages.{message_of};

/// The message of an error's number.
pub fn message_of(number: i32) -> &'static str
    ensures { result.now ≡ message_of number }
{
    match number {
        3 => "Return without GoSub",
        5 => "Invalid procedure call or argument",
        6 => "Overflow",
        9 => "Subscript out of range",
        10 => "This array is fixed or temporarily locked",
        11 => "Division by zero",
        13 => "Type mismatch",
        20 => "Resume without error",
        28 => "Out of stack space",
        91 => "Object variable or With block variable not set",
        92 => "For loop not initialized",
        94 => "Invalid use of Null",
        424 => "Object required",
        438 => "Object doesn't support this property or method",
        449 => "Argument not optional",
        450 => "Wrong number of arguments or invalid property assignment",
        457 => "This key is already associated with an element of this collection",
        _ => "Application-defined or object-defined error",
    }
}
