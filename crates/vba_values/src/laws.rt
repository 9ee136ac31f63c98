//! Laws of the definitions that the calls are proved against. The functions do nothing: their contracts are the laws.
ghost use Rattle.std.specs.Prelude.{◌≡◌, ◌⊎◌, true, false, Ok};
ghost use Rattle.vba_values.specs.Coerce.{coerce_of};
ghost use Rattle.vba_values.specs.Held.{can_hold, has_parts};
ghost use Rattle.vba_values.specs.Types.{Declared};
ghost use Rattle.vba_values.specs.Val.{Val};

/// Let-coercion gives what a variable of the declared type can hold, and keeps what it can hold. What it gives has no
/// parts, or is the value itself.
pub fn coercion_gives_its_type()
    ensures gives { (value given : Val) (to : Declared) → coerce_of value to ≡ Ok given → can_hold to given ≡ true }
    ensures keeps { (value : Val) (to : Declared) → can_hold to value ≡ true → coerce_of value to ≡ Ok value }
    ensures parts { (value given : Val) (to : Declared) → coerce_of value to ≡ Ok given → (given ≡ value) ⊎ (has_parts given ≡ false) }
{}
