//! The law that ties static types to the operators. The functions do nothing: their contracts are the law.
ghost use Rattle.std.specs.Prelude.{◌≡◌, true, false, Some};
ghost use Rattle.vba_values.specs.Comparison.{is_variant};
ghost use Rattle.vba_values.specs.Operators.{binary_of, unary_of, has_two_operands};
ghost use Rattle.operator_laws.specs.StaticLaw.{is_of, is_answer};
ghost use Rattle.vba_values.specs.StaticTypes.{static_of};
ghost use Rattle.vba_values.specs.Types.{Declared};
ghost use Rattle.vba_values.specs.Val.{Val};
ghost use Rattle.vba_values.specs.declared.types.OpKind.{OpKind};
ghost use Rattle.vba_values.specs.declared.types.Compare.{Compare};

/// An operator of two operands, none of which is declared Variant, gives values of its static type, and never Null, and
/// never stops since its result would be a Double, where it has a static type.
pub fn binary_results_are_of_static_types()
    ensures { (op : OpKind) (left : Val) (ld : Declared) (right : Val) (rd : Declared) (compare : Compare) (given : Declared)
        → has_two_operands op ≡ true → is_variant ld ≡ false → is_variant rd ≡ false
        → is_of ld left ≡ true → is_of rd right ≡ true → static_of op ld rd ≡ Some given
        → is_answer given (binary_of op left ld right rd compare) ≡ true }
{}

/// An operator of one operand that isn't declared Variant does so too.
pub fn unary_results_are_of_static_types()
    ensures { (op : OpKind) (value : Val) (declared : Declared) (given : Declared)
        → has_two_operands op ≡ false → is_variant declared ≡ false
        → is_of declared value ≡ true → static_of op declared declared ≡ Some given
        → is_answer given (unary_of op value declared) ≡ true }
{}
