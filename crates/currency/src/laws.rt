//! Laws of the definitions that the calls are proved against. The functions do nothing: their contracts are the laws.
ghost use Rattle.std.specs.Prelude.{◌≡◌, ◌<◌, ℕ, ℤ, List, Some};
ghost use Rattle.currency.specs.HalfEven.{IsHalfEven, half_even};
ghost use Rattle.currency.specs.NumberText.{IsNumberText, Numeral, read};

/// What rounding gives is the whole number nearest to the quotient, and of two that are equally near the even one.
pub fn rounding_gives_the_nearest()
    ensures nearest { (p : ℤ) (q : ℕ) → 0 < q → IsHalfEven p q (half_even p q) }
    ensures only { (p : ℤ) (q : ℕ) (r : ℤ) → 0 < q → IsHalfEven p q r → r ≡ half_even p q }
{}

/// What is read from a text is the number that it writes, exactly where it is a number text.
pub fn number_texts_are_read()
    ensures reads { (text : List ℕ) (n : Numeral) → IsNumberText text n → read text ≡ Some n }
    ensures writes { (text : List ℕ) (n : Numeral) → read text ≡ Some n → IsNumberText text n }
{}
