ghost use Rattle.std.specs.Prelude.{◌≡◌, ◌↔◌, ◌≤◌, ◌^◌, unsigned_abs, option_map};
ghost use Rattle.currency.specs.Cut.{compare_signed};
ghost use Rattle.currency.specs.NumberText.{IsNoNumberText, read};
ghost use Rattle.currency.specs.Parsed.{compare_numeral};

use crate::cut::Cut;
use crate::numeral::read;
use std::cmp::Ordering;

/// How a count of ten-thousandths, of at most 10^23 in size, compares with a number text, exactly. None where the text
/// is no number text.
pub fn compare_text(ten_thousandths: i128, text: &[u16]) -> Option<Ordering>
    requires { unsigned_abs ten_thousandths ≤ 10 ^ 23 }
    ensures order { result ≡ option_map (compare_numeral ten_thousandths) (read text.now) }
    ensures none { (result ≡ None) ↔ IsNoNumberText text.now }
{
    let numeral = read(text)?;
    let size = Cut::of(numeral, 4).compare(ten_thousandths.unsigned_abs());
    Some(compare_signed(ten_thousandths, numeral.negative, size))
}

/// From how the sizes compare.
fn compare_signed(count: i128, negative: bool, size: Ordering) -> Ordering
    ensures { result ≡ compare_signed count negative size }
{
    match (count < 0, negative) {
        (false, false) => size,
        (true, true) => size.reverse(),
        (true, false) => Ordering::Less,
        (false, true) if count == 0 && size.is_eq() => Ordering::Equal,
        (false, true) => Ordering::Greater,
    }
}
