ghost use Rattle.std.specs.Prelude.{◌≡◌, ◌<◌, ◌^◌, unsigned_abs};
ghost use Rattle.currency.specs.HalfEven.{nearest, half_even};

/// The whole number nearest to the quotient, the even one of two.
pub fn half_even(dividend: i128, divisor: u64) -> i128
    requires positive { 0 < divisor }
    requires small { unsigned_abs dividend < 2 ^ 127 }
    ensures { result ≡ half_even dividend divisor }
{
    let size = nearest(dividend.unsigned_abs(), u128::from(divisor)) as i128;
    if dividend < 0 { -size } else { size }
}

#[tactic(auto, unfolding(crate::specs::HalfEven::nearest))]
fn nearest(dividend: u128, divisor: u128) -> u128
    requires positive { 0 < divisor }
    requires small { divisor < 2 ^ 126 }
    ensures { result ≡ nearest dividend divisor }
{
    let whole = dividend / divisor;
    let twice = 2 * (dividend % divisor);
    if twice < divisor {
        whole
    } else if divisor < twice {
        whole + 1
    } else {
        whole + whole % 2
    }
}
