// The four operations: the exact value, cut toward zero where it is a decimal.

ghost use Rattle.std.specs.Prelude.{◌≡◌, ◌<◌, ◌*◌, false};
ghost use Rattle.rsp_number.specs.Decimals.{fit};
ghost use Rattle.rsp_number.specs.Numbers.{value_of, plus, opposite, times, inverse, is_zero, sum, difference, product, quotient};

use crate::decimals::DecimalNumber;
use crate::fit::fit_wide;
use crate::number::Number;
use crate::wide::Wide;

/// The sum: an integer of integers, else a decimal. None exactly where no such number holds it.
pub fn add(left: &Number, right: &Number) -> Option<Number>
    ensures { result ≡ sum left.now right.now }
{
    if let (Number::Integer(left), Number::Integer(right)) = (left, right) {
        return left.plus(*right).map(Number::Integer);
    }
    cut_sum(left, right).map(Number::Decimal)
}

/// The difference: an integer of integers, else a decimal. None exactly where no such number holds it.
pub fn sub(left: &Number, right: &Number) -> Option<Number>
    ensures { result ≡ difference left.now right.now }
{
    if let (Number::Integer(left), Number::Integer(right)) = (left, right) {
        return left.minus(*right).map(Number::Integer);
    }
    cut_difference(left, right).map(Number::Decimal)
}

/// The product: an integer of integers, else a decimal. None exactly where no such number holds it.
pub fn mul(left: &Number, right: &Number) -> Option<Number>
    ensures { result ≡ product left.now right.now }
{
    if let (Number::Integer(left), Number::Integer(right)) = (left, right) {
        return left.times(*right).map(Number::Integer);
    }
    cut_product(left, right).map(Number::Decimal)
}

/// The quotient, always a decimal. None exactly where the divisor is 0 or no decimal holds it.
///
/// 10 by 3 is 3.333333333333333333, 6 by 2 is the decimal 3, and 1 by 0 is None.
pub fn div(left: &Number, right: &Number) -> Option<Number>
    ensures { result ≡ quotient left.now right.now }
{
    if right.numerator().value() == 0 {
        return None;
    }
    cut_quotient(left, right).map(Number::Decimal)
}

/// The sum's cut to a decimal.
fn cut_sum(left: &Number, right: &Number) -> Option<DecimalNumber>
    ensures { let x = plus (value_of left.now) (value_of right.now) in
        result ≡ fit x.numerator x.denominator }
{
    let first = Wide::scaled(left.numerator(), right.denominator());
    let second = Wide::scaled(right.numerator(), left.denominator());
    fit_wide(first.plus(second), left.denominator() * right.denominator())
}

/// The difference's cut to a decimal.
fn cut_difference(left: &Number, right: &Number) -> Option<DecimalNumber>
    ensures { let x = plus (value_of left.now) (opposite (value_of right.now)) in
        result ≡ fit x.numerator x.denominator }
{
    let first = Wide::scaled(left.numerator(), right.denominator());
    let second = Wide::scaled(right.numerator().opposite(), left.denominator());
    fit_wide(first.plus(second), left.denominator() * right.denominator())
}

/// The product's cut to a decimal.
fn cut_product(left: &Number, right: &Number) -> Option<DecimalNumber>
    ensures { let x = times (value_of left.now) (value_of right.now) in
        result ≡ fit x.numerator x.denominator }
{
    let numerator = Wide::product(left.numerator(), right.numerator());
    fit_wide(numerator, left.denominator() * right.denominator())
}

/// The quotient's cut to a decimal.
fn cut_quotient(left: &Number, right: &Number) -> Option<DecimalNumber>
    requires { is_zero (value_of right.now) ≡ false }
    ensures { let x = times (value_of left.now) (inverse (value_of right.now)) in
        result ≡ fit x.numerator x.denominator }
{
    let divisor = right.numerator();
    let size = Wide::scaled(left.numerator(), right.denominator());
    let numerator = size.negated_where(divisor.is_below_zero());
    fit_wide(numerator, left.denominator() * divisor.size() as u128)
}
