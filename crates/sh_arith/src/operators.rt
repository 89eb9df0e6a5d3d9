//! What the operators compute (XCU 2.6.4), on 64 bits with sign.

ghost use Rattle.std.specs.Prelude.{◌≡◌, ◌≤◌, ◌^◌, ◌*ℤ◌, pos};
ghost use Rattle.sh_arith.specs.Operators.{applied, prefixed, in_range, truth};

use crate::faults::ArithFault;

/// A binary operator.
#[derive(Clone, Copy, Debug, PartialEq, Eq)]
pub(crate) enum Operator {
    Multiply,
    Divide,
    Remainder,
    Add,
    Subtract,
    ShiftLeft,
    ShiftRight,
    Less,
    LessOrEqual,
    Greater,
    GreaterOrEqual,
    Equal,
    NotEqual,
    BitAnd,
    BitXor,
    BitOr,
    And,
    Or,
}

/// A unary operator, which stands before its operand.
#[derive(Clone, Copy, Debug, PartialEq, Eq)]
pub(crate) enum Prefix {
    Plus,
    Minus,
    Complement,
    Not,
}

/// What a binary operator computes of two values.
pub(crate) fn applied(operator: Operator, left: i64, right: i64) -> Result<i64, ArithFault>
    ensures { result ≡ applied operator left right }
{
    match operator {
        Operator::Multiply => left.checked_mul(right).ok_or(ArithFault::Overflow),
        Operator::Divide => divided(left, right),
        Operator::Remainder => remainder(left, right),
        Operator::Add => left.checked_add(right).ok_or(ArithFault::Overflow),
        Operator::Subtract => left.checked_sub(right).ok_or(ArithFault::Overflow),
        Operator::ShiftLeft => shifted_left(left, right),
        Operator::ShiftRight => shifted_right(left, right),
        Operator::Less => Ok(truth(left < right)),
        Operator::LessOrEqual => Ok(truth(left <= right)),
        Operator::Greater => Ok(truth(right < left)),
        Operator::GreaterOrEqual => Ok(truth(right <= left)),
        Operator::Equal => Ok(truth(left == right)),
        Operator::NotEqual => Ok(truth(left != right)),
        Operator::BitAnd => Ok(left & right),
        Operator::BitXor => Ok(left ^ right),
        Operator::BitOr => Ok(left | right),
        Operator::And => Ok(truth(left != 0 && right != 0)),
        Operator::Or => Ok(truth(left != 0 || right != 0)),
    }
}

/// What a unary operator computes of a value.
pub(crate) fn prefixed(prefix: Prefix, value: i64) -> Result<i64, ArithFault>
    ensures { result ≡ prefixed prefix value }
{
    match prefix {
        Prefix::Plus => Ok(value),
        Prefix::Minus => value.checked_neg().ok_or(ArithFault::Overflow),
        Prefix::Complement => Ok(!value),
        Prefix::Not => Ok(truth(value == 0)),
    }
}

fn truth(holds: bool) -> i64
    ensures { result ≡ truth holds }
{
    if holds { 1 } else { 0 }
}

/// The quotient, towards zero.
fn divided(left: i64, right: i64) -> Result<i64, ArithFault>
    ensures { result ≡ applied Operator.Divide left right }
{
    if right == 0 {
        return Err(ArithFault::DivideByZero);
    }
    left.checked_div(right).ok_or(ArithFault::Overflow)
}

/// The remainder, with the dividend's sign. That of the least value by -1 is 0.
fn remainder(left: i64, right: i64) -> Result<i64, ArithFault>
    ensures { result ≡ applied Operator.Remainder left right }
{
    if right == 0 {
        return Err(ArithFault::DivideByZero);
    }
    Ok(left.wrapping_rem(right))
}

/// The value times 2 to the power of the count.
fn shifted_left(value: i64, count: i64) -> Result<i64, ArithFault>
    ensures { result ≡ applied Operator.ShiftLeft value count }
{
    if count < 0 || count > 63 {
        return Err(ArithFault::Overflow);
    }
    multiplied(value, count as u32)
}

/// The value times a power of 2.
fn multiplied(value: i64, exponent: u32) -> Result<i64, ArithFault>
    requires { exponent ≤ 63 }
    ensures { result ≡ in_range (value *ℤ pos (2 ^ exponent)) }
{
    if exponent == 63 {
        return multiplied_by_the_greatest(value);
    }
    value
        .checked_mul(power(exponent))
        .ok_or(ArithFault::Overflow)
}

/// A power of 2 that fits.
fn power(exponent: u32) -> i64
    requires { exponent ≤ 62 }
    ensures { result ≡ pos (2 ^ exponent) }
{
    1 << exponent
}

/// Of the products with 2 to the power of 63, only two fit.
fn multiplied_by_the_greatest(value: i64) -> Result<i64, ArithFault>
    ensures { result ≡ in_range (value *ℤ pos (2 ^ 63)) }
{
    match value {
        0 => Ok(0),
        -1 => Ok(i64::MIN),
        _ => Err(ArithFault::Overflow),
    }
}

/// The value divided by 2 to the power of the count, rounded down.
fn shifted_right(value: i64, count: i64) -> Result<i64, ArithFault>
    ensures { result ≡ applied Operator.ShiftRight value count }
{
    if count < 0 || count > 63 {
        return Err(ArithFault::Overflow);
    }
    Ok(value >> count as u32)
}
