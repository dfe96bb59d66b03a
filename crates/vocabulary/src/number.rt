ghost use Rattle.std.specs.Prelude.{◌≡◌};
ghost use Rattle.vocabulary.specs.Numbers.{narrowed, quotient32, compute32, operate32};

use crate::code::Operation;
use crate::end::End;
use crate::value::{Plain, Value};

// A number that is there; one that is beyond 32 bits is not.
fn narrow(res: Option<i32>) -> Result<Plain, End>
    ensures { result ≡ narrowed res }
{
    res.map(Plain::Number).ok_or(End::Overflow)
}

// Rounds toward zero.
fn quotient(left: i32, right: i32) -> Result<Plain, End>
    ensures { result ≡ quotient32 left right }
{
    if right == 0 {
        return Err(End::ZeroDivisor);
    }
    narrow(left.checked_div(right))
}

fn compute(operation: Operation, left: i32, right: i32) -> Result<Plain, End>
    ensures { result ≡ compute32 operation left right }
{
    match operation {
        Operation::Sum => narrow(left.checked_add(right)),
        Operation::Difference => narrow(left.checked_sub(right)),
        Operation::Product => narrow(left.checked_mul(right)),
        Operation::Quotient => quotient(left, right),
        Operation::Equal => Ok(Plain::Truth(left == right)),
        Operation::Less => Ok(Plain::Truth(left < right)),
    }
}

// What an operation gives for two values: not a number comes before a zero divisor, and that before an overflow.
pub fn operate(operation: Operation, left: Value, right: Value) -> Result<Plain, End>
    ensures { result ≡ operate32 operation left right }
{
    let (Value::Plain(Plain::Number(left)), Value::Plain(Plain::Number(right))) = (left, right)
    else {
        return Err(End::NoNumber);
    };
    compute(operation, left, right)
}
