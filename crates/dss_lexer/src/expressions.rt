// Postfix expressions.
ghost use Rattle.std.specs.Prelude.{◌≡◌, ◌≤◌, ◌^◌, ◌*ℤ◌, pos, int_lt, [], None, map, reverse};
ghost use Rattle.std.specs.Str.{chars};
ghost use Rattle.std.specs.Int.RustNames.{unsigned_abs};
ghost use Rattle.dss_lexer.specs.Answers.{Gives, Makes};
ghost use Rattle.dss_lexer.specs.Postfix.{operator_of, quotient, exact, operate, reduce, read_by, read_word, sole, value_after, postfix_of};
ghost use Rattle.fd_exact.specs.Rounding.{with_sign};

use crate::arrays::{number_of_word, words};
use crate::numbers::limited;
use crate::text::characters_of;
use crate::{NumberError, NumberFault};
use fd_exact::near_quotient;
use std::alloc::Global;

#[derive(Clone, Copy, Debug, PartialEq, Eq)]
pub enum Operator {
    Add,
    Subtract,
    Multiply,
    Divide,
}

fn operator_for(word: &[char]) -> Option<Operator>
    ensures { result ≡ operator_of word.now }
{
    match word {
        ['+'] => Some(Operator::Add),
        ['-'] => Some(Operator::Subtract),
        ['*'] => Some(Operator::Multiply),
        ['/'] => Some(Operator::Divide),
        _ => None,
    }
}

// The number in units of 10^-18 that the size of `right` divides, for the quotient in units of 10^-9.
fn dividend(left: i64, right: i64) -> i128
    ensures value { result ≡ with_sign (int_lt right (pos 0)) (left *ℤ pos 1_000_000_000) }
    ensures size { unsigned_abs result ≤ 2 ^ 126 }
{
    let scaled = i128::from(left) * 1_000_000_000;
    if right < 0 { -scaled } else { scaled }
}

#[tactic(auto, using(fd_exact::specs::Nearest::near_over_size))]
fn divided(left: i64, right: i64) -> Result<i128, NumberFault>
    ensures { result ≡ quotient left right }
{
    if right == 0 {
        return Err(NumberFault::DivideByZero);
    }
    Ok(near_quotient(dividend(left, right), u128::from(right.unsigned_abs())))
}

fn exact_result(operator: Operator, left: i64, right: i64) -> Result<i128, NumberFault>
    ensures { result ≡ exact operator left right }
{
    match operator {
        Operator::Add => Ok(i128::from(left) + i128::from(right)),
        Operator::Subtract => Ok(i128::from(left) - i128::from(right)),
        Operator::Multiply => Ok(near_quotient(
            i128::from(left) * i128::from(right),
            1_000_000_000,
        )),
        Operator::Divide => divided(left, right),
    }
}

// The result, rounded and within the limit of numbers.
fn result_of(operator: Operator, left: i64, right: i64) -> Result<i64, NumberFault>
    ensures { result ≡ operate operator left right }
{
    let exact = exact_result(operator, left, right)?;
    Ok(limited(exact)? as i64)
}

// The last two operands give way to their result.
fn reduce_stack(stack: &mut Vec<i64>, operator: Operator) -> Result<(), NumberError>
    ensures { Makes (reverse stack.new.items) result (reduce operator (reverse stack.old.items)) }
{
    let Some(right) = stack.pop() else {
        return Err(NumberError::Fault(NumberFault::BadPostfix));
    };
    let Some(left) = stack.pop() else {
        return Err(NumberError::Fault(NumberFault::BadPostfix));
    };
    stack.push(result_of(operator, left, right)?)?;
    Ok(())
}

fn push_number(alloc: Global, stack: &mut Vec<i64>, word: &[char]) -> Result<(), NumberError>
    ensures { Makes (reverse stack.new.items) result (read_by None (reverse stack.old.items) word.now) }
{
    let number = number_of_word(alloc, word)?;
    stack.push(number as i64)?;
    Ok(())
}

// The operands after one more word.
fn take_word(alloc: Global, stack: &mut Vec<i64>, word: &[char]) -> Result<(), NumberError>
    ensures { Makes (reverse stack.new.items) result (read_word (reverse stack.old.items) word.now) }
{
    match operator_for(word) {
        None => push_number(alloc, stack, word),
        Some(operator) => reduce_stack(stack, operator),
    }
}

#[tactic(auto, using(crate::proofs::Stacks::sole_many))]
fn sole_operand(stack: &[i64]) -> Result<i128, NumberFault>
    ensures { result ≡ sole (reverse stack.now) }
{
    match stack {
        [number] => Ok(i128::from(*number)),
        _ => Err(NumberFault::BadPostfix),
    }
}

fn value_of_words(alloc: Global, words: &[&[char]]) -> Result<i128, NumberError>
    ensures { Gives (λ n. n) result (value_after [] (map (λ word. word.now) words.now)) }
{
    let mut stack = Vec::new(alloc);
    for word in words {
        take_word(alloc, &mut stack, word)?;
    }
    Ok(sole_operand(&stack)?)
}

/// The value of a postfix expression, in whole units of 10^-9, as `8 1000 /` is 0.008.
///
/// Blanks, tabs and commas part its words: numbers, and the operators `+`, `-`, `*` and `/`, each of which takes
/// the last two operands, the earlier one on its left. Each result is rounded to the nearest unit, ties away from
/// zero, and then has the limit of a number.
/// Errors, of which the leftmost comes: BadNumber and NumberTooLarge as for `number`, NumberTooLarge for a result
/// of 10^9 or more in size, DivideByZero, BadPostfix where an operator lacks operands or not exactly one result is
/// left, NoMemory.
#[tactic(auto, unfolding(crate::specs::Postfix::postfix_of))]
pub fn postfix(alloc: Global, text: &str) -> Result<i128, NumberError>
    ensures { Gives (λ n. n) result (postfix_of (chars text.now)) }
{
    let characters = characters_of(alloc, text)?;
    let words = words(alloc, &characters)?;
    value_of_words(alloc, &words)
}
