//! The numbers that pass the tests on an attribute, from a start up to an end, and the texts that they want.
ghost use Rattle.std.specs.Prelude.{◌≡◌, IfOk, map, option_copied};
ghost use Rattle.sql_slice.specs.Ends.{clamped, behind, start_by, end_by, start_of, end_of, start_in, end_in};
ghost use Rattle.sql_slice.specs.Plans.{bounds, wanted, wanted_by, texts_in, is_bound};

use fact_model::{GREATEST_NUMBER, Memory, Text};
use sql_lang::{Operand, Sign, Test};
use std::alloc::Global;

/// One more than the greatest number of a number attribute.
pub(crate) const NUMBER_END: u64 = GREATEST_NUMBER + 1;

/// Whether the test is on the attribute, and not by IN.
fn bounds(test: &Test, attr: u32) -> bool
    ensures { result ≡ bounds attr test.now }
{
    !test.is_list() && test.attr() == attr
}

/// The start of the numbers that pass the test. Tests by IN are not looked at.
fn start_of(test: &Test) -> u64
    ensures { result ≡ start_of test.now }
{
    match test {
        Test::Compare { sign, value, .. } => match value {
            Operand::Whole(number) => start_by(*sign, *number),
            Operand::Word(_) => 0,
        },
        Test::Between { low, .. } => clamped(*low),
        Test::OneOf { .. } => 0,
    }
}

/// The end of the numbers that pass the test: the number behind the last one.
fn end_of(test: &Test) -> u64
    ensures { result ≡ end_of test.now }
{
    match test {
        Test::Compare { sign, value, .. } => match value {
            Operand::Whole(number) => end_by(*sign, *number),
            Operand::Word(_) => 0,
        },
        Test::Between { high, .. } => behind(*high),
        Test::OneOf { .. } => NUMBER_END,
    }
}

/// The text that an equality wants.
fn wanted(test: &Test) -> Option<&Text>
    ensures { option_copied result ≡ wanted test.now }
{
    match test {
        Test::Compare { sign, value, .. } => wanted_by(*sign, value),
        Test::Between { .. } | Test::OneOf { .. } => None,
    }
}

/// The text that an attribute is compared with by `=`.
fn wanted_by(sign: Sign, value: &Operand) -> Option<&Text>
    ensures { option_copied result ≡ wanted_by sign value.now }
{
    match sign {
        Sign::Equal => match value {
            Operand::Word(text) => Some(text),
            Operand::Whole(_) => None,
        },
        Sign::Less | Sign::LessEqual | Sign::More | Sign::MoreEqual => None,
    }
}

/// The number as one of an attribute: 0 where it is less, and the end where it is greater than all of them.
fn clamped(number: i128) -> u64
    ensures { result ≡ clamped number }
{
    if number < 0 {
        return 0;
    }
    if number > i128::from(GREATEST_NUMBER) {
        return NUMBER_END;
    }
    number as u64
}

/// The next number, likewise.
fn behind(number: i128) -> u64
    ensures { result ≡ behind number }
{
    if number < 0 {
        return 0;
    }
    if number > i128::from(GREATEST_NUMBER) {
        return NUMBER_END;
    }
    number as u64 + 1
}

/// The start of the numbers that compare so with this one.
fn start_by(sign: Sign, number: i128) -> u64
    ensures { result ≡ start_by sign number }
{
    match sign {
        Sign::Equal | Sign::MoreEqual => clamped(number),
        Sign::More => behind(number),
        Sign::Less | Sign::LessEqual => 0,
    }
}

/// The end of the numbers that compare so with this one.
fn end_by(sign: Sign, number: i128) -> u64
    ensures { result ≡ end_by sign number }
{
    match sign {
        Sign::Equal | Sign::LessEqual => behind(number),
        Sign::Less => clamped(number),
        Sign::More | Sign::MoreEqual => NUMBER_END,
    }
}

/// Whether a test other than IN is on the attribute.
pub(crate) fn is_bound(tests: &[Test], attr: u32) -> bool
    ensures { result ≡ is_bound attr tests.now }
{
    tests.iter().any(|test| bounds(test, attr))
}

/// The start of the numbers that pass all tests on the attribute but those by IN.
pub(crate) fn start_in(tests: &[Test], attr: u32) -> u64
    ensures { result ≡ start_in attr tests.now }
{
    let mut start = 0;
    for test in tests {
        if bounds(test, attr) {
            start = start_of(test).max(start);
        }
    }
    start
}

/// The end of these numbers.
pub(crate) fn end_in(tests: &[Test], attr: u32) -> u64
    ensures { result ≡ end_in attr tests.now }
{
    let mut end = NUMBER_END;
    for test in tests {
        if bounds(test, attr) {
            end = end_of(test).min(end);
        }
    }
    end
}

/// The texts that equalities on the attribute want.
pub(crate) fn texts_in<'a>(
    alloc: Global,
    tests: &'a [Test],
    attr: u32,
) -> Result<Vec<&'a [u8]>, Memory>
    ensures { IfOk result (λ texts. map (λ text. text.now) texts.items ≡ texts_in attr tests.now) }
{
    let mut texts = Vec::new(alloc);
    for test in tests {
        if bounds(test, attr) {
            if let Some(text) = wanted(test) {
                texts.push(text.as_bytes())?;
            }
        }
    }
    Ok(texts)
}
