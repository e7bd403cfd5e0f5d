//! Lists that stand for points together: each has one number, or one part, of each point. What stands past the end of a list is zero, so
//! that a list of zeros alone takes no room.
ghost use Rattle.std.specs.Prelude.{◌≡◌, ◌≢◌, ◌≤◌, ◌-◌, ◌++◌, ℕ, [], All, OnOk, get_or, length, replicate};
ghost use Rattle.fact_model.specs.Cell.{part_of};
ghost use Rattle.point_groups.specs.Columns.{numbers_at, parts_at};

use fact_model::{Memory, Part};

/// The part of no facts.
pub(crate) const NO_PART: Part = Part {
    sum: 0,
    low: 0,
    high: 0,
};

/// The number at a place, and 0 past the end.
pub(crate) fn number_at(numbers: &[u64], place: usize) -> u64
    ensures { result ≡ get_or numbers.now place 0 }
{
    match numbers.get(place) {
        Some(number) => *number,
        None => 0,
    }
}

/// The part at a place, and that of no facts past the end.
pub(crate) fn part_at(parts: &[Part], place: usize) -> Part
    ensures { result ≡ get_or parts.now place (part_of []) }
{
    match parts.get(place) {
        Some(part) => *part,
        None => NO_PART,
    }
}

/// The number of one of the lists at a place, and 0 past the lists.
#[inline(always)]
pub(crate) fn number_in(lists: &[Vec<u64>; 8], place: usize, index: usize) -> u64
    ensures { result ≡ get_or (numbers_at place lists.now) index 0 }
{
    if index < 8 {
        return number_at(&lists[index], place);
    }
    0
}

/// The part of one of the lists at a place, and that of no facts past the lists.
#[inline(always)]
pub(crate) fn part_in(lists: &[Vec<Part>; 4], place: usize, index: usize) -> Part
    ensures { result ≡ get_or (parts_at place lists.now) index (part_of []) }
{
    if index < 4 {
        return part_at(&lists[index], place);
    }
    NO_PART
}

/// The greatest of some numbers, and 0 where there is none.
fn greatest_of(numbers: &[u64]) -> u64
    ensures { All (λ n. n ≤ result) numbers.now }
{
    let mut greatest = 0;
    for number in numbers {
        greatest = (*number).max(greatest);
    }
    greatest
}

/// The greatest number of one of the lists, and 0 past the lists.
pub(crate) fn greatest_in(lists: &[Vec<u64>; 8], index: usize) -> u64
    ensures { (place : ℕ) → get_or (numbers_at place lists.now) index 0 ≤ result }
{
    if index < 8 {
        return greatest_of(&lists[index]);
    }
    0
}

/// The number of each list at a place.
pub(crate) fn numbers_at(lists: &[Vec<u64>; 8], place: usize) -> [u64; 8]
    ensures { result ≡ numbers_at place lists.now }
{
    let mut numbers = [0; 8];
    for i in 0..8 {
        numbers[i] = number_at(&lists[i], place);
    }
    numbers
}

/// The part of each list at a place.
pub(crate) fn parts_at(lists: &[Vec<Part>; 4], place: usize) -> [Part; 4]
    ensures { result ≡ parts_at place lists.now }
{
    let mut parts = [NO_PART; 4];
    for i in 0..4 {
        parts[i] = part_at(&lists[i], place);
    }
    parts
}

/// Puts a number to a place of a list. Places before it that had none have 0.
pub(crate) fn put_number(numbers: &mut Vec<u64>, place: usize, number: u64) -> Result<(), Memory>
    ensures there { OnOk result (get_or numbers.new.items place 0 ≡ number) }
    ensures others { OnOk result ((k : ℕ) → k ≢ place → get_or numbers.new.items k 0 ≡ get_or numbers.old.items k 0) }
{
    if place < numbers.len() {
        numbers[place] = number;
        return Ok(());
    }
    if number == 0 {
        return Ok(());
    }
    fill_numbers(numbers, place)?;
    numbers.push(number)?;
    Ok(())
}

/// Puts a part to a place of a list. Places before it that had none have that of no facts.
fn put_part(parts: &mut Vec<Part>, place: usize, part: &Part) -> Result<(), Memory>
    ensures there { OnOk result (get_or parts.new.items place (part_of []) ≡ part.now) }
    ensures others { OnOk result ((k : ℕ) → k ≢ place → get_or parts.new.items k (part_of []) ≡ get_or parts.old.items k (part_of [])) }
{
    if place < parts.len() {
        parts[place] = *part;
        return Ok(());
    }
    if *part == NO_PART {
        return Ok(());
    }
    fill_parts(parts, place)?;
    parts.push(*part)?;
    Ok(())
}

/// Puts zeros to the end of a list up to a place, which most often has come to it.
fn fill_numbers(numbers: &mut Vec<u64>, place: usize) -> Result<(), Memory>
    requires { length numbers.old.items ≤ place }
    ensures { OnOk result (numbers.new.items ≡ numbers.old.items ++ replicate (place - length numbers.old.items) 0) }
{
    if numbers.len() == place {
        return Ok(());
    }
    numbers.resize(place, 0)?;
    Ok(())
}

/// The same of parts.
fn fill_parts(parts: &mut Vec<Part>, place: usize) -> Result<(), Memory>
    requires { length parts.old.items ≤ place }
    ensures { OnOk result (parts.new.items ≡ parts.old.items ++ replicate (place - length parts.old.items) (part_of [])) }
{
    if parts.len() == place {
        return Ok(());
    }
    parts.resize(place, NO_PART)?;
    Ok(())
}

/// Puts a number to a place of each list.
pub(crate) fn put_numbers(
    lists: &mut [Vec<u64>; 8],
    place: usize,
    numbers: &[u64; 8],
) -> Result<(), Memory>
    ensures there { OnOk result (numbers_at place lists.new ≡ numbers.now) }
    ensures others { OnOk result ((k : ℕ) → k ≢ place → numbers_at k lists.new ≡ numbers_at k lists.old) }
{
    for i in 0..8 {
        put_number(&mut lists[i], place, numbers[i])?;
    }
    Ok(())
}

/// Puts a part to a place of each list.
pub(crate) fn put_parts(
    lists: &mut [Vec<Part>; 4],
    place: usize,
    parts: &[Part; 4],
) -> Result<(), Memory>
    ensures there { OnOk result (parts_at place lists.new ≡ parts.now) }
    ensures others { OnOk result ((k : ℕ) → k ≢ place → parts_at k lists.new ≡ parts_at k lists.old) }
{
    for i in 0..4 {
        put_part(&mut lists[i], place, &parts[i])?;
    }
    Ok(())
}
