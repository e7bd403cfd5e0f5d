//! The cell of an entry where its bytes lie, joined to another without being decoded.

ghost use Rattle.std.specs.Prelude.{◌≡◌, ◌↔◌, ◌≤◌, ◌<◌, ◌+◌, ◌*◌, ◌^◌, ◌+ℤ◌, ℕ, IsTrue, FitsSigned, drop, false, length, get_or};
ghost use Rattle.std.specs.Int.{w128};
ghost use Rattle.fact_model.specs.Cell.{FitCells, PartFits, SumFitsAt, join, join_parts};
ghost use Rattle.page_entry.specs.declared.size.TheConstants.{COUNT, PART};
ghost use Rattle.page_entry.specs.Cells.{EndsInZeros, IsJoined, cell_of};
ghost use Rattle.page_entry.specs.Entries.{no_part};

use crate::read::part_at;
use crate::size::{COUNT, PART};
use be_numbers::{take_i128, take_u64};
use fact_model::{Cell, Part};

/// Whether two sums add up within 128 bits.
fn adds(a: i128, b: i128) -> bool
    ensures { IsTrue result ↔ FitsSigned w128 (a +ℤ b) }
{
    a.checked_add(b).is_some()
}

/// The part of two lists of numbers, from the parts of both.
fn joined(part: &Part, other: &Part) -> Part
    requires { PartFits part.now other.now }
    ensures { result ≡ join_parts part.now other.now }
{
    Part {
        sum: part.sum + other.sum,
        low: part.low.min(other.low),
        high: part.high.max(other.high),
    }
}

/// Whether the sums of the cell that begins at a place add up with those of another of as many measures, for each measure.
fn do_sums_fit(bytes: &[u8], at: usize, cell: &Cell) -> bool
    requires measures { cell.now.measures ≤ 4 }
    requires place { at + (COUNT + cell.now.measures * PART) ≤ length bytes.now }
    ensures { IsTrue result ↔ ((m : ℕ) → m < cell.now.measures → SumFitsAt cell.now (cell_of cell.now.measures (drop at bytes.now)) m) }
{
    for measure in 0..cell.measures as usize {
        let sum = take_i128(bytes, at + COUNT + measure * PART);
        if !adds(cell.parts[measure].sum, sum) {
            return false;
        }
    }
    true
}

/// Shows that each sum is a number of 128 bits, as its type says.
#[inline(always)]
fn are_sums(cell: &Cell)
    ensures { (m : ℕ) → m < 4 → FitsSigned w128 (get_or cell.now.parts m no_part).sum }
{
    let _sums = [
        cell.parts[0].sum,
        cell.parts[1].sum,
        cell.parts[2].sum,
        cell.parts[3].sum,
    ];
}

/// Whether the cell that begins at a place joins to another of as many measures.
fn fits(bytes: &[u8], at: usize, cell: &Cell) -> bool
    requires measures { cell.now.measures ≤ 4 }
    requires place { at + (COUNT + cell.now.measures * PART) ≤ length bytes.now }
    ensures fits { IsTrue result ↔ FitCells cell.now (cell_of cell.now.measures (drop at bytes.now)) }
    ensures measured { IsTrue result → (m : ℕ) → m < cell.now.measures → SumFitsAt cell.now (cell_of cell.now.measures (drop at bytes.now)) m }
    ensures counted { IsTrue result → cell.now.count + (cell_of cell.now.measures (drop at bytes.now)).count < 2 ^ 64 }
{
    if cell.count.checked_add(take_u64(bytes, at)).is_none() {
        return false;
    }
    are_sums(cell);
    do_sums_fit(bytes, at, cell)
}

/// Joins to the part of each measure that of the cell that begins at a place. The parts past the measures stay.
fn join_each(bytes: &[u8], measures: u8, at: usize, parts: &mut [Part; 4])
    requires measures { measures ≤ 4 }
    requires place { at + (COUNT + measures * PART) ≤ length bytes.now }
    requires fit { (m : ℕ) → m < measures → PartFits (get_or parts.old m no_part) (get_or (cell_of measures (drop at bytes.now)).parts m no_part) }
    ensures joined { (m : ℕ) → m < measures → get_or parts.new m no_part ≡ join_parts (get_or parts.old m no_part) (get_or (cell_of measures (drop at bytes.now)).parts m no_part) }
    ensures past { (m : ℕ) → measures ≤ m → get_or parts.new m no_part ≡ get_or parts.old m no_part }
    ensures four { length parts.new ≡ 4 }
{
    for measure in 0..measures as usize {
        let part = part_at(bytes, at + COUNT + measure * PART);
        parts[measure] = joined(&parts[measure], &part);
    }
}

/// Joins the cell that begins at a place to another of as many measures, if they join. False, where they do not: then nothing is changed.
/// What the other has past its measures stays. It stands apart from what joins cells of one measure, which takes fewer registers.
#[inline(never)]
fn join_all(bytes: &[u8], at: usize, cell: &mut Cell) -> bool
    requires measures { cell.old.measures ≤ 4 }
    requires place { at + (COUNT + cell.old.measures * PART) ≤ length bytes.now }
    ensures fits { IsTrue result ↔ FitCells cell.old (cell_of cell.old.measures (drop at bytes.now)) }
    ensures joined { IsTrue result → IsJoined cell.old (cell_of cell.old.measures (drop at bytes.now)) cell.new }
    ensures whole { EndsInZeros cell.old → IsTrue result → cell.new ≡ join cell.old (cell_of cell.old.measures (drop at bytes.now)) }
    ensures same { result ≡ false → cell.new ≡ cell.old }
{
    if !fits(bytes, at, cell) {
        return false;
    }
    cell.count += take_u64(bytes, at);
    join_each(bytes, cell.measures, at, &mut cell.parts);
    true
}

/// The same of cells of one measure, each number of which is read once.
fn join_single(bytes: &[u8], at: usize, cell: &mut Cell) -> bool
    requires measures { cell.old.measures ≡ 1 }
    requires place { at + (COUNT + PART) ≤ length bytes.now }
    ensures fits { IsTrue result ↔ FitCells cell.old (cell_of cell.old.measures (drop at bytes.now)) }
    ensures joined { IsTrue result → IsJoined cell.old (cell_of cell.old.measures (drop at bytes.now)) cell.new }
    ensures whole { EndsInZeros cell.old → IsTrue result → cell.new ≡ join cell.old (cell_of cell.old.measures (drop at bytes.now)) }
    ensures same { result ≡ false → cell.new ≡ cell.old }
{
    are_sums(cell);
    let Some(count) = cell.count.checked_add(take_u64(bytes, at)) else {
        return false;
    };
    let part = part_at(bytes, at + COUNT);
    if !adds(cell.parts[0].sum, part.sum) {
        return false;
    }
    cell.count = count;
    cell.parts[0] = joined(&cell.parts[0], &part);
    true
}

/// Joins the cell that begins at a place to another of as many measures, if they join. False, where they do not: then nothing is changed.
/// What the other has past its measures stays.
pub(crate) fn join_cell(bytes: &[u8], at: usize, cell: &mut Cell) -> bool
    requires measures { cell.old.measures ≤ 4 }
    requires place { at + (COUNT + cell.old.measures * PART) ≤ length bytes.now }
    ensures fits { IsTrue result ↔ FitCells cell.old (cell_of cell.old.measures (drop at bytes.now)) }
    ensures joined { IsTrue result → IsJoined cell.old (cell_of cell.old.measures (drop at bytes.now)) cell.new }
    ensures whole { EndsInZeros cell.old → IsTrue result → cell.new ≡ join cell.old (cell_of cell.old.measures (drop at bytes.now)) }
    ensures zeros { EndsInZeros cell.old → EndsInZeros cell.new }
    ensures same { result ≡ false → cell.new ≡ cell.old }
{
    if cell.measures == 1 {
        return join_single(bytes, at, cell);
    }
    join_all(bytes, at, cell)
}
