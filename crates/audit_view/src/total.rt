//! Cells added up exactly, even if a sum passes 128 bits on the way.

ghost use Rattle.std.specs.Prelude.{◌≡◌, ◌↔◌, ◌≤◌, ◌<◌, ◌+◌, ◌^◌, ◌+ℤ◌, ◌<ℤ◌, ◌≤ℤ◌, ℕ, pos, Some, Option, IsTrue, FitsSigned, false, length};
ghost use Rattle.std.specs.Int.{w128};
ghost use Rattle.fact_model.specs.Cell.{join_parts};
ghost use Rattle.fact_model.specs.declared.cell.Cell as cells;
ghost use Rattle.audit_view.specs.Totals.{HoldsSum, IsCell, IsSteady, exact_part, exact_sum, part_in, plus, total_of};

use fact_model::{Cell, Part};

/// A part whose sum is `low`, plus 2^128 for each of the ups, less 2^128 for each of the downs.
#[derive(Clone, Copy)]
pub(crate) struct ExactPart {
    pub(crate) low: i128,
    pub(crate) ups: u64,
    pub(crate) downs: u64,
    pub(crate) least: i128,
    pub(crate) greatest: i128,
}

/// The join of some cells.
#[derive(Clone, Copy)]
pub(crate) struct Total {
    pub(crate) count: u64,
    pub(crate) parts: [ExactPart; 4],
}

impl ExactPart {
    /// A part as an exact part.
    fn of(part: &Part) -> ExactPart
        ensures { result ≡ exact_part part.now }
    {
        ExactPart {
            low: part.sum,
            ups: 0,
            downs: 0,
            least: part.low,
            greatest: part.high,
        }
    }

    /// Whether it equals this part.
    fn is(self, part: Part) -> bool
        ensures { IsTrue result ↔ (part_in self ≡ part) }
    {
        if self.ups != self.downs {
            return false;
        }
        if self.low != part.sum {
            return false;
        }
        if self.least != part.low {
            return false;
        }
        if self.greatest != part.high {
            return false;
        }
        true
    }

    /// The part with a number added to its sum.
    #[tactic(auto, unfolding(crate::specs::Totals::exact_sum))]
    fn with_sum(self, sum: i128) -> ExactPart
        requires few { self.ups + self.downs + 1 < 2 ^ 64 }
        ensures sum { exact_sum result ≡ exact_sum self +ℤ sum }
        ensures least { result.least ≡ self.least }
        ensures greatest { result.greatest ≡ self.greatest }
        ensures few { result.ups + result.downs ≤ self.ups + self.downs + 1 }
    {
        match self.low.checked_add(sum) {
            Some(low) => ExactPart { low, ..self },
            None => self.past(sum),
        }
    }

    /// The same, if the number and `low` do not add up within 128 bits.
    #[tactic(auto, unfolding(crate::specs::Totals::exact_sum))]
    fn past(self, sum: i128) -> ExactPart
        requires past { FitsSigned w128 (self.low +ℤ sum) → ⊥ }
        requires few { self.ups + self.downs + 1 < 2 ^ 64 }
        ensures sum { exact_sum result ≡ exact_sum self +ℤ sum }
        ensures least { result.least ≡ self.least }
        ensures greatest { result.greatest ≡ self.greatest }
        ensures few { result.ups + result.downs ≤ self.ups + self.downs + 1 }
    {
        if sum > 0 {
            let low = lowered(self.low, sum);
            ExactPart {
                low,
                ups: self.ups + 1,
                ..self
            }
        } else {
            let low = raised(self.low, sum);
            ExactPart {
                low,
                downs: self.downs + 1,
                ..self
            }
        }
    }

    /// The part with another joined to it.
    fn with(self, other: &Part) -> ExactPart
        requires few { self.ups + self.downs + 1 < 2 ^ 64 }
        ensures joined { part_in result ≡ join_parts (part_in self) other.now }
        ensures few { result.ups + result.downs ≤ self.ups + self.downs + 1 }
    {
        let sum = self.with_sum(other.sum);
        ExactPart {
            least: self.least.min(other.low),
            greatest: self.greatest.max(other.high),
            ..sum
        }
    }
}

impl Total {
    /// The join of no cells.
    pub(crate) fn none() -> Total
        ensures none { result.count ≡ 0 }
        ensures steady { IsSteady result }
    {
        let part = ExactPart {
            low: 0,
            ups: 0,
            downs: 0,
            least: 0,
            greatest: 0,
        };
        Total {
            count: 0,
            parts: [part; 4],
        }
    }

    /// The join of one cell.
    fn of(cell: &Cell) -> Total
        ensures { result ≡ total_of cell.now }
    {
        Total {
            count: cell.count,
            parts: [
                ExactPart::of(&cell.parts[0]),
                ExactPart::of(&cell.parts[1]),
                ExactPart::of(&cell.parts[2]),
                ExactPart::of(&cell.parts[3]),
            ],
        }
    }

    /// Joins a cell. False if it has no facts, or the counts do not add up within 64 bits; then nothing is changed.
    pub(crate) fn add(&mut self, cell: &Cell) -> bool
        requires { IsSteady self.old }
        ensures joined { (measures : ℕ) (sum : Option cells.Cell) → cell.now.measures ≡ measures → HoldsSum measures sum self.old
            → IsTrue result → HoldsSum measures (plus sum (Some cell.now)) self.new }
        ensures steady { IsSteady self.new }
        ensures past { result ≡ false → 0 < cell.now.count → 2 ^ 64 ≤ self.old.count + cell.now.count }
    {
        have_four(self, cell);
        if cell.count == 0 {
            return false;
        }
        if self.count == 0 {
            *self = Total::of(cell);
            return true;
        }
        self.join(cell)
    }

    /// Joins a cell with facts to a total with facts. False if the counts do not add up within 64 bits; then nothing is
    /// changed.
    fn join(&mut self, cell: &Cell) -> bool
        requires steady { IsSteady self.old }
        requires some { 0 < self.old.count }
        requires more { 0 < cell.now.count }
        ensures joined { (measures : ℕ) (sum : Option cells.Cell) → cell.now.measures ≡ measures → HoldsSum measures sum self.old
            → IsTrue result → HoldsSum measures (plus sum (Some cell.now)) self.new }
        ensures steady { IsSteady self.new }
        ensures past { result ≡ false → 2 ^ 64 ≤ self.old.count + cell.now.count }
    {
        have_four(self, cell);
        let Some(count) = self.count.checked_add(cell.count) else {
            return false;
        };
        *self = Total {
            count,
            parts: [
                self.parts[0].with(&cell.parts[0]),
                self.parts[1].with(&cell.parts[1]),
                self.parts[2].with(&cell.parts[2]),
                self.parts[3].with(&cell.parts[3]),
            ],
        };
        true
    }

    /// Whether it equals this cell.
    pub(crate) fn is(&self, cell: &Cell) -> bool
        ensures is { IsTrue result ↔ IsCell self.now cell.now }
        ensures four { length cell.now.parts ≡ 4 }
    {
        have_four(self, cell);
        if self.count != cell.count {
            return false;
        }
        for measure in 0..4 {
            if !self.parts[measure].is(cell.parts[measure]) {
                return false;
            }
        }
        true
    }
}

/// The sum of two numbers less 2^128, for a sum above the greatest number of 128 bits.
fn lowered(low: i128, sum: i128) -> i128
    requires past { FitsSigned w128 (low +ℤ sum) → ⊥ }
    requires up { pos 0 <ℤ sum }
    ensures { result +ℤ pos (2 ^ 128) ≡ low +ℤ sum }
{
    (low + i128::MIN) + (sum + i128::MIN)
}

/// The sum of two numbers plus 2^128, for a sum below the least number of 128 bits.
fn raised(low: i128, sum: i128) -> i128
    requires past { FitsSigned w128 (low +ℤ sum) → ⊥ }
    requires down { sum ≤ℤ pos 0 }
    ensures { result ≡ (low +ℤ sum) +ℤ pos (2 ^ 128) }
{
    (low - i128::MIN) + (sum - i128::MIN)
}

/// Shows that there are four parts.
#[inline(always)]
fn have_four(total: &Total, cell: &Cell)
    ensures long { length total.now.parts ≡ 4 }
    ensures four { length cell.now.parts ≡ 4 }
{
    let _parts = (total.parts[3], cell.parts[3]);
}
