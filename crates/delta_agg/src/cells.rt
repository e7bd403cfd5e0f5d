//! The cell of rows of a batch, from their numbers.
ghost use Rattle.std.specs.Prelude.{◌≡◌, ◌<◌, ◌≤◌, ◌^◌, ◌+ℤ◌, ℕ, FitsSigned, pos, [], ◌∷◌, get_or, length};
ghost use Rattle.std.specs.Int.{w128};
ghost use Rattle.std.specs.List.{All};
ghost use Rattle.fact_model.specs.Cell.{cell_of, join, join_parts, part_of};
ghost use Rattle.spec_points.specs.Light.{KeepMasses};
ghost use Rattle.delta_agg.specs.Orders.{bare, facts_at, no_part};

use fact_batch::FlatRows;
use fact_model::{Cell, Part};

/// The cell of these rows; there is at least one.
pub(crate) fn cell_of(measures: u8, numbers: &FlatRows<i128>, rows: &[u32]) -> Cell
    requires four { measures ≤ 4 }
    requires each { All (λ row. length row ≡ measures) numbers.now }
    requires some { 1 ≤ length rows.now }
    requires few { length rows.now ≤ 262144 }
    requires rows { All (λ row. row < length numbers.now) rows.now }
    requires masses { KeepMasses (facts_at numbers.now rows.now) }
    ensures { result ≡ cell_of measures (facts_at numbers.now rows.now) }
{
    let mut cell = cell_alone(measures, numbers.row(rows[0] as usize));
    for i in 1..rows.len() {
        add(&mut cell, numbers.row(rows[i] as usize));
    }
    cell
}

/// The cell of one row with these numbers.
fn cell_alone(measures: u8, numbers: &[i128]) -> Cell
    requires { length numbers.now ≤ 4 }
    ensures { result ≡ cell_of measures (bare numbers.now ∷ []) }
{
    let none = Part {
        sum: 0,
        low: 0,
        high: 0,
    };
    let mut parts = [none; 4];
    for m in 0..numbers.len() {
        parts[m] = Part {
            sum: numbers[m],
            low: numbers[m],
            high: numbers[m],
        };
    }
    Cell {
        count: 1,
        measures,
        parts,
    }
}

/// Adds one row with these numbers.
fn add(cell: &mut Cell, numbers: &[i128])
    requires four { length numbers.now ≤ 4 }
    requires count { cell.old.count < 2 ^ 63 }
    requires long { length cell.old.parts ≡ 4 }
    requires parts { (m : ℕ) → m < length numbers.now → FitsSigned w128 ((get_or cell.old.parts m no_part).sum +ℤ get_or numbers.now m (pos 0)) }
    requires none { (m : ℕ) → length numbers.now ≤ m → m < 4 → get_or cell.old.parts m no_part ≡ no_part }
    ensures { cell.new ≡ join cell.old (cell_of cell.old.measures (bare numbers.now ∷ [])) }
{
    cell.count += 1;
    for m in 0..numbers.len() {
        cell.parts[m] = joined(&cell.parts[m], numbers[m]);
    }
}

/// The part with one more number.
fn joined(part: &Part, number: i128) -> Part
    requires { FitsSigned w128 (part.now.sum +ℤ number) }
    ensures { result ≡ join_parts part.now (part_of (number ∷ [])) }
{
    Part {
        sum: part.sum + number,
        low: part.low.min(number),
        high: part.high.max(number),
    }
}
