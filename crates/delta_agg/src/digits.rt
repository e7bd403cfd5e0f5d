//! The places of a view as numbers, whose digits are the coordinates.
ghost use Rattle.std.specs.Prelude.{◌≡◌, ◌<◌, ◌≤◌, length, IfOk, IsTrue};
ghost use Rattle.std.specs.List.{All};
ghost use Rattle.delta_agg.specs.Rows.{IsUnder, digits_of, room};
ghost use Rattle.delta_agg.specs.Trees.{HasCoordinates};

use fact_batch::FlatRows;
use fact_model::Memory;
use std::alloc::Global;

/// A coordinate of the places of a view, as a digit of their numbers.
#[derive(Clone, Copy, Debug, PartialEq, Eq)]
pub(crate) struct Digit {
    /// The attribute whose coordinate it is.
    pub(crate) attr: u32,
    /// The greatest coordinate that can occur.
    pub(crate) top: u64,
}

/// The greatest coordinate of each attribute.
pub(crate) fn tops_of(
    alloc: Global,
    attrs: usize,
    coded: &FlatRows<u64>,
) -> Result<Vec<u64>, Memory>
    requires attrs { attrs ≤ 16 }
    requires coordinates { All (HasCoordinates attrs) coded.now }
    ensures long { IfOk result (λ tops. length tops.items ≡ attrs) }
    ensures under { IfOk result (λ tops. All (IsUnder tops.items) coded.now) }
{
    let mut tops = vec![in alloc; 0; attrs]?;
    for row in 0..coded.len() {
        raise(&mut tops, coded.row(row));
    }
    Ok(tops)
}

/// Raises each top that is below the coordinate of its attribute.
fn raise(tops: &mut Vec<u64>, coordinates: &[u64])
    requires attrs { length tops.old.items ≤ 16 }
    requires coordinates { HasCoordinates (length tops.old.items) coordinates.now }
    ensures long { length tops.new.items ≡ length tops.old.items }
    ensures under { IsUnder tops.new.items coordinates.now }
    ensures raised { IsUnder tops.new.items tops.old.items }
{
    for attr in 0..tops.len() {
        tops[attr] = tops[attr].max(coordinates[attr]);
    }
}

/// The digits of a view, the last attribute first.
pub(crate) fn digits_of(alloc: Global, view: &[u32], tops: &[u64]) -> Result<Vec<Digit>, Memory>
    requires declared { All (λ a. a < length tops.now) view.now }
    ensures { IfOk result (λ digits. digits.items ≡ digits_of tops.now view.now) }
{
    let mut digits = Vec::with_capacity(alloc, view.len())?;
    for skipped in 0..view.len() {
        let attr = view[view.len() - 1 - skipped];
        digits.push(Digit {
            attr,
            top: tops[attr as usize],
        })?;
    }
    Ok(digits)
}

/// Whether the digits hold at most `most` numbers. It may answer false although they do.
pub(crate) fn room_within(digits: &[Digit], most: u128) -> bool
    ensures { IsTrue result → room digits.now ≤ most }
{
    let mut room: u128 = 1;
    for digit in digits {
        match room.checked_mul(u128::from(digit.top) + 1) {
            Some(more) => room = more,
            None => return false,
        }
    }
    room <= most
}
