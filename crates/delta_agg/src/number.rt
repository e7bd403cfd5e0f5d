//! Keys that are one number: that of a row's place, followed by the row.
ghost use Rattle.std.specs.Prelude.{◌≡◌, ◌<◌, ◌≤◌, ◌+◌, ◌*◌, ◌^◌, ◌==◌, ℕ, List, OnOk, map, length};
ghost use Rattle.std.specs.List.{All, range_with_len};
ghost use Rattle.std.specs.Ordering.{nat_cmp, is_lt};
ghost use Rattle.delta_agg.specs.Rows.{HasDigit, number_from, number_in, room, row_in, row_key};

use crate::digits::Digit;
use crate::keys::RowKey;
use fact_batch::FlatRows;
use fact_model::Memory;

/// The most rows that a key can tell apart.
const MOST_ROWS: u64 = 1 << 18;

/// A number that is wide enough for some places.
pub(crate) trait Number: RowKey + Copy {
    /// Its value.
    ghost number: { Self → ℕ };

    ghost MOST_PLACES: { ℕ };

    /// The most places that a key can tell apart.
    const MOST_PLACES: u128;

    /// Zero.
    fn zero() -> Self
        ensures { number result ≡ 0 };

    /// The number with a digit of at most `top` appended.
    fn with_digit(self, top: u64, coordinate: u64) -> Self
        requires { number self * (top + 1) + coordinate < MOST_PLACES }
        ensures { number result ≡ number self * (top + 1) + coordinate };

    /// The key of this row, whose place has this number.
    fn with_row(self, row: usize) -> Self
        requires places { number self < MOST_PLACES }
        requires rows { row < 2 ^ 18 }
        ensures { number result ≡ number self * 2 ^ 18 + row };
}

impl RowKey for u64 {
    ghost row_of = { row_in };

    ghost before = { λ a b. is_lt (nat_cmp a b) };

    ghost same = { λ a b. number_in a == number_in b };

    fn row(&self) -> u32 {
        (*self % MOST_ROWS) as u32
    }

    fn has_place_of(&self, other: &u64) -> bool {
        *self / MOST_ROWS == *other / MOST_ROWS
    }

    fn sort(keys: &mut [u64]) {
        keys.sort_unstable();
    }
}

impl Number for u64 {
    ghost number = { λ key. key };

    ghost MOST_PLACES = { 2 ^ 46 };

    const MOST_PLACES: u128 = 1 << 46;

    fn zero() -> u64 {
        0
    }

    fn with_digit(self, top: u64, coordinate: u64) -> u64 {
        self * top + (self + coordinate)
    }

    fn with_row(self, row: usize) -> u64 {
        self * MOST_ROWS + row as u64
    }
}

impl RowKey for u128 {
    ghost row_of = { row_in };

    ghost before = { λ a b. is_lt (nat_cmp a b) };

    ghost same = { λ a b. number_in a == number_in b };

    fn row(&self) -> u32 {
        (*self % u128::from(MOST_ROWS)) as u32
    }

    fn has_place_of(&self, other: &u128) -> bool {
        *self / u128::from(MOST_ROWS) == *other / u128::from(MOST_ROWS)
    }

    fn sort(keys: &mut [u128]) {
        keys.sort_unstable();
    }
}

impl Number for u128 {
    ghost number = { λ key. key };

    ghost MOST_PLACES = { 2 ^ 110 };

    const MOST_PLACES: u128 = 1 << 110;

    fn zero() -> u128 {
        0
    }

    fn with_digit(self, top: u64, coordinate: u64) -> u128 {
        self * u128::from(top) + (self + u128::from(coordinate))
    }

    fn with_row(self, row: usize) -> u128 {
        self * u128::from(MOST_ROWS) + row as u128
    }
}

/// Makes the keys of all rows. Allocates only if the list has too little room.
pub(crate) fn make_keys<K: Number>(
    keys: &mut Vec<K>,
    digits: &[Digit],
    coded: &FlatRows<u64>,
) -> Result<(), Memory>
    requires few { room digits.now ≤ K.MOST_PLACES }
    requires under { All (λ (coordinates : List ℕ). All (HasDigit coordinates) digits.now) coded.now }
    requires rows { length coded.now ≤ 2 ^ 18 }
    ensures { OnOk result (map K.number keys.new.items ≡ map (row_key digits.now coded.now) (range_with_len 0 (length coded.now))) }
{
    keys.clear();
    keys.reserve(coded.len())?;
    for row in 0..coded.len() {
        keys.push(key(digits, coded.row(row), row))?;
    }
    Ok(())
}

/// The key of a row with these coordinates.
fn key<K: Number>(digits: &[Digit], coordinates: &[u64], row: usize) -> K
    requires few { room digits.now ≤ K.MOST_PLACES }
    requires under { All (HasDigit coordinates.now) digits.now }
    requires row { row < 2 ^ 18 }
    ensures { K.number result ≡ number_from 0 digits.now coordinates.now * 2 ^ 18 + row }
{
    let mut number = K::zero();
    for digit in digits {
        number = number.with_digit(digit.top, coordinates[digit.attr as usize]);
    }
    number.with_row(row)
}
