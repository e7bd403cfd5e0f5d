//! Rows of one width in a flat array.
ghost use Rattle.std.specs.Prelude.{◌≡◌, ◌<◌, ◌≤◌, ◌*◌, [], length, get_or};
ghost use Rattle.fact_batch.specs.Rows.{row_at, rows_of};

use std::marker::Model;

/// Rows of one width. Contracts see them as the list of rows.
#[derive(Drop)]
pub struct FlatRows<T> {
    width: usize,
    rows: usize,
    items: Vec<T>,
}

impl<T> Model for FlatRows<T> {
    ghost use Rattle.std.specs.Prelude.{◌≡◌, ◌*◌, List, length};
    ghost use Rattle.fact_batch.specs.Rows.{rows_of};

    ghost Value = { List (List T) };

    ghost view = { λ flat. rows_of flat.width flat.rows flat.items.items };

    ghost invariant = { λ flat. length flat.items.items ≡ flat.width * flat.rows };
}

impl<T> FlatRows<T> {
    /// `rows` rows of this width, from their items. Does not allocate.
    pub fn from_vec(width: usize, rows: usize, items: Vec<T>) -> Self
        requires { length items.items ≡ width * rows }
        ensures { result ≡ rows_of width rows items.items }
    {
        FlatRows { width, rows, items }
    }

    /// The number of rows.
    pub fn len(&self) -> usize
        ensures { result ≡ length self.now }
    {
        self.rows
    }

    /// Row `at`, counted from 0. Does not allocate.
    pub fn row(&self, at: usize) -> &[T]
        requires { at < length self.now }
        ensures { result.now ≡ get_or self.now at [] }
    {
        row_of(&self.items, self.width, self.rows, at)
    }
}

/// Row `at` of `rows` rows.
pub(crate) fn row_of<T>(items: &[T], width: usize, rows: usize, at: usize) -> &[T]
    requires rows { width * rows ≤ length items.now }
    requires at { at < rows }
    ensures { result.now ≡ row_at width items.now at }
{
    let from = width * at;
    &items[from..from + width]
}
