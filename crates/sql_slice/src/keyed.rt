//! Values of attributes in the keys of rows.
ghost use Rattle.std.specs.Prelude.{◌≡◌, take, option_copied};
ghost use Rattle.std.specs.Ordering.{is_eq};
ghost use Rattle.std.specs.Cmp.Lexicographic.{slice_cmp};
ghost use Rattle.fact_model.specs.Value.{key_cmp};
ghost use Rattle.sql_slice.specs.SqlRows.{value_in};

use fact_model::Value;

/// The value of an attribute in a key of these attributes.
pub(crate) fn value_in<'a>(group: &[u32], key: &'a [Value], attr: u32) -> Option<&'a Value>
    ensures { option_copied result ≡ value_in group.now key.now attr }
{
    for i in 0..group.len() {
        if group[i] == attr {
            return key.get(i);
        }
    }
    None
}

/// Whether the order does not tell the lists apart.
fn same<T: Ord>(first: &[T], second: &[T]) -> bool
    ensures { result ≡ is_eq (slice_cmp T.cmp first.now second.now) }
{
    first.cmp(second).is_eq()
}

/// So many items from the front on, or all.
pub(crate) fn front<T>(items: &[T], count: usize) -> &[T]
    ensures { result.now ≡ take count items.now }
{
    items.get(..count).unwrap_or(items)
}

/// Whether the keys are the same up to so many values.
pub(crate) fn same_front(first: &[Value], second: &[Value], width: usize) -> bool
    ensures { result ≡ is_eq (key_cmp (take width first.now) (take width second.now)) }
{
    same(front(first, width), front(second, width))
}
