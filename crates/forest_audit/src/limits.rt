//! The greatest coordinates that stand for values.

ghost use Rattle.std.specs.Prelude.{◌≡◌, ◌≤◌, ◌<◌, ℕ, get_or, length, map, slice_index};
ghost use Rattle.std.specs.List.{All};
ghost use Rattle.attr_dict.specs.Book.{Book, names_at};
ghost use Rattle.spec_points.specs.Points.{padded};
ghost use Rattle.forest_audit.specs.Limits.{attr_limit, view_limits};

use attr_dict::Lengths;
use audit_tree::Limits;
use cube_schema::{Kind, Schema};
use page_fmt::ARITIES;
use select_map::Tree;

/// The coordinate of the greatest number.
const GREATEST: u64 = 1 << 63;

/// The greatest coordinate of an attribute that stands for a value, where the attributes have so many names.
fn attr_limit(schema: &Schema, lengths: &Lengths, attr: u32) -> u64
    ensures { (names : Book) → ((a : ℕ) → slice_index lengths.now.at a ≡ length (names_at names a)) → result ≡ attr_limit schema.now names attr }
{
    match schema.attrs.as_slice().get(attr as usize) {
        Some(found) => match found.kind {
            Kind::Word { .. } => names_of(lengths, attr),
            Kind::Number => GREATEST,
        },
        None => GREATEST,
    }
}

/// How many names an attribute has.
fn names_of(lengths: &Lengths, attr: u32) -> u64
    ensures { result ≡ slice_index lengths.now.at attr }
{
    match lengths.at.get(attr as usize) {
        Some(count) => u64::from(*count),
        None => 0,
    }
}

/// The same for each dimension of a view of at most eight attributes.
fn dimension_limits(schema: &Schema, lengths: &Lengths, view: &[u32]) -> [u64; 8]
    requires { length view.now ≤ 8 }
    ensures { (names : Book) → ((a : ℕ) → slice_index lengths.now.at a ≡ length (names_at names a)) → result ≡ padded (map (attr_limit schema.now names) view.now) }
{
    let mut limits = [0; 8];
    for dimension in 0..view.len() {
        limits[dimension] = attr_limit(schema, lengths, view[dimension]);
    }
    limits
}

/// The same for a view, where there is one.
fn view_limits(schema: &Schema, lengths: &Lengths, view: Option<u32>) -> [u64; 8]
    requires { All (λ view. length view ≤ 8) schema.now.views }
    ensures { (names : Book) → ((a : ℕ) → slice_index lengths.now.at a ≡ length (names_at names a)) → result ≡ view_limits schema.now names view }
{
    match view {
        Some(view) => match schema.views.as_slice().get(view as usize) {
            Some(attrs) => dimension_limits(schema, lengths, attrs.as_slice()),
            None => [0; 8],
        },
        None => [0; 8],
    }
}

/// The same for each view of a tree.
pub(crate) fn tree_limits(schema: &Schema, lengths: &Lengths, tree: &Tree) -> Limits
    requires { All (λ view. length view ≤ 8) schema.now.views }
    ensures { (names : Book) → ((a : ℕ) → slice_index lengths.now.at a ≡ length (names_at names a))
        → result ≡ map (view_limits schema.now names) tree.now.view_of }
{
    let _last = tree.view_of[ARITIES - 1];
    let mut limits = [[0; 8]; ARITIES];
    for arity in 0..ARITIES {
        limits[arity] = view_limits(schema, lengths, tree.view_of[arity]);
    }
    limits
}
