//! The values of the grouped attributes at a point.
ghost use Rattle.std.specs.Prelude.{◌≡◌, ◌<◌, All, get_or, length};
ghost use Rattle.fact_model.specs.Value.{key_cmp, value_cmp};
ghost use Rattle.spec_points.specs.Answer.{coordinate};
ghost use Rattle.attr_dict.specs.Shown.{shown};
ghost use Rattle.point_groups.specs.Bare.{nowhere};
ghost use Rattle.slice_rows.specs.Grouped.{has_values, key_of_entry, value_at_code};

use attr_dict::{Dicts, ValueRef};
use point_groups::FlatPoints;
use std::cmp::Ordering;

/// The coordinate of an attribute at a place of the view, and 0 where the view does not have the attribute.
pub(crate) fn coordinate(view: &[u32], points: &FlatPoints, number: usize, attr: u32) -> u64
    ensures { result ≡ coordinate view.now (get_or points.now number nowhere).point.at attr }
{
    for i in 0..view.len() {
        if view[i] == attr {
            return points.coordinate(number, i);
        }
    }
    0
}

/// Whether the coordinates of the grouped attributes stand for values.
pub(crate) fn has_values(
    names: &Dicts,
    view: &[u32],
    group: &[u32],
    points: &FlatPoints,
    number: usize,
) -> bool
    requires { All (λ a. a < length names.now.kinds) group.now }
    ensures { result ≡ has_values names.now view.now group.now (get_or points.now number nowhere) }
{
    for attr in group {
        let code = coordinate(view, points, number, *attr);
        if names.value_of(*attr, code).is_none() {
            return false;
        }
    }
    true
}

/// How the keys of two points stand to each other: by the values, and not by their codes.
pub(crate) fn compare_keys(
    names: &Dicts,
    view: &[u32],
    group: &[u32],
    points: &FlatPoints,
    a: usize,
    b: usize,
) -> Ordering
    requires { All (λ a. a < length names.now.kinds) group.now }
    ensures { result ≡ key_cmp (key_of_entry names.now view.now group.now (get_or points.now a nowhere))
        (key_of_entry names.now view.now group.now (get_or points.now b nowhere)) }
{
    for attr in group {
        let order = compare_codes(
            names,
            *attr,
            coordinate(view, points, a, *attr),
            coordinate(view, points, b, *attr),
        );
        if order != Ordering::Equal {
            return order;
        }
    }
    Ordering::Equal
}

/// How the values of two coordinates of an attribute stand to each other.
pub(crate) fn compare_codes(names: &Dicts, attr: u32, a: u64, b: u64) -> Ordering
    requires { attr < length names.now.kinds }
    ensures { result ≡ value_cmp (value_at_code names.now attr a) (value_at_code names.now attr b) }
{
    if a == b {
        return Ordering::Equal;
    }
    compare_values(value_at(names, attr, a), value_at(names, attr, b))
}

/// The value that a coordinate of an attribute stands for, and the number 0 where there is none.
pub(crate) fn value_at(names: &Dicts, attr: u32, code: u64) -> ValueRef<'_>
    requires { attr < length names.now.kinds }
    ensures { shown result ≡ value_at_code names.now attr code }
{
    match names.value_of(attr, code) {
        Some(value) => value,
        None => ValueRef::Number(0),
    }
}

/// How two values stand to each other.
fn compare_values(a: ValueRef<'_>, b: ValueRef<'_>) -> Ordering
    ensures { result ≡ value_cmp (shown a.entry) (shown b.entry) }
{
    match (a, b) {
        (ValueRef::Word(s), ValueRef::Word(t)) => s.cmp(&t),
        (ValueRef::Word(_), ValueRef::Number(_)) => Ordering::Less,
        (ValueRef::Number(_), ValueRef::Word(_)) => Ordering::Greater,
        (ValueRef::Number(m), ValueRef::Number(n)) => m.cmp(&n),
    }
}
