//! The region of a slice in a view.
ghost use Rattle.std.specs.Prelude.{◌≡◌, ◌<◌, ◌≤◌, ◌↔◌, suc, All, IsTrue, cond, length, nat_le};
ghost use Rattle.fact_model.specs.Slice.{attr_of};
ghost use Rattle.cube_point.specs.Boxes.{IsInside};
ghost use Rattle.cube_point.specs.declared.point.Point as points;
ghost use Rattle.spec_points.specs.Agree.{AgreesCond, is_text};
ghost use Rattle.spec_points.specs.Answer.{codes_of, inside, interval, just, nothing, region};
ghost use Rattle.spec_points.specs.Codes.{code_in};
ghost use Rattle.attr_dict.specs.Book.{shown_names};
ghost use Rattle.view_region.specs.Regions.{IsPlaced, clamped, is_word, region_from};

use attr_dict::{Dicts, Lengths};
use cube_point::{Bounds, Region};
use fact_model::{Cond, Value};

/// The ends of an interval that no coordinate is in.
const NOTHING: (u64, u64) = (1, 0);

/// The places of a view where the conditions are met, by the first names of each attribute, as many as `shown` says: for each attribute
/// of the view the codes that meet the first condition on it, and all codes where there is none. A value without a code, and a range
/// whose low end is above its high end, leave no place. The conditions are of the kinds of their attributes. It takes no memory.
pub fn region(names: &Dicts, shown: &Lengths, view: &[u32], conds: &[Cond]) -> Region
    requires arity { length view.now ≤ 8 }
    requires declared { All (λ a. a < length names.now.kinds) view.now }
    requires kinds { All (AgreesCond (is_word names.now)) conds.now }
    ensures intervals { result ≡ region_from (length view.now) (region (shown_names names.now shown.now.at) conds.now view.now) }
    // The search keeps the points that the definition keeps.
    ensures inside { (p : points.Point) → IsPlaced p → IsInside p result ↔ IsTrue (inside (region (shown_names names.now shown.now.at) conds.now view.now) p.at) }
{
    let mut low = [0; 8];
    let mut high = [0; 8];
    for (i, attr) in view.iter().enumerate() {
        let ends = interval(names, shown, conds, *attr);
        low[i] = ends.0;
        high[i] = ends.1;
    }
    Region {
        arity: view.len() as u8,
        bounds: Bounds { low, high },
    }
}

/// The codes of an attribute that meet the first condition on it.
fn interval(names: &Dicts, shown: &Lengths, conds: &[Cond], attr: u32) -> (u64, u64)
    requires declared { attr < length names.now.kinds }
    requires kinds { All (AgreesCond (is_word names.now)) conds.now }
    ensures { result ≡ clamped (interval (shown_names names.now shown.now.at) conds.now attr) }
{
    for cond in conds {
        if cond.attr() == attr {
            return codes_of(names, shown, cond);
        }
    }
    (1, u64::MAX)
}

/// The codes that meet a condition.
fn codes_of(names: &Dicts, shown: &Lengths, cond: &Cond) -> (u64, u64)
    requires declared { attr_of cond.now < length names.now.kinds }
    requires kind { AgreesCond (is_word names.now) cond.now }
    ensures { result ≡ clamped (codes_of (shown_names names.now shown.now.at (attr_of cond.now)) cond.now) }
{
    match cond {
        Cond::Equal { attr, value } => code_of(names, shown, *attr, value),
        Cond::Between { low, high, .. } => codes_between(*low, *high),
    }
}

/// The code of a value of an attribute, as an interval.
fn code_of(names: &Dicts, shown: &Lengths, attr: u32, value: &Value) -> (u64, u64)
    requires declared { attr < length names.now.kinds }
    requires kind { is_text value.now ≡ is_word names.now attr }
    ensures { result ≡ clamped (just (code_in (shown_names names.now shown.now.at attr) value.now)) }
{
    match value {
        Value::Word(_) => just(names.code_within(shown, attr, value)),
        Value::Number(number) => just(number.checked_add(1)),
    }
}

/// The interval of one code, or of none.
fn just(code: Option<u64>) -> (u64, u64)
    ensures { result ≡ clamped (just code) }
{
    match code {
        Some(code) => (code, code),
        None => NOTHING,
    }
}

/// The codes of the numbers from `low` to `high`.
fn codes_between(low: u64, high: u64) -> (u64, u64)
    ensures { result ≡ clamped (cond (nat_le low high) (suc low, suc high) nothing) }
{
    if high < low || low == u64::MAX {
        return NOTHING;
    }
    (low + 1, high.saturating_add(1))
}
