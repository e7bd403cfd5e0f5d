//! Picks the view that answers a slice, if several views may have the same attributes in another order.
ghost use Rattle.std.specs.Prelude.{◌≡◌, ◌<◌, ◌≤◌, ℕ, IfSome, List, [], get_or, length, true};
ghost use Rattle.std.specs.List.{All};
ghost use Rattle.fact_model.specs.declared.fact.Fact as facts;
ghost use Rattle.cube_schema.specs.Lawful.{IsSchema};
ghost use Rattle.spec_points.specs.Agree.{InRange, Once, among};
ghost use Rattle.spec_points.specs.Codes.{names_of};
ghost use Rattle.replica_route.specs.Picked.{Picks, beats, better, choice_of, is_bound, is_run, joins_run, picked, suffix};
ghost use Rattle.replica_route.specs.Together.{LieTogether};

use cube_schema::Schema;
use fact_model::{Cond, Slice};
use view_route::covers;

/// The view that answers a slice, and how its points lie there.
#[derive(Clone, Copy, Debug, PartialEq, Eq)]
pub struct Choice {
    /// The number of the view.
    pub view: u32,
    /// The number of its last attributes that are bound by equalities.
    pub suffix: u8,
    /// Whether each condition is one of these equalities, or a range on the attribute just before them. If so, the points that meet
    /// the conditions are contiguous.
    pub run: bool,
}

/// The view that answers a slice. It has all grouped and bound attributes. Among the views that do, it is one with the fewest points;
/// among these, one with the most last attributes bound by equalities; among these, the first. `counts` has the number of points of each
/// view. None exactly if no view has all these attributes. Does not allocate.
///
/// If the choice is a run, the points of the view that meet the conditions are one contiguous part of its points.
pub fn pick(schema: &Schema, counts: &[u64; 32], slice: &Slice) -> Option<Choice>
    requires { IsSchema schema.now }

    ensures exact { result ≡ picked schema.now.views counts.now slice.now }
    ensures picked { Picks schema.now.views counts.now slice.now result }
    ensures together { (measures : ℕ) (facts : List facts.Fact) → All (InRange (names_of facts)) facts → Once slice.now.conds
        → IfSome result (λ choice. choice.run ≡ true → LieTogether measures (get_or schema.now.views choice.view []) slice.now facts) }
{
    let mut best: Option<Choice> = None;
    for (number, view) in schema.views.as_slice().iter().enumerate() {
        if covers(view.as_slice(), slice) {
            best = better(
                counts,
                best,
                choice_of(number as u32, view.as_slice(), slice),
            );
        }
    }
    best
}

/// The view as a choice.
fn choice_of(number: u32, view: &[u32], slice: &Slice) -> Choice
    requires { length view.now ≤ 8 }
    ensures { result ≡ choice_of number view.now slice.now }
{
    let suffix = suffix(view, slice.conds.as_slice());
    Choice {
        view: number,
        suffix: suffix as u8,
        run: is_run(view, suffix, slice.conds.as_slice()),
    }
}

/// The best choice so far, or a later view that beats it.
fn better(counts: &[u64; 32], best: Option<Choice>, next: Choice) -> Option<Choice>
    requires next { next.view < 32 }
    requires best { IfSome best (λ best. best.view < 32) }
    ensures { result ≡ better counts.now best next }
{
    match best {
        None => Some(next),
        Some(old) => Some(if beats(counts, next, old) { next } else { old }),
    }
}

/// Whether the first choice has fewer points than the second, or equally many and a greater suffix.
fn beats(counts: &[u64; 32], next: Choice, old: Choice) -> bool
    requires next { next.view < 32 }
    requires old { old.view < 32 }
    ensures { result ≡ beats counts.now next old }
{
    let points = counts[next.view as usize];
    let least = counts[old.view as usize];
    points < least || (points == least && old.suffix < next.suffix)
}

/// The number of the view's last attributes that are bound by equalities.
fn suffix(view: &[u32], conds: &[Cond]) -> usize
    ensures exact { result ≡ suffix view.now conds.now }
    ensures few { result ≤ length view.now }
{
    view.iter()
        .rev()
        .take_while(|attr| is_bound(conds, **attr))
        .count()
}

/// Whether an equality binds the attribute.
fn is_bound(conds: &[Cond], attr: u32) -> bool
    ensures { result ≡ is_bound conds.now attr }
{
    conds.iter().any(|cond| match cond {
        Cond::Equal { attr: bound, .. } => *bound == attr,
        Cond::Between { .. } => false,
    })
}

/// Whether each condition is an equality on one of the last `suffix` attributes, or a range on the one just before them.
fn is_run(view: &[u32], suffix: usize, conds: &[Cond]) -> bool
    requires { suffix ≤ length view.now }
    ensures { result ≡ is_run view.now suffix conds.now }
{
    conds.iter().all(|cond| joins_run(view, suffix, cond))
}

/// Whether the condition is an equality on one of the last `suffix` attributes, or a range on the one just before them.
fn joins_run(view: &[u32], suffix: usize, cond: &Cond) -> bool
    requires { suffix ≤ length view.now }
    ensures { result ≡ joins_run view.now suffix cond.now }
{
    let others = view.len() - suffix;
    match cond {
        Cond::Equal { attr, .. } => is_among(&view[others..], *attr),
        Cond::Between { attr, .. } => others > 0 && view[others - 1] == *attr,
    }
}

/// Whether `attr` is one of these attributes.
fn is_among(attrs: &[u32], attr: u32) -> bool
    ensures { result ≡ among attrs.now attr }
{
    attrs.contains(&attr)
}
