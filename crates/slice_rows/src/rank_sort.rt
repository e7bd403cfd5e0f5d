//! Points in the order of their keys, by ranks.
ghost use Rattle.std.specs.Prelude.{◌≡◌, ◌↔◌, ◌<◌, ◌≤◌, ◌^◌, All, IfOk, IsTrue, OnOk, drop, get_or, length, map, take};
ghost use Rattle.std.specs.List.Sorted.{IsPermutation, IsSortedBy, IsStableBy};
ghost use Rattle.std.specs.Ordering.{nat_cmp, ordering_then};
ghost use Rattle.fact_model.specs.Value.{key_cmp};
ghost use Rattle.cube_point.specs.declared.point.Entry as entries;
ghost use Rattle.point_groups.specs.Bare.{nowhere};
ghost use Rattle.slice_rows.specs.Grouped.{IsOrderOf, key_of_entry};
ghost use Rattle.slice_rows.specs.Keys.{IsRanked, RanksAscend, comes_before, entry_in, number_in};
ghost use Rattle.slice_rows.specs.Ranks.{IsBelow, KeepsRanks, TellOrder, rank_behind, room};
ghost use Rattle.slice_rows.specs.declared.value_ranks.Ranks as tables;

use crate::key_order::Order;
use crate::keys::{compare_keys, coordinate};
use crate::value_ranks::Ranks;
use attr_dict::Dicts;
use fact_model::Memory;
use point_groups::FlatPoints;
use std::alloc::Global;
use std::cmp::Ordering;

/// The number of a point, and the ranks of its first grouped values as one number.
#[derive(Clone, Copy)]
struct Ranked {
    rank: u64,
    number: usize,
}

/// The order of points by their keys. Those of one key stay in their order.
pub(crate) fn order_by_ranks(
    alloc: Global,
    names: &Dicts,
    view: &[u32],
    group: &[u32],
    points: &FlatPoints,
) -> Result<Order, Memory>
    requires { All (λ a. a < length names.now.kinds) group.now }
    ensures { IfOk result (IsOrderOf names.now view.now group.now points.now) }
{
    let ranks = ranks_of_group(alloc, names, view, group, points)?;
    let (_, rest) = group.split_at(ranks.len());
    let mut ranked = ranked_points(alloc, names, view, &ranks, points)?;
    sort_ranked(names, view, rest, points, &mut ranked)?;
    Ok(Order {
        numbers: numbers_of(alloc, &ranked)?,
        is_strict: do_ranked_ascend(names, view, rest, points, &ranked),
    })
}

/// The ranks of the first grouped attributes: of as many as one number has room for.
fn ranks_of_group(
    alloc: Global,
    names: &Dicts,
    view: &[u32],
    group: &[u32],
    points: &FlatPoints,
) -> Result<Vec<Ranks>, Memory>
    requires { All (λ a. a < length names.now.kinds) group.now }
    ensures attrs { IfOk result (λ ranks. map (λ (r : tables.Ranks). r.attr) ranks.items ≡ take (length ranks.items) group.now) }
    ensures tell { IfOk result (λ ranks. All (λ (r : tables.Ranks). TellOrder names.now view.now r points.now) ranks.items) }
    ensures below { IfOk result (λ ranks. All (λ (r : tables.Ranks). All (λ (e : entries.Entry). IsBelow names.now view.now e r) points.now) ranks.items) }
    ensures kept { IfOk result (λ ranks. All (KeepsRanks names.now) ranks.items) }
    ensures room { IfOk result (λ ranks. room ranks.items < 2 ^ 64) }
{
    let mut ranks = Vec::new(alloc);
    let mut numbers = 1u64;
    for attr in group {
        let table = Ranks::of(alloc, names, view, *attr, points)?;
        let Some(more) = numbers.checked_mul(table.count) else {
            return Ok(ranks);
        };
        numbers = more;
        ranks.push(table)?;
    }
    Ok(ranks)
}

/// The points with their ranks.
fn ranked_points(
    alloc: Global,
    names: &Dicts,
    view: &[u32],
    ranks: &[Ranks],
    points: &FlatPoints,
) -> Result<Vec<Ranked>, Memory>
    requires declared { All (λ (r : tables.Ranks). r.attr < length names.now.kinds) ranks.now }
    requires kept { All (KeepsRanks names.now) ranks.now }
    requires room { room ranks.now < 2 ^ 64 }
    requires below { All (λ (r : tables.Ranks). All (λ (e : entries.Entry). IsBelow names.now view.now e r) points.now) ranks.now }
    ensures points { IfOk result (λ ranked. map (entry_in points.now) ranked.items ≡ points.now) }
    ensures ranks { IfOk result (λ ranked. All (IsRanked names.now view.now ranks.now points.now) ranked.items) }
{
    let mut ranked = Vec::with_capacity(alloc, points.len())?;
    for number in 0..points.len() {
        ranked.push(Ranked {
            rank: rank_of(names, view, ranks, points, number),
            number,
        })?;
    }
    Ok(ranked)
}

/// The ranks of a point's grouped values as one number: each is a digit.
fn rank_of(names: &Dicts, view: &[u32], ranks: &[Ranks], points: &FlatPoints, number: usize) -> u64
    requires declared { All (λ (r : tables.Ranks). r.attr < length names.now.kinds) ranks.now }
    requires kept { All (KeepsRanks names.now) ranks.now }
    requires room { room ranks.now < 2 ^ 64 }
    requires below { All (IsBelow names.now view.now (get_or points.now number nowhere)) ranks.now }
    ensures { result ≡ rank_behind names.now view.now (get_or points.now number nowhere).point.at ranks.now 0 }
{
    let mut rank = 0;
    for table in ranks {
        let digit = table.rank(names, coordinate(view, points, number, table.attr));
        rank = rank * table.count + digit;
    }
    rank
}

/// Sorts points by their ranks, and where these are equal by the values of the other attributes. Those that tie stay in their order.
fn sort_ranked(
    names: &Dicts,
    view: &[u32],
    rest: &[u32],
    points: &FlatPoints,
    ranked: &mut Vec<Ranked>,
) -> Result<(), Memory>
    requires { All (λ a. a < length names.now.kinds) rest.now }
    ensures moved { IsPermutation ranked.old.items ranked.new.items }
    ensures sorted { OnOk result (IsSortedBy (comes_before names.now view.now rest.now points.now) ranked.new.items) }
    ensures stable { IsStableBy (comes_before names.now view.now rest.now points.now) ranked.old.items ranked.new.items }
{
    ranked.sort_by(|a, b| compare_ranked(names, view, rest, points, a, b))?;
    Ok(())
}

/// How the keys of two points stand to each other: by their ranks, and where these are equal by the values of the other attributes.
fn compare_ranked(
    names: &Dicts,
    view: &[u32],
    rest: &[u32],
    points: &FlatPoints,
    a: &Ranked,
    b: &Ranked,
) -> Ordering
    requires { All (λ a. a < length names.now.kinds) rest.now }
    ensures { result ≡ ordering_then (nat_cmp a.now.rank b.now.rank)
        (key_cmp (key_of_entry names.now view.now rest.now (entry_in points.now a.now)) (key_of_entry names.now view.now rest.now (entry_in points.now b.now))) }
{
    match a.rank.cmp(&b.rank) {
        Ordering::Equal => compare_keys(names, view, rest, points, a.number, b.number),
        order => order,
    }
}

/// Whether each point comes before the next, by its rank and then by its key.
fn do_ranked_ascend(
    names: &Dicts,
    view: &[u32],
    rest: &[u32],
    points: &FlatPoints,
    ranked: &[Ranked],
) -> bool
    requires { All (λ a. a < length names.now.kinds) rest.now }
    ensures { IsTrue result ↔ RanksAscend names.now view.now rest.now points.now ranked.now }
{
    for i in 1..ranked.len() {
        if !compare_ranked(names, view, rest, points, &ranked[i - 1], &ranked[i]).is_lt() {
            return false;
        }
    }
    true
}

/// The numbers alone.
fn numbers_of(alloc: Global, ranked: &[Ranked]) -> Result<Vec<usize>, Memory>
    ensures { IfOk result (λ numbers. numbers.items ≡ map number_in ranked.now) }
{
    let mut numbers = Vec::with_capacity(alloc, ranked.len())?;
    for point in ranked {
        numbers.push(point.number)?;
    }
    Ok(numbers)
}
