//! Numbers that tell the order of the values that occur among points.
ghost use Rattle.std.specs.Prelude.{◌≡◌, ◌<◌, ◌≤◌, ◌-◌, ℕ, All, Contains, IfOk, OnOk, Some, get_or, length, map, nat_eq};
ghost use Rattle.std.specs.List.{range_with_len};
ghost use Rattle.std.specs.List.Sorted.{IsPermutation, IsSortedBy};
ghost use Rattle.indexmap.specs.IndexMap.{get};
ghost use Rattle.cube_point.specs.declared.point.Entry.{Entry};
ghost use Rattle.spec_points.specs.Answer.{coordinate};
ghost use Rattle.attr_dict.specs.Book.{names_at};
ghost use Rattle.slice_rows.specs.Ranks.{HasCodes, IsBelow, IsKnown, KeepsRanks, TellOrder, comes_first, rank_among, rank_by};

use crate::keys::{compare_codes, coordinate, value_at};
use attr_dict::{Dicts, ValueRef};
use fact_model::{GREATEST_NUMBER, Memory};
use indexmap::{IndexMap, IndexSet};
use point_groups::FlatPoints;
use std::alloc::Global;
use std::cmp::Ordering;

/// For each value of an attribute that occurs among some points a number, its rank: the numbers stand to each other as the values do.
#[derive(Drop)]
pub(crate) struct Ranks {
    /// The attribute.
    pub(crate) attr: u32,
    /// The ranks of the values at the points are below it.
    pub(crate) count: u64,
    // The codes of texts. A text's rank is below their number.
    codes: IndexSet<u64>,
    // The rank of a text, by its code.
    texts: IndexMap<u64, u64>,
    // The ranks of the first coordinates, each in its place: they need no look at the names.
    firsts: Vec<u64>,
}

impl Ranks {
    /// The ranks of the values of an attribute at points of a view.
    pub(crate) fn of(
        alloc: Global,
        names: &Dicts,
        view: &[u32],
        attr: u32,
        points: &FlatPoints,
    ) -> Result<Ranks, Memory>
        requires { attr < length names.now.kinds }
        ensures attr { IfOk result (λ ranks. ranks.attr ≡ attr) }
        ensures tell { IfOk result (λ ranks. TellOrder names.now view.now ranks points.now) }
        ensures below { IfOk result (λ ranks. All (λ (e : Entry). IsBelow names.now view.now e ranks) points.now) }
        ensures kept { IfOk result (KeepsRanks names.now) }
    {
        let greatest = greatest_code(view, attr, points);
        let mut ranks = Ranks::of_values(alloc, names, view, attr, greatest, points)?;
        ranks.firsts = ranks.first_ranks(alloc, names, first_count(greatest, points.len()))?;
        Ok(ranks)
    }

    /// The same, with no ranks of first coordinates. None of the points' coordinates is above the greatest.
    fn of_values(
        alloc: Global,
        names: &Dicts,
        view: &[u32],
        attr: u32,
        greatest: u64,
        points: &FlatPoints,
    ) -> Result<Ranks, Memory>
        requires declared { attr < length names.now.kinds }
        requires greatest { All (λ (e : Entry). coordinate view.now e.point.at attr ≤ greatest) points.now }
        ensures attr { IfOk result (λ ranks. ranks.attr ≡ attr) }
        ensures tell { IfOk result (λ ranks. TellOrder names.now view.now ranks points.now) }
        ensures below { IfOk result (λ ranks. All (λ (e : Entry). IsBelow names.now view.now e ranks) points.now) }
    {
        let codes = codes_of(alloc, names, view, attr, points)?;
        let sorted = sorted_codes(alloc, names, attr, codes.as_slice())?;
        let texts = ranks_of(alloc, names, attr, &sorted)?;
        Ok(Ranks {
            attr,
            // A number is below its code.
            count: codes.len() as u64 + greatest.min(GREATEST_NUMBER) + 1,
            codes,
            texts,
            firsts: Vec::new(alloc),
        })
    }

    /// The ranks of so many coordinates, from the first on.
    fn first_ranks(&self, alloc: Global, names: &Dicts, count: u64) -> Result<Vec<u64>, Memory>
        requires { self.now.attr < length names.now.kinds }
        ensures { IfOk result (λ ranks. ranks.items ≡ map (rank_by names.now self.now) (range_with_len 0 count)) }
    {
        let mut ranks = Vec::with_capacity(alloc, count as usize)?;
        for code in 0..count {
            ranks.push(self.rank_of_value(names, code))?;
        }
        Ok(ranks)
    }

    /// The rank of the value that a coordinate stands for.
    pub(crate) fn rank(&self, names: &Dicts, code: u64) -> u64
        requires declared { self.now.attr < length names.now.kinds }
        requires kept { KeepsRanks names.now self.now }
        ensures { result ≡ rank_by names.now self.now code }
    {
        let place = code as usize;
        if place < self.firsts.len() {
            return self.firsts[place];
        }
        self.rank_of_value(names, code)
    }

    /// The rank of the value that a coordinate stands for, by a look at the value. Numbers come behind all texts.
    fn rank_of_value(&self, names: &Dicts, code: u64) -> u64
        requires { self.now.attr < length names.now.kinds }
        ensures { result ≡ rank_by names.now self.now code }
    {
        match value_at(names, self.attr, code) {
            ValueRef::Word(_) => match self.texts.get(&code) {
                Some(rank) => *rank,
                None => 0,
            },
            ValueRef::Number(number) => self.codes.len() as u64 + number,
        }
    }
}

/// Of how many coordinates the ranks are kept: of all up to the greatest, where these are no more than the points.
fn first_count(greatest: u64, points: usize) -> u64 {
    if greatest < points as u64 {
        return greatest + 1;
    }
    0
}

/// The greatest coordinate of an attribute at the points, and 0 where there is no point.
fn greatest_code(view: &[u32], attr: u32, points: &FlatPoints) -> u64
    ensures { All (λ (e : Entry). coordinate view.now e.point.at attr ≤ result) points.now }
{
    for i in 0..view.len() {
        if view[i] == attr {
            return points.greatest(i);
        }
    }
    0
}

/// Codes that stand for texts, each once, and among them all of those at the points. Where an attribute has no more names than there are
/// points, these are not looked at.
fn codes_of(
    alloc: Global,
    names: &Dicts,
    view: &[u32],
    attr: u32,
    points: &FlatPoints,
) -> Result<IndexSet<u64>, Memory>
    requires { attr < length names.now.kinds }
    ensures { IfOk result (λ codes. All (λ (e : Entry). IsKnown names.now attr codes.keys (coordinate view.now e.point.at attr)) points.now) }
{
    let count = name_count(names, attr);
    if count <= points.len() as u64 {
        return name_codes(alloc, count);
    }
    text_codes(alloc, names, view, attr, points)
}

/// How many names an attribute has.
fn name_count(names: &Dicts, attr: u32) -> u64
    ensures { result ≡ length (names_at names.now attr) }
{
    match names.lengths().at.get(attr as usize) {
        Some(count) => u64::from(*count),
        None => 0,
    }
}

/// The codes of so many names.
fn name_codes(alloc: Global, count: u64) -> Result<IndexSet<u64>, Memory>
    ensures { IfOk result (λ codes. HasCodes count codes.keys) }
{
    let mut codes = IndexSet::with_capacity(alloc, count as usize)?;
    for place in 0..count {
        codes.insert(place + 1)?;
    }
    Ok(codes)
}

/// The codes that stand for texts at the points, each once.
fn text_codes(
    alloc: Global,
    names: &Dicts,
    view: &[u32],
    attr: u32,
    points: &FlatPoints,
) -> Result<IndexSet<u64>, Memory>
    requires { attr < length names.now.kinds }
    ensures { IfOk result (λ codes. All (λ (e : Entry). IsKnown names.now attr codes.keys (coordinate view.now e.point.at attr)) points.now) }
{
    let mut codes = IndexSet::new(alloc);
    for number in 0..points.len() {
        note_code(
            names,
            attr,
            coordinate(view, points, number, attr),
            &mut codes,
        )?;
    }
    Ok(codes)
}

/// Notes a code, where it stands for a text.
fn note_code(names: &Dicts, attr: u32, code: u64, codes: &mut IndexSet<u64>) -> Result<(), Memory>
    requires { attr < length names.now.kinds }
    ensures known { OnOk result (IsKnown names.now attr codes.new.keys code) }
    ensures kept { OnOk result ((c : ℕ) → Contains codes.old.keys c → Contains codes.new.keys c) }
{
    match value_at(names, attr, code) {
        ValueRef::Word(_) => {
            codes.insert(code)?;
            Ok(())
        }
        ValueRef::Number(_) => Ok(()),
    }
}

/// The codes in the order of the values that they stand for.
fn sorted_codes(alloc: Global, names: &Dicts, attr: u32, codes: &[u64]) -> Result<Vec<u64>, Memory>
    requires { attr < length names.now.kinds }
    ensures moved { IfOk result (λ sorted. IsPermutation codes.now sorted.items) }
    ensures sorted { IfOk result (λ sorted. IsSortedBy (comes_first names.now attr) sorted.items) }
{
    let mut sorted = Vec::from_slice(alloc, codes)?;
    sorted.sort_by(|a, b| compare_codes(names, attr, *a, *b))?;
    Ok(sorted)
}

/// The rank of each of the codes, which come in the order of their values: how many of them stand for lesser values.
fn ranks_of(
    alloc: Global,
    names: &Dicts,
    attr: u32,
    codes: &[u64],
) -> Result<IndexMap<u64, u64>, Memory>
    requires declared { attr < length names.now.kinds }
    requires sorted { IsSortedBy (comes_first names.now attr) codes.now }
    ensures { IfOk result (λ ranks. (i : ℕ) → i < length codes.now
        → get nat_eq ranks (get_or codes.now i 0) ≡ Some (rank_among names.now attr codes.now (get_or codes.now i 0))) }
{
    let mut ranks = IndexMap::with_capacity(alloc, codes.len())?;
    let mut rank = 0;
    for i in 0..codes.len() {
        rank = rank_nth(names, attr, codes, i, rank);
        ranks.insert(codes[i], rank)?;
    }
    Ok(ranks)
}

/// The rank of the code of this number, from that of the code before it.
fn rank_nth(names: &Dicts, attr: u32, codes: &[u64], i: usize, before: u64) -> u64
    requires declared { attr < length names.now.kinds }
    requires sorted { IsSortedBy (comes_first names.now attr) codes.now }
    requires within { i < length codes.now }
    requires before { 0 < i → before ≡ rank_among names.now attr codes.now (get_or codes.now (i - 1) 0) }
    ensures { result ≡ rank_among names.now attr codes.now (get_or codes.now i 0) }
{
    if i == 0 {
        return 0;
    }
    match compare_codes(names, attr, codes[i - 1], codes[i]) {
        Ordering::Equal => before,
        _ => i as u64,
    }
}
