//! A batch is prepared: its names have codes, its points are made, and all memory is taken. No file is called.
ghost use Rattle.std.specs.Prelude.{◌≡◌, ◌≢◌, ◌<◌, ◌≤◌, ◌+◌, ◌++◌, ℕ, [], IfOk, IfErr, OnErr, OnOk, List, length, map, slice_index, vec_capacity};
ghost use Rattle.site_core.specs.Disk.{Files};
ghost use Rattle.fact_model.specs.declared.fact.Fact as declared;
ghost use Rattle.spec_points.specs.Codes.{names_of};
ghost use Rattle.attr_dict.specs.Admitting.{names_with};
ghost use Rattle.attr_dict.specs.Book.{HoldsNamesOf, names_at, shown_names};
ghost use Rattle.attr_dict.specs.Room.{entries_len, entries_limit};
ghost use Rattle.cube_schema.specs.Writing.{canonical};
ghost use Rattle.forest_root.specs.Body.{max_facts};
ghost use Rattle.page_fmt.specs.Formats.{wide_format};
ghost use Rattle.spec_store.specs.Held.{AreAccepted, HasNames, IsLive, format_for};
ghost use Rattle.spec_store.specs.Stored.{IsStoreOf, IsWhole};
ghost use Rattle.forest_refresh.specs.Back.{IsBack};
ghost use Rattle.forest_refresh.specs.Begun.{HasMoved, IsBegun, IsGoing, IsRefreshOf};
ghost use Rattle.forest_refresh.specs.Limits.{IsBatchOf, TellsLimit};
ghost use Rattle.forest_refresh.specs.Next.{AddsNames, AreCoded, body_as, next_body};
ghost use Rattle.delta_agg.specs.Trees.{named_tree};
ghost use Rattle.forest_refresh.specs.Prepared.{begun_with};
ghost use Rattle.forest_refresh.specs.Trees.{deltas_by};

use crate::limits::{format_for, masses, names_len, total};
use crate::room::{Room, take_room};
use crate::stop::BeginStop;
use crate::writing::start_trees;
use attr_dict::Admitted;
use delta_agg::{Deltas, deltas};
use fact_batch::{Batch, BatchBuilder, FlatRows};
use fact_model::{Memory, Text};
use forest_commit::slot;
use forest_root::{Body, Store, WIDE};
use std::alloc::Global;

/// What a batch makes of a store, with all memory that the end of its refresh needs.
#[derive(Drop)]
pub(crate) struct Prepared {
    /// The points of the batch in each tree.
    pub deltas: Deltas,
    /// The entries of the names file for its new names.
    pub names: Text,
    /// The body of the next generation, without numbers of points.
    pub next: Body,
    /// The memory; the first tree is under way.
    pub room: Room,
}

/// Prepares a batch of at least one fact, behind which this is the number of the last numbered batch. It gives codes to its new names, which
/// slices do not know; without an Ok they are forgotten.
pub(crate) fn prepare(
    alloc: Global,
    store: &mut Store,
    facts: Batch,
    last: u64,
) -> Result<Prepared, BeginStop>
    requires batch { IsBatchOf store.old.forest.schema facts }
    requires whole { IsWhole store.old }
    requires last { last ≤ store.old.forest.body.last + 1 }

    ensures prepared { IfOk result (λ p. IsBegun (begun_with store.new p)) }
    ensures room { IfOk result (λ p. length p.deltas ≤ vec_capacity p.room.rows) }
    ensures goes { IfOk result (λ p. IsGoing (begun_with store.new p)) }
    ensures moved { (files : Files) → IfOk result (λ p. HasMoved (begun_with store.new p) files) }
    ensures taken { IfOk result (λ p. p.room.taken ≡ 0) }
    ensures last { IfOk result (λ p. p.next.last ≡ last) }
    ensures format { IfOk result (λ p. p.next.format ≡ format_for store.old.forest.body.format facts) }
    ensures adds { (accepted : List declared.Fact) (files : Files) → IsStoreOf store.old accepted files
        → IfOk result (λ p. IsRefreshOf (begun_with store.new p) accepted facts files) }
    ensures points { IfOk result (λ p. p.deltas ≡ deltas_by (names_with store.old.dicts facts) store.old.forest.schema facts) }
    ensures limit { (accepted : List declared.Fact) (files : Files) → IsStoreOf store.old accepted files
        → IfErr result (TellsLimit store.old.forest.schema (accepted ++ facts)) }
    ensures no_fault { IfErr result (λ stop. stop ≢ BeginStop.Disk) }
    ensures forest { store.new.forest ≡ store.old.forest }
    ensures shown { store.new.shown ≡ store.old.shown }
    ensures front { OnOk result ((a : ℕ) → shown_names store.new.dicts store.new.shown.at a ≡ names_at store.old.dicts a) }
    ensures back { OnErr result (IsBack store.old store.new) }
{
    let count = total(store.forest.body.facts, facts.len())?;
    let before = store.dicts.lengths();
    let admitted = store.dicts.admit(&facts)?;
    match prepare_with(alloc, store, facts, count, last, admitted) {
        Ok(prepared) => Ok(prepared),
        Err(stop) => {
            store.dicts.forget(&before);
            Err(stop)
        }
    }
}

/// Prepares a batch whose names have codes, up to so many facts and this last number.
fn prepare_with(
    alloc: Global,
    store: &Store,
    facts: Batch,
    count: u64,
    last: u64,
    admitted: Admitted,
) -> Result<Prepared, BeginStop>
    requires batch { IsBatchOf store.now.forest.schema facts }
    requires total { count ≡ store.now.forest.body.facts + length facts }
    requires few { count ≤ max_facts }
    requires last { last ≤ store.now.forest.body.last + 1 }
    requires coded { AreCoded store.now.dicts store.now.forest.schema admitted.coded facts }
    requires shown { (a : ℕ) → slice_index store.now.shown.at a ≤ length (names_at store.now.dicts a) }
    requires names { store.now.forest.body.names_len + length admitted.names
        ≤ length (canonical store.now.forest.schema) + entries_len store.now.dicts }
    requires limit { entries_len store.now.dicts ≤ entries_limit }

    ensures prepared { IfOk result (λ p. IsBegun (begun_with store.now p)) }
    ensures room { IfOk result (λ p. length p.deltas ≤ vec_capacity p.room.rows) }
    ensures goes { IfOk result (λ p. IsGoing (begun_with store.now p)) }
    ensures moved { (files : Files) → IfOk result (λ p. HasMoved (begun_with store.now p) files) }
    ensures taken { IfOk result (λ p. p.room.taken ≡ 0) }
    ensures last { IfOk result (λ p. p.next.last ≡ last) }
    ensures format { IfOk result (λ p. p.next.format ≡ format_for store.now.forest.body.format facts) }
    ensures adds { (accepted : List declared.Fact) (files : Files) → AreAccepted store.now.forest.schema accepted
        → IsLive store.now.forest.schema store.now.forest.body accepted files
        → ((a : ℕ) → shown_names store.now.dicts store.now.shown.at a ≡ names_of accepted a)
        → HoldsNamesOf store.now.dicts (accepted ++ facts) → HasNames store.now.forest.schema (accepted ++ facts)
        → AddsNames accepted facts admitted.names → IfOk result (λ p. IsRefreshOf (begun_with store.now p) accepted facts files) }
    ensures points { IfOk result (λ p. p.deltas ≡ deltas_by (names_at store.now.dicts) store.now.forest.schema facts) }
    ensures limit { (accepted : List declared.Fact) (files : Files) → AreAccepted store.now.forest.schema accepted
        → IsLive store.now.forest.schema store.now.forest.body accepted files → HasNames store.now.forest.schema (accepted ++ facts)
        → IfErr result (TellsLimit store.now.forest.schema (accepted ++ facts)) }
    ensures no_fault { IfErr result (λ stop. stop ≢ BeginStop.Disk) }
{
    let forest = &store.forest;
    let masses = masses(&forest.body.masses, &facts)?;
    let format = format_for(forest.body.format, &facts);
    let names_len = names_len(forest.body.names_len, &admitted.names);
    let deltas = deltas(
        alloc,
        &forest.schema,
        &forest.mapping,
        admitted.coded,
        facts,
    )?;
    let mut room = take_room(alloc, deltas.len())?;
    let next = next_body(&forest.body, format, names_len, count, last, masses);
    start_trees(forest, &deltas, next.format, slot(&next), &mut room);
    Ok(Prepared {
        deltas,
        names: admitted.names,
        next,
        room,
    })
}

/// Prepares the same facts in pages of the greatest format, behind no batch.
pub(crate) fn prepare_upgrade(alloc: Global, store: &Store) -> Result<Prepared, Memory>
    requires narrow { store.now.forest.body.format < wide_format }
    requires whole { IsWhole store.now }

    ensures prepared { IfOk result (λ p. IsBegun (begun_with store.now p)) }
    ensures room { IfOk result (λ p. length p.deltas ≤ vec_capacity p.room.rows) }
    ensures goes { IfOk result (λ p. IsGoing (begun_with store.now p)) }
    ensures moved { (files : Files) → IfOk result (λ p. HasMoved (begun_with store.now p) files) }
    ensures taken { IfOk result (λ p. p.room.taken ≡ 0) }
    ensures next { IfOk result (λ p. p.next ≡ body_as store.now.forest.body wide_format) }
    ensures adds { (accepted : List declared.Fact) (files : Files) → IsStoreOf store.now accepted files
        → IfOk result (λ p. IsRefreshOf (begun_with store.now p) accepted [] files) }
    ensures points { IfOk result (λ p. p.deltas ≡ deltas_by (names_with store.now.dicts []) store.now.forest.schema []) }
{
    let forest = &store.forest;
    let body = &forest.body;
    let deltas = no_points(alloc, store)?;
    let mut room = take_room(alloc, deltas.len())?;
    let next = next_body(
        body,
        WIDE,
        body.names_len,
        body.facts,
        body.last,
        body.masses,
    );
    start_trees(forest, &deltas, next.format, slot(&next), &mut room);
    let names = Text::from_vec(Vec::new(alloc));
    Ok(Prepared {
        deltas,
        names,
        next,
        room,
    })
}

/// No points for each tree.
fn no_points(alloc: Global, store: &Store) -> Result<Deltas, Memory>
    ensures { IfOk result (λ lists.
        lists ≡ map (named_tree (names_at store.now.dicts) store.now.forest.schema []) store.now.forest.mapping.trees) }
{
    let forest = &store.forest;
    let builder = BatchBuilder::new(alloc, 0, 0);
    let none = builder.finish();
    let rows = FlatRows::from_vec(0, 0, Vec::new(alloc));
    deltas(alloc, &forest.schema, &forest.mapping, rows, none)
}

/// The body of the next generation in a format, without numbers of points.
fn next_body(
    live: &Body,
    format: u16,
    names_len: u64,
    facts: u64,
    last: u64,
    masses: [u128; 4],
) -> Body
    requires { live.now.generation ≤ max_facts + 1 }
    ensures { result ≡ next_body live.now format names_len facts last masses }
{
    Body {
        format,
        views: live.views,
        schema_len: live.schema_len,
        generation: live.generation + 1,
        names_len,
        facts,
        last,
        masses,
        counts: [0; 32],
    }
}
