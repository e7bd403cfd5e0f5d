//! A refresh that has begun, and how it ends.
ghost use Rattle.std.specs.Prelude.{◌≡◌, ◌⊎◌, [], ◌<◌, ◌≤◌, ◌+◌, ◌-◌, ◌++◌, ℕ, IsTrue, IfOk, IfErr, IfSome, OnOk, List, length, slice_index, vec_capacity};
ghost use Rattle.site_core.specs.Disk.{Files};
ghost use Rattle.site_core.specs.Moments.{HoldsNow};
ghost use Rattle.fact_model.specs.declared.fact.Fact as declared;
ghost use Rattle.attr_dict.specs.Book.{names_at};
ghost use Rattle.spec_store.specs.Held.{IsLive, format_for};
ghost use Rattle.spec_store.specs.Opened.{IsOpened};
ghost use Rattle.spec_store.specs.Stored.{IsStoreOf, IsWhole};
ghost use Rattle.page_fmt.specs.Formats.{wide_format};
ghost use Rattle.forest_refresh.specs.Back.{IsCut};
ghost use Rattle.forest_refresh.specs.Begins.{Begins, ShutsGate};
ghost use Rattle.forest_refresh.specs.Begun.{HasMoved, IsBegun, IsGoing, IsNextBody, IsNextStore, IsReady, IsRefreshOf};
ghost use Rattle.forest_refresh.specs.Ends.{Finishes};
ghost use Rattle.forest_refresh.specs.Limits.{IsBatchOf, TellsLimit};
ghost use Rattle.forest_refresh.specs.Next.{body_as, last_behind};
ghost use Rattle.forest_refresh.specs.Prepared.{begun_with};
ghost use Rattle.forest_refresh.specs.Steps.{Steps};

use crate::committing::{commit, with_body};
use crate::preparing::{Prepared, prepare, prepare_upgrade};
use crate::room::Room;
use crate::stop::{BeginFault, BeginStop, RefreshStop};
use crate::writing::{advance, view_counts};
use delta_agg::Deltas;
use fact_batch::Batch;
use fact_model::Text;
use forest_commit::slot;
use forest_root::{Body, Store};
use site_core::{Fault, Site};
use std::alloc::Global;
use std::marker::Model;

/// More moves than any refresh takes.
const MOST_MOVES: u64 = 1 << 60;

/// A batch that is being taken in. Its points are made and its names have codes; the files keep the facts without it.
#[derive(Drop)]
pub struct Refresh {
    store: Store,
    deltas: Deltas,
    names: Text,
    next: Body,
    room: Room,
}

impl Model for Refresh {
    ghost use Rattle.std.specs.Prelude.{◌≤◌, length, vec_capacity};
    ghost use Rattle.forest_refresh.specs.Begun.{Begun, IsBegun};
    ghost use Rattle.forest_refresh.specs.Progress.{progress_of};

    ghost Value = { Begun };

    ghost view = { λ r. record { store = r.store; deltas = r.deltas; entries = r.names; next = r.next; progress = progress_of r.room } };

    ghost invariant = { λ r. record { begun : IsBegun (record { store = r.store; deltas = r.deltas; entries = r.names; next = r.next; progress = progress_of r.room }); room : length r.deltas ≤ vec_capacity r.room.rows } };
}

impl Refresh {
    /// Begins to take in a batch of 1 to 262,144 facts: tries the limits, gives codes to its new names, which slices do not know, makes its
    /// points, takes all memory that is needed to the end, and then shuts the gate of the next generation. The new pages have the format of the
    /// old ones, or the greatest one where a number in the batch is above 4,294,967,293. A batch may have a number, which is the last one plus
    /// 1, and is the last one from its commit on.
    ///
    /// `FactsFull`, `NamesFull` and `Mass` name the first limit that all facts would pass, in this order. They and `Memory` come before any
    /// call on a file. The store is handed back as it was, also after `Disk`, and then nothing is said of the gate. A stop at any moment
    /// leaves the facts without the batch.
    pub fn begin<T: Site>(
        alloc: Global,
        site: &mut T,
        store: Store,
        facts: Batch,
        number: Option<u64>,
    ) -> Result<Refresh, BeginFault>
        requires batch { IsBatchOf store.forest.schema facts }
        requires number { IfSome number (λ n. n ≡ store.forest.body.last + 1) }
        requires whole { IsWhole store }
        requires opened { IsTrue T.tells → IsOpened store.forest.body (T.disk site.old) }

        ensures begins { Begins T.Site store facts site.old site.new result }
        ensures limit { (accepted : List declared.Fact) (files : Files) → IsStoreOf store accepted files
            → IfErr result (λ fault. TellsLimit store.forest.schema (accepted ++ facts) fault.why) }
        ensures last { IfOk result (λ refresh. refresh.next.last ≡ last_behind store.forest.body.last number) }
        ensures format { IfOk result (λ refresh. refresh.next.format ≡ format_for store.forest.body.format facts) }
    {
        let mut store = store;
        let last = number.unwrap_or(store.forest.body.last);
        match prepare(alloc, &mut store, facts, last) {
            Ok(prepared) => shut_gate(site, store, prepared),
            Err(why) => Err(BeginFault { store, why }),
        }
    }

    /// Begins an upgrade: the same facts, of a warehouse in an earlier format, in pages of the greatest one. It takes all memory that is needed
    /// to the end, and then shuts the gate of the next generation. `Memory` comes before any call on a file. It goes on as a refresh of no
    /// batch, and keeps the number of the last batch. A stop at any moment leaves the facts.
    pub fn begin_upgrade<T: Site>(
        alloc: Global,
        site: &mut T,
        store: Store,
    ) -> Result<Refresh, BeginFault>
        requires narrow { store.forest.body.format < wide_format }
        requires whole { IsWhole store }
        requires opened { IsTrue T.tells → IsOpened store.forest.body (T.disk site.old) }

        ensures begins { Begins T.Site store [] site.old site.new result }
        ensures next { IfOk result (λ refresh. refresh.next ≡ body_as store.forest.body wide_format) }
        ensures why { IfErr result (λ fault. (fault.why ≡ BeginStop.Memory) ⊎ (fault.why ≡ BeginStop.Disk)) }
    {
        match prepare_upgrade(alloc, &store) {
            Ok(upgrade) => shut_gate(site, store, upgrade),
            Err(_) => Err(BeginFault {
                store,
                why: BeginStop::Memory,
            }),
        }
    }

    /// The store without the batch. Its dictionaries hold the batch's names already, which slices do not know.
    pub fn store(&self) -> &Store
        ensures { result.now ≡ self.now.store }
    {
        &self.store
    }

    /// How many facts there will be.
    pub fn facts(&self) -> u64
        ensures { result ≡ self.now.next.facts }
    {
        self.next.facts
    }

    /// How many moves were made.
    pub fn taken(&self) -> u64
        ensures { result ≡ self.now.progress.taken }
    {
        self.room.taken
    }

    /// Makes so many moves, or all that are left where these are fewer; it answers how many. A move reads a page of an old tree, moves a point,
    /// or writes a page of a new tree on the other side. It takes no memory. Between two moves slices are answered from the store that the
    /// refresh lends, from pages that no move touches.
    ///
    /// A stop at any moment leaves the facts without the batch. After an error no move may follow, and the batch can only be dropped
    /// (`abandon`); `Damaged` names the page that `finish` would name.
    pub fn step<T: Site>(&mut self, site: &mut T, moves: u64) -> Result<u64, RefreshStop>
        requires goes { IsGoing self.old }
        requires ready { IsTrue T.tells → IsReady self.old (T.disk site.old) }

        ensures steps { Steps T.Site self.old self.new moves site.old site.new result }
        ensures same { self.new ≡ record self.old { progress = self.new.progress } }
        ensures goes { OnOk result (IsGoing self.new) }
        ensures ready { IsTrue T.tells → OnOk result (IsReady self.new (T.disk site.new)) }
    {
        let store = &self.store;
        let side = slot(&self.next);
        advance(
            site,
            &store.forest,
            &self.deltas,
            self.next.format,
            side,
            moves,
            &mut self.room,
        )
    }

    /// Makes the moves that are left, and commits the new trees. It takes no memory. The answer is the store of all facts; after a stop the
    /// store is gone, and the files are to be opened again.
    ///
    /// A stop at any moment leaves the facts without the batch or all of them. `Damaged` comes exactly where a tree of the live side is
    /// damaged, unless a file fails before. It names the first page that does not fit: it is short, not lawful, out of order, or has a cell
    /// that does not join with that of the batch; or the tree's first page, where all fit, but hold other numbers of points than the body
    /// counts.
    pub fn finish<T: Site>(self, site: &mut T) -> Result<Store, RefreshStop>
        requires goes { IsGoing self }
        requires ready { IsTrue T.tells → IsReady self (T.disk site.old) }

        ensures finishes { Finishes T.Site self site.old site.new result }
        ensures finished { IsTrue T.tells → (accepted batch : List declared.Fact) → HoldsNow (IsRefreshOf self accepted batch) (T.disk site.old)
            → IfOk result (λ store. IsStoreOf store (accepted ++ batch) (T.disk site.new).files) }
        ensures opened { IsTrue T.tells → IfOk result (λ store. IsOpened store.forest.body (T.disk site.new)) }
        ensures next { IfOk result (IsNextStore self) }
    {
        let mut refresh = self;
        match refresh.end(site) {
            Ok(body) => {
                let Refresh { store, .. } = refresh;
                Ok(with_body(store, body))
            }
            Err(stop) => {
                drop(refresh);
                Err(stop)
            }
        }
    }

    /// Makes the moves that are left, and commits the new trees; it answers the body that is live then.
    fn end<T: Site>(&mut self, site: &mut T) -> Result<Body, RefreshStop>
        requires goes { IsGoing self.old }
        requires ready { IsTrue T.tells → IsReady self.old (T.disk site.old) }

        ensures finishes { Finishes T.Site self.old site.old site.new result }
        ensures same { self.new ≡ record self.old { progress = self.new.progress } }
        ensures live { IsTrue T.tells → (accepted batch : List declared.Fact) → HoldsNow (IsRefreshOf self.old accepted batch) (T.disk site.old)
            → IfOk result (λ body. IsLive self.old.store.forest.schema body (accepted ++ batch) (T.disk site.new).files) }
        ensures opened { IsTrue T.tells → IfOk result (λ body. IsOpened body (T.disk site.new)) }
        ensures next { IfOk result (IsNextBody self.old) }
    {
        self.step(site, MOST_MOVES)?;
        let store = &self.store;
        let counts = view_counts(&store.forest, &self.room.rows);
        let next = Body {
            counts,
            ..self.next
        };
        match commit(site, store, &self.names, &next) {
            Ok(()) => Ok(next),
            Err(Fault) => Err(RefreshStop::Disk),
        }
    }

    /// Drops the batch and its names, without a call on a file.
    pub fn abandon(self) -> Store
        ensures store { (accepted batch : List declared.Fact) (files : Files) → IsRefreshOf self accepted batch files → IsStoreOf result accepted files }
        ensures cut { IsCut self.store result }
        ensures forest { result.forest ≡ self.store.forest }
        ensures whole { IsWhole result }
    {
        let Refresh { store, .. } = self;
        without_batch(store)
    }
}

/// Shuts the gate of the next generation for what was prepared.
fn shut_gate<T: Site>(site: &mut T, store: Store, prepared: Prepared) -> Result<Refresh, BeginFault>
    requires begun { IsBegun (begun_with store prepared) }
    requires room { length prepared.deltas ≤ vec_capacity prepared.room.rows }
    requires opened { IsTrue T.tells → IsOpened store.forest.body (T.disk site.old) }
    requires moved { (files : Files) → HasMoved (begun_with store prepared) files }

    ensures { ShutsGate T.Site (begun_with store prepared) site.old site.new result }
{
    match forest_commit::begin(site, slot(&prepared.next)) {
        Ok(()) => Ok(Refresh {
            store,
            deltas: prepared.deltas,
            names: prepared.names,
            next: prepared.next,
            room: prepared.room,
        }),
        Err(Fault) => Err(BeginFault {
            store: without_batch(store),
            why: BeginStop::Disk,
        }),
    }
}

/// The store with the names alone that slices know.
fn without_batch(store: Store) -> Store
    requires { (a : ℕ) → slice_index store.shown.at a ≤ length (names_at store.dicts a) }
    ensures cut { IsCut store result }
    ensures whole { IsWhole result }
{
    let mut store = store;
    let shown = store.shown;
    store.dicts.forget(&shown);
    store
}
