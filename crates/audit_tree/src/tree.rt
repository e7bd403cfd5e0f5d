//! The pages of a tree, one after another.

ghost use Rattle.std.specs.Prelude.{◌≡◌, ◌≢◌, ◌↔◌, ◌<◌, ◌≤◌, ◌+◌, ◌++◌, ◌^◌, ℕ, None, Some, IfErr, IfOk, IsTrue, List, OnOk, false, slice_index};
ghost use Rattle.spec_tree.specs.Levels.{children_at, full_level, rest_level};
ghost use Rattle.audit_points.specs.Kept.{Kept};
ghost use Rattle.page_fmt.specs.InFiles.{HasRead, IsPageOf, page_at};
ghost use Rattle.page_fmt.specs.Pages.{inner_bytes};
ghost use Rattle.page_fmt.specs.Trees.{fanout_of, tree_pages};
ghost use Rattle.page_fmt.specs.Writing.{IsShape};
ghost use Rattle.site_core.specs.Causes.{HasCauseWhere};
ghost use Rattle.site_core.specs.Frames.{LooksOnly};
ghost use Rattle.tree_pack.specs.Moving.{HasPageIn, Moving, with_inner, with_leaf};
ghost use Rattle.tree_scan.specs.Scanning.{leaf_entries};
ghost use Rattle.audit_tree.specs.Auditing.{IsAuditing, IsSafe};
ghost use Rattle.audit_tree.specs.Fitting.{Fits, IsFound, IsLeafDue, IsLeafOf, IsNextArity, IsRest, behind_leaf};
ghost use Rattle.audit_tree.specs.Kept.{AreKept, AreKeptWith, AreOpen, AreViewsOf, Keeps};
ghost use Rattle.audit_tree.specs.Packed.{IsAuditedTree};
ghost use Rattle.audit_tree.specs.Broken.{AreFew, IsBrokenAt, NamesPage, TellsBroken};

use crate::leaf::{are_within, next_arity, points_due, push_all};
use crate::stop::TreeStop;
use audit_points::TreePoints;
use cube_point::{Point, Shape};
use fact_model::Memory;
use page_entry::{PAGE, lent_entry};
use page_fmt::{ARITIES, Place};
use site_core::Site;
use std::alloc::Global;
use tree_pack::Packer;
use tree_scan::{Followed, follow};

/// The greatest coordinates of each arity's points.
pub type Limits = [[u64; 8]; ARITIES];

/// The page that was read last, the last point before it, how many points of each arity are left, and the packer that they go through.
#[derive(Drop)]
pub struct TreeAudit {
    packer: Packer,
    page: Box<[u8; PAGE]>,
    last: Option<Point>,
    left: [u64; ARITIES],
}

impl TreeAudit {
    /// Room for any tree. Only want of memory makes it fail.
    pub fn new(alloc: Global) -> Result<TreeAudit, Memory> {
        Ok(TreeAudit {
            packer: Packer::new(alloc)?,
            page: Box::new(alloc, [0; PAGE])?,
            last: None,
            left: [0; ARITIES],
        })
    }

    /// Reads each page of a tree once, in ascending order, and keeps its points. `Ok` where all pages keep the rules: the numbers of points, by
    /// arity, and the pages before it fix what each page is, and no coordinate is above its limit. No file is changed, also after an error.
    ///
    /// `Broken` names the first page that breaks a rule.
    pub fn audit<T: Site>(
        &mut self,
        alloc: Global,
        site: &mut T,
        place: &Place,
        counts: &[u64; ARITIES],
        limits: &Limits,
    ) -> Result<TreePoints, TreeStop>
        requires file { place.now.file < 4 }
        requires few { place.now.first + place.now.pages ≤ 2 ^ 50 }
        requires shape { IsShape place.now.shape }
        requires counts { (i : ℕ) → slice_index counts.now i ≤ 2 ^ 40 }
        requires pages { place.now.pages ≡ tree_pages place.now.shape counts.now }

        ensures audited { IsTrue T.tells → OnOk result (IsAuditedTree place.now counts.now limits.now ((T.disk site.old).files place.now.file)) }
        ensures broken { IsTrue T.tells
            → IfErr result (TellsBroken place.now counts.now limits.now ((T.disk site.old).files place.now.file)) }
        ensures kept { IsTrue T.tells → IfOk result (AreKept place.now ((T.disk site.old).files place.now.file) place.now.pages) }
        ensures views { IfOk result (AreViewsOf place.now.shape) }
        ensures looks { LooksOnly T.Site (HasCauseWhere TreeStop.Disk) place.now.pages site.old site.new result }
    {
        self.packer.start(place.shape, place.first);
        self.last = None;
        self.left = *counts;
        let mut kept = TreePoints::new(alloc, place.shape)?;
        for number in place.first..place.first + place.pages {
            match self.next(site, place, limits, number, &mut kept) {
                Ok(()) => {}
                Err(stop) => return Err(stop),
            }
        }
        Ok(kept)
    }

    /// Reads the page with this number, and goes on behind it where it keeps the rules.
    fn next<T: Site>(
        &mut self,
        site: &mut T,
        place: &Place,
        limits: &Limits,
        number: u64,
        kept: &mut TreePoints,
    ) -> Result<(), TreeStop>
        requires file { place.now.file < 4 }
        requires few { number < 2 ^ 50 }
        requires shape { IsShape place.now.shape }
        requires safe { IsSafe place.now.shape self.old.left self.old.packer.at }
        requires number { self.old.packer.at.next_page ≡ number }
        requires room { AreOpen place.now.shape self.old.left kept.old }

        ensures safe { OnOk result (IsSafe place.now.shape self.new.left self.new.packer.at) }
        ensures number { OnOk result (self.new.packer.at.next_page ≡ number + 1) }
        ensures goes { IsTrue T.tells → (counts : List ℕ) (n : ℕ) → place.now.first + n ≡ number
            → IsAuditing place.now counts limits.now ((T.disk site.old).files place.now.file) n self.old.left self.old.last self.old.packer.at
            → OnOk result (IsAuditing place.now counts limits.now ((T.disk site.old).files place.now.file) (n + 1) self.new.left self.new.last self.new.packer.at) }
        ensures broken { IsTrue T.tells → (counts : List ℕ) (n : ℕ) → place.now.first + n ≡ number → AreFew counts
            → IsAuditing place.now counts limits.now ((T.disk site.old).files place.now.file) n self.old.left self.old.last self.old.packer.at
            → IfErr result (IsBrokenAt place.now counts limits.now ((T.disk site.old).files place.now.file) n) }
        ensures kept { IsTrue T.tells
            → OnOk result (AreKeptWith (leaf_entries place.now.shape (page_at ((T.disk site.old).files place.now.file) number)) number kept.old kept.new) }
        ensures open_again { OnOk result (AreOpen place.now.shape self.new.left kept.new) }
        ensures looks { LooksOnly T.Site (HasCauseWhere TreeStop.Disk) 1 site.old site.new result }
    {
        match read_page(site, place.file, number, &mut self.page) {
            Ok(()) => self.go_on(place, limits, number, kept),
            Err(stop) => Err(stop),
        }
    }

    /// Goes on behind the page that was read, where it keeps the rules.
    fn go_on(
        &mut self,
        place: &Place,
        limits: &Limits,
        number: u64,
        kept: &mut TreePoints,
    ) -> Result<(), TreeStop>
        requires few { number < 2 ^ 50 }
        requires shape { IsShape place.now.shape }
        requires safe { IsSafe place.now.shape self.old.left self.old.packer.at }
        requires number { self.old.packer.at.next_page ≡ number }
        requires room { AreOpen place.now.shape self.old.left kept.old }

        ensures safe { OnOk result (IsSafe place.now.shape self.new.left self.new.packer.at) }
        ensures number { OnOk result (self.new.packer.at.next_page ≡ number + 1) }
        ensures goes { (bytes counts : List ℕ) (n : ℕ) → IsPageOf bytes number self.old.page.value → place.now.first + n ≡ number
            → IsAuditing place.now counts limits.now bytes n self.old.left self.old.last self.old.packer.at
            → OnOk result (IsAuditing place.now counts limits.now bytes (n + 1) self.new.left self.new.last self.new.packer.at) }
        ensures broken { (bytes counts : List ℕ) (n : ℕ) → IsPageOf bytes number self.old.page.value → place.now.first + n ≡ number → AreFew counts
            → IsAuditing place.now counts limits.now bytes n self.old.left self.old.last self.old.packer.at
            → IfErr result (IsBrokenAt place.now counts limits.now bytes n) }
        ensures keeps { OnOk result (Keeps place.now.shape self.new.left (leaf_entries place.now.shape self.old.page.value) number kept.old kept.new) }
        ensures no_call { IfErr result (λ stop. stop ≢ TreeStop.Disk) }
    {
        match follow(&self.page, &place.shape, number, &self.last) {
            Some(found) => self.step(place, limits, &found, number, kept),
            None => Err(TreeStop::Broken { page: number }),
        }
    }

    /// The same of a page that is accepted, with points behind those before it.
    fn step(
        &mut self,
        place: &Place,
        limits: &Limits,
        found: &Followed,
        number: u64,
        kept: &mut TreePoints,
    ) -> Result<(), TreeStop>
        requires few { number < 2 ^ 50 }
        requires shape { IsShape place.now.shape }
        requires safe { IsSafe place.now.shape self.old.left self.old.packer.at }
        requires number { self.old.packer.at.next_page ≡ number }
        requires room { AreOpen place.now.shape self.old.left kept.old }
        requires found { IsFound place.now.shape self.old.page.value found.now.count }

        ensures fits { OnOk result (Fits place.now.shape limits.now self.old.left self.old.packer.at self.old.page.value self.new.left self.new.packer.at) }
        ensures last { OnOk result (self.new.last ≡ found.now.last) }
        ensures only { IfErr result (λ stop. (page : ℕ) → stop ≡ TreeStop.Broken page → (page ≡ number)
            × ((left : List ℕ) (m : Moving) → Fits place.now.shape limits.now self.old.left self.old.packer.at self.old.page.value left m → ⊥)) }
        ensures keeps { OnOk result (Keeps place.now.shape self.new.left (leaf_entries place.now.shape self.old.page.value) number kept.old kept.new) }
        ensures no_call { IfErr result (λ stop. stop ≢ TreeStop.Disk) }
    {
        if !self.take(&place.shape, limits, found.count, kept)? {
            return Err(TreeStop::Broken { page: number });
        }
        self.last = found.last;
        Ok(())
    }

    /// Whether the page that was read is the next of the tree, by its contents; then the packer goes on behind it.
    fn take(
        &mut self,
        shape: &Shape,
        limits: &Limits,
        count: usize,
        kept: &mut TreePoints,
    ) -> Result<bool, Memory>
        requires shape { IsShape shape.now }
        requires safe { IsSafe shape.now self.old.left self.old.packer.at }
        requires room { AreOpen shape.now self.old.left kept.old }
        requires few { self.old.packer.at.next_page < 2 ^ 60 }
        requires found { IsFound shape.now self.old.page.value count }

        ensures fits { IfOk result (λ fits. IsTrue fits
            → Fits shape.now limits.now self.old.left self.old.packer.at self.old.page.value self.new.left self.new.packer.at) }
        ensures only { IfOk result (λ fits. fits ≡ false → (left : List ℕ) (m : Moving)
            → Fits shape.now limits.now self.old.left self.old.packer.at self.old.page.value left m → ⊥) }
        ensures keeps { IfOk result (λ fits. IsTrue fits
            → Keeps shape.now self.new.left (leaf_entries shape.now self.old.page.value) self.old.packer.at.next_page kept.old kept.new) }
    {
        match self.packer.full() {
            Some(level) => Ok(self.is_inner(level)),
            None => self.take_next(shape, limits, count, kept),
        }
    }

    /// The same where no level is full.
    fn take_next(
        &mut self,
        shape: &Shape,
        limits: &Limits,
        count: usize,
        kept: &mut TreePoints,
    ) -> Result<bool, Memory>
        requires shape { IsShape shape.now }
        requires safe { IsSafe shape.now self.old.left self.old.packer.at }
        requires room { AreOpen shape.now self.old.left kept.old }
        requires few { self.old.packer.at.next_page < 2 ^ 60 }
        requires none { full_level (fanout_of shape.now) self.old.packer.at.levels ≡ None }
        requires found { IsFound shape.now self.old.page.value count }

        ensures fits { IfOk result (λ fits. IsTrue fits
            → Fits shape.now limits.now self.old.left self.old.packer.at self.old.page.value self.new.left self.new.packer.at) }
        ensures only { IfOk result (λ fits. fits ≡ false → (left : List ℕ) (m : Moving)
            → Fits shape.now limits.now self.old.left self.old.packer.at self.old.page.value left m → ⊥) }
        ensures keeps { IfOk result (λ fits. IsTrue fits
            → Keeps shape.now self.new.left (leaf_entries shape.now self.old.page.value) self.old.packer.at.next_page kept.old kept.new) }
    {
        match next_arity(&self.left) {
            Some(arity) => self.take_leaf(shape, limits, count, arity, kept),
            None => Ok(self.is_rest()),
        }
    }

    /// Whether the page that was read is the inner page of the lowest level that is left, which is closed.
    fn is_rest(&mut self) -> bool
        requires few { self.old.packer.at.next_page < 2 ^ 60 }
        requires pages { (i : ℕ) → rest_level self.old.packer.at.levels ≡ Some i → HasPageIn i self.old.packer.at }
        ensures is { IsTrue result → IsRest self.old.packer.at self.old.page.value self.new.packer.at }
        ensures only { result ≡ false → (m : Moving) → IsRest self.old.packer.at self.old.page.value m → ⊥ }
        ensures left { self.new.left ≡ self.old.left }
    {
        match self.packer.rest() {
            Some(level) => self.is_inner(level),
            None => false,
        }
    }

    /// Whether the page that was read is the inner page of this level, which is closed.
    fn is_inner(&mut self, level: usize) -> bool
        requires { HasPageIn level self.old.packer.at }
        ensures is { IsTrue result ↔ (self.old.page.value ≡ inner_bytes self.old.packer.at.shape (children_at level self.old.packer.at.levels)) }
        ensures at { self.new.packer.at ≡ with_inner level self.old.packer.at }
        ensures left { self.new.left ≡ self.old.left }
    {
        self.packer.close_level(level);
        self.page[..] == self.packer.inner_page()[..]
    }

    /// Whether the page that was read is the leaf of this arity that is due; then its points are packed, and the leaf is kept.
    fn take_leaf(
        &mut self,
        shape: &Shape,
        limits: &Limits,
        count: usize,
        arity: usize,
        kept: &mut TreePoints,
    ) -> Result<bool, Memory>
        requires shape { IsShape shape.now }
        requires safe { IsSafe shape.now self.old.left self.old.packer.at }
        requires room { AreOpen shape.now self.old.left kept.old }
        requires few { self.old.packer.at.next_page < 2 ^ 60 }
        requires none { full_level (fanout_of shape.now) self.old.packer.at.levels ≡ None }
        requires next { IsNextArity self.old.left arity }
        requires found { IsFound shape.now self.old.page.value count }

        ensures is { IfOk result (λ is. IsTrue is → IsLeafDue shape.now limits.now self.old.left self.old.page.value arity) }
        ensures only { IfOk result (λ is. is ≡ false → IsLeafDue shape.now limits.now self.old.left self.old.page.value arity → ⊥) }
        ensures at { IfOk result (λ is. IsTrue is → self.new.packer.at ≡ with_leaf (record self.old.packer.at { buffer = leaf_entries shape.now self.old.page.value })) }
        ensures left { IfOk result (λ is. IsTrue is → self.new.left ≡ behind_leaf shape.now self.old.left arity) }
        ensures keeps { IfOk result (λ is. IsTrue is
            → Keeps shape.now self.new.left (leaf_entries shape.now self.old.page.value) self.old.packer.at.next_page kept.old kept.new) }
    {
        if !self.is_leaf(shape, limits, count, arity) {
            return Ok(false);
        }
        self.keep_leaf(shape, count, arity, kept)?;
        Ok(true)
    }

    /// Whether the page that was read is the leaf of this arity that is due.
    fn is_leaf(&self, shape: &Shape, limits: &Limits, count: usize, arity: usize) -> bool
        requires shape { IsShape shape.now }
        requires next { IsNextArity self.now.left arity }
        requires found { IsFound shape.now self.now.page.value count }
        ensures { IsTrue result ↔ IsLeafDue shape.now limits.now self.now.left self.now.page.value arity }
    {
        if count as u64 != points_due(shape, arity, self.left[arity]) {
            return false;
        }
        if lent_entry(&self.page, shape, 0).arity() as usize != arity {
            return false;
        }
        are_within(&self.page, shape, count, limits, arity)
    }

    /// Keeps the page that was read, which is the leaf of this arity that is due, and packs its points.
    fn keep_leaf(
        &mut self,
        shape: &Shape,
        count: usize,
        arity: usize,
        kept: &mut TreePoints,
    ) -> Result<(), Memory>
        requires shape { IsShape shape.now }
        requires safe { IsSafe shape.now self.old.left self.old.packer.at }
        requires room { AreOpen shape.now self.old.left kept.old }
        requires few { self.old.packer.at.next_page < 2 ^ 60 }
        requires none { full_level (fanout_of shape.now) self.old.packer.at.levels ≡ None }
        requires leaf { IsLeafOf shape.now self.old.left self.old.page.value arity }
        requires found { IsFound shape.now self.old.page.value count }

        ensures at { OnOk result (self.new.packer.at ≡ with_leaf (record self.old.packer.at { buffer = leaf_entries shape.now self.old.page.value })) }
        ensures left { OnOk result (self.new.left ≡ behind_leaf shape.now self.old.left arity) }
        ensures keeps { OnOk result (Keeps shape.now self.new.left (leaf_entries shape.now self.old.page.value) self.old.packer.at.next_page kept.old kept.new) }
    {
        kept.push(arity, &self.page, count, self.packer.next_page())?;
        push_all(&mut self.packer, &self.page, shape, count);
        self.packer.close_leaf();
        self.left[arity] -= count as u64;
        Ok(())
    }
}

/// Reads the page with this number, which the file has to have whole.
fn read_page<T: Site>(
    site: &mut T,
    file: u32,
    number: u64,
    into: &mut [u8; PAGE],
) -> Result<(), TreeStop>
    requires file { file < 4 }
    requires few { number ≤ 2 ^ 50 }

    ensures page { IsTrue T.tells → HasRead (TreeStop.Broken number) ((T.disk site.old).files file) number into.new result }
    ensures names { IfErr result (NamesPage number) }
    ensures looks { LooksOnly T.Site (HasCauseWhere TreeStop.Disk) 1 site.old site.new result }
{
    if site.read(file, PAGE as u64 * number, into)? < PAGE {
        return Err(TreeStop::Broken { page: number });
    }
    Ok(())
}
