//! The cache of pages: those last used, each lent from where it is kept.

ghost use Rattle.std.specs.Prelude.{◌≡◌, ◌<◌, ◌≤◌, ◌+◌, ◌^◌, [], ◌∷◌, List, ℕ, IsTrue, IsFalse, IfOk, IfErr, IfSome, Ok, OnOk, OnErr, Some, is_some, length, max};
ghost use Rattle.std.specs.Borrow.{sem};
ghost use Rattle.std.specs.Map.{lookup};
ghost use Rattle.std.specs.NonZero.{non_zero_usize_get};
ghost use Rattle.std.specs.Result.{IsErrOf};
ghost use Rattle.site_core.specs.Causes.{HasCauseWhere};
ghost use Rattle.site_core.specs.Frames.{LooksOnly};
ghost use Rattle.page_fmt.specs.InFiles.{HasRead, IsPageOf};
ghost use Rattle.page_fmt.specs.Taking.{taken};
ghost use Rattle.page_cache.specs.Giving.{ExplainsStop, IsRefused, IsUnlawful, is_kept, same_name};
ghost use Rattle.page_cache.specs.Keeping.{Agrees, unkept};
ghost use Rattle.page_cache.specs.Slots.{HasHead, IsFound, IsGiven, IsIn, cache_in};

use crate::kept::Kept;
use crate::slots::Slots;
use cube_point::Shape;
use fact_model::Memory;
use lru::LruCache;
use page_entry::PAGE;
use page_fmt::{Head, take_page};
use site_core::{Fault, Site};
use std::alloc::Global;
use std::marker::Model;
use std::mem;
use std::num::NonZeroUsize;

/// Why a page is not given.
#[derive(Clone, Copy, Debug, PartialEq, Eq)]
pub enum CacheStop {
    /// A call on the file failed.
    Disk,
    /// The file ends before the page's end.
    Short,
    /// The page breaks a rule of pages of this shape.
    Unlawful,
    /// Want of memory.
    Memory,
}

/// A page that keeps the rules of pages, lent from where it is kept.
#[derive(Clone, Copy)]
pub struct Accepted<'a> {
    /// Its bytes.
    pub bytes: &'a [u8; PAGE],
    /// Its head.
    pub head: Head,
}

/// Pages of files, by file and number: those last used, up to the capacity.
#[derive(Drop)]
pub struct Pages {
    slots: Slots,
}

impl Model for Pages {
    ghost use Rattle.page_cache.specs.Giving.{Cache};
    ghost use Rattle.page_cache.specs.Slots.{cache_in};

    ghost Value = { Cache };

    ghost view = { λ p. cache_in p.slots };
}

impl Pages {
    ghost use Rattle.page_cache.specs.Lending.{EndsUsed};

    /// An empty cache that may keep so many pages; with 0 it keeps none.
    pub fn new(alloc: Global, capacity: u32) -> Result<Pages, Memory>
        ensures capacity { IfOk result (λ pages. pages.capacity ≡ capacity) }
        ensures empty { IfOk result (λ pages. pages.kept ≡ []) }
    {
        let spare = Some(Box::new(alloc, [0; PAGE])?);
        match LruCache::new(alloc, places(capacity)) {
            Ok(map) => Ok(Pages {
                slots: Slots {
                    map,
                    spare,
                    capacity,
                },
            }),
            Err(_) => Err(Memory),
        }
    }

    /// Gives a page of a tree of this shape as a read of its file gives it: without a read where it is kept, and with one read otherwise.
    /// It is then the one last used, and kept unless the capacity is 0. A kept page is tested only where it was accepted under another
    /// shape. After an error the kept pages are as before. Nothing is changed in the files, also after an error.
    ///
    /// A page that is kept is given, unless it is none of this shape. `Short` comes exactly where the file ends before the page's end,
    /// and otherwise `Unlawful` where it breaks a rule of pages, unless the read fails.
    pub fn page<T: Site>(
        &mut self,
        site: &mut T,
        shape: &Shape,
        file: u32,
        number: u64,
    ) -> Result<Accepted<'_>, CacheStop>
        requires dims { shape.now.dims ≤ 8 }
        requires measures { shape.now.measures ≤ 4 }
        requires file { file < 4 }
        requires few { number < 2 ^ 50 }

        ensures page { IsTrue T.tells → Agrees (T.disk site.old).files self.old
            → IfOk result (λ page. IsPageOf ((T.disk site.old).files file) number page.bytes.now) }
        ensures accepted { IfOk result (λ page. Ok page.head ≡ taken shape.now number page.bytes.now) }
        ensures stop { IsTrue T.tells → IfErr result (ExplainsStop ((T.disk site.old).files file) number) }
        ensures unlawful { IsTrue T.tells → Agrees (T.disk site.old).files self.old
            → IfErr result (IsUnlawful shape.now ((T.disk site.old).files file) number) }
        ensures* list { sem 𝓛 (EndsUsed self.entry (file, number) result) }

        // Whatever the file holds.
        ensures same { (kept : List ℕ) → lookup (same_name (file, number)) self.old.kept ≡ Some kept
            → IfOk result (λ page. page.bytes.now ≡ kept) }
        ensures given { IsTrue (is_kept self.old (file, number)) → IfErr result (IsRefused shape.now self.old (file, number)) }
        ensures reads { T.reads site.new ≤ T.reads site.old + length (unkept self.old file (number ∷ [])) }
        ensures untouched { IsTrue (is_kept self.old (file, number)) → site.new ≡ site.old }
        ensures looks { LooksOnly T.Site (HasCauseWhere CacheStop.Disk) 1 site.old site.new result }
    {
        let head = match fetch(&mut self.slots, site, shape, (file, number)) {
            Ok(head) => head,
            Err(stop) => return Err(stop),
        };
        match self.slots.map.peek(&(file, number)) {
            Some(kept) => Ok(Accepted {
                bytes: &kept.page,
                head,
            }),
            // It was put there.
            None => unreachable!(),
        }
    }

    /// Forgets the pages that it keeps. It takes no memory.
    pub fn clear(&mut self)
        ensures capacity { self.new.capacity ≡ self.old.capacity }
        ensures empty { self.new.kept ≡ [] }
    {
        self.slots.map.clear();
    }
}

/// As many places as pages may be kept, and one where none may.
fn places(capacity: u32) -> NonZeroUsize
    ensures { non_zero_usize_get result ≡ max capacity 1 }
{
    match NonZeroUsize::new(capacity as usize) {
        Some(places) => places,
        None => NonZeroUsize::MIN,
    }
}

/// Makes the page the one last used of the map, and answers its head. It is read unless it is kept.
fn fetch<T: Site>(
    slots: &mut Slots,
    site: &mut T,
    shape: &Shape,
    name: (u32, u64),
) -> Result<Head, CacheStop>
    requires dims { shape.now.dims ≤ 8 }
    requires measures { shape.now.measures ≤ 4 }
    requires file { name.0 < 4 }
    requires few { name.1 < 2 ^ 50 }

    ensures given { OnOk result (IsGiven name slots.old slots.new) }
    ensures accepted { IfOk result (HasHead shape.now name slots.new) }
    ensures page { IsTrue T.tells → Agrees (T.disk site.old).files (cache_in slots.old)
        → OnOk result (IsFound ((T.disk site.old).files name.0) name slots.new) }
    ensures stop { IsTrue T.tells → IfErr result (ExplainsStop ((T.disk site.old).files name.0) name.1) }
    ensures unlawful { IsTrue T.tells → Agrees (T.disk site.old).files (cache_in slots.old)
        → IfErr result (IsUnlawful shape.now ((T.disk site.old).files name.0) name.1) }

    // Whatever the file holds.
    ensures kept { IsTrue (is_kept (cache_in slots.old) name) → IfErr result (IsRefused shape.now (cache_in slots.old) name) }
    ensures untouched { IsTrue (is_kept (cache_in slots.old) name) → site.new ≡ site.old }
    ensures as_before { OnErr result (cache_in slots.new ≡ cache_in slots.old) }
    ensures looks { LooksOnly T.Site (HasCauseWhere CacheStop.Disk) 1 site.old site.new result }
{
    match use_kept(slots, shape, name) {
        Ok(None) => read_in(slots, site, shape, name),
        Ok(Some(head)) => Ok(head),
        Err(stop) => Err(stop),
    }
}

/// The head of a page that is kept, which is then the one last used; none where it is not kept.
fn use_kept(slots: &mut Slots, shape: &Shape, name: (u32, u64)) -> Result<Option<Head>, CacheStop>
    requires dims { shape.now.dims ≤ 8 }
    requires measures { shape.now.measures ≤ 4 }

    ensures kept { IfOk result (λ head. is_some head ≡ is_kept (cache_in slots.old) name) }
    ensures given { IfOk result (λ head. IsTrue (is_some head) → IsGiven name slots.old slots.new) }
    ensures accepted { IfOk result (λ head. IfSome head (λ h. HasHead shape.now name slots.new h)) }
    ensures none { IfOk result (λ head. IsFalse (is_some head) → slots.new ≡ slots.old) }
    ensures refused { IfErr result (IsRefused shape.now (cache_in slots.old) name) }
    ensures as_before { OnErr result (cache_in slots.new ≡ cache_in slots.old) }
{
    // A page that may not be kept lies there alone.
    if slots.map.len() > slots.capacity as usize {
        return Ok(None);
    }
    let Some(kept) = slots.map.peek(&name) else {
        return Ok(None);
    };
    let Ok(head) = kept.judge(shape, name.1) else {
        return Err(CacheStop::Unlawful);
    };
    slots.map.promote(&name);
    Ok(Some(head))
}

/// Reads a page that is not kept, tests it, and puts it into the map, as the one last used.
fn read_in<T: Site>(
    slots: &mut Slots,
    site: &mut T,
    shape: &Shape,
    name: (u32, u64),
) -> Result<Head, CacheStop>
    requires absent { IsFalse (is_kept (cache_in slots.old) name) }
    requires dims { shape.now.dims ≤ 8 }
    requires measures { shape.now.measures ≤ 4 }
    requires file { name.0 < 4 }
    requires few { name.1 < 2 ^ 50 }

    ensures given { OnOk result (IsGiven name slots.old slots.new) }
    ensures accepted { IfOk result (HasHead shape.now name slots.new) }
    ensures page { IsTrue T.tells → OnOk result (IsFound ((T.disk site.old).files name.0) name slots.new) }
    ensures stop { IsTrue T.tells → IfErr result (ExplainsStop ((T.disk site.old).files name.0) name.1) }
    ensures unlawful { IsTrue T.tells → IfErr result (IsUnlawful shape.now ((T.disk site.old).files name.0) name.1) }
    ensures as_before { OnErr result (cache_in slots.new ≡ cache_in slots.old) }
    ensures looks { LooksOnly T.Site (HasCauseWhere CacheStop.Disk) 1 site.old site.new result }
{
    let Some(page) = &mut slots.spare else {
        unreachable!()
    };
    read(site, name.0, name.1, page)?;
    let Ok(head) = take_page(page, shape, name.1) else {
        return Err(CacheStop::Unlawful);
    };
    put_in(slots, name, shape, head)?;
    Ok(head)
}

/// Reads the page with this number, which the file has to have whole.
fn read<T: Site>(
    site: &mut T,
    file: u32,
    number: u64,
    into: &mut [u8; PAGE],
) -> Result<(), CacheStop>
    requires file { file < 4 }
    requires few { number < 2 ^ 50 }

    ensures page { IsTrue T.tells → HasRead CacheStop.Short ((T.disk site.old).files file) number into.new result }
    ensures known { IsErrOf result CacheStop.Memory → ⊥ }
    ensures untested { IsErrOf result CacheStop.Unlawful → ⊥ }
    ensures looks { LooksOnly T.Site (HasCauseWhere CacheStop.Disk) 1 site.old site.new result }
{
    if site.read(file, PAGE as u64 * number, into)? < PAGE {
        return Err(CacheStop::Short);
    }
    Ok(())
}

/// Puts the spare page into the map, as the one last used, with the head that it was accepted with. The page that goes out of the map is
/// the next spare one, and a new one where none goes out.
fn put_in(slots: &mut Slots, name: (u32, u64), shape: &Shape, head: Head) -> Result<(), Memory>
    requires accepted { IfSome slots.old.spare (λ page. Ok head ≡ taken shape.now name.1 page.value) }
    requires absent { IsFalse (is_kept (cache_in slots.old) name) }

    ensures given { OnOk result (IsGiven name slots.old slots.new) }
    ensures put { OnOk result (IsIn slots.old.spare name slots.new) }
    ensures as_before { OnErr result (cache_in slots.new ≡ cache_in slots.old) }
{
    let next = if slots.map.len() < slots.map.cap().get() {
        Some(Box::new(*slots.map.allocator(), [0; PAGE])?)
    } else {
        None
    };
    let Some(page) = mem::replace(&mut slots.spare, next) else {
        unreachable!()
    };
    let kept = Kept::new(page, shape, name.1, head);
    match slots.map.push(name, kept) {
        Ok(None) => Ok(()),
        Ok(Some((_, old))) => {
            slots.spare = Some(old.page);
            Ok(())
        }
        Err(refused) => {
            slots.spare = Some(refused.value.1.page);
            Err(Memory)
        }
    }
}

impl From<Fault> for CacheStop {
    ghost use Rattle.page_cache.specs.declared.cache.CacheStop.TheVariants as stops;

    ghost from_gives = { λ _ stop. stop ≡ stops.Disk };

    fn from(_fault: Fault) -> CacheStop {
        CacheStop::Disk
    }
}

impl From<Memory> for CacheStop {
    ghost use Rattle.page_cache.specs.declared.cache.CacheStop.TheVariants as stops;

    ghost from_gives = { λ _ stop. stop ≡ stops.Memory };

    fn from(_memory: Memory) -> CacheStop {
        CacheStop::Memory
    }
}
