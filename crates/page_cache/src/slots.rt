//! Where a cache has its pages.
ghost use Rattle.std.specs.Prelude.{◌≡◌, IsSome, max};

use crate::kept::Kept;
use lru::LruCache;
use page_entry::PAGE;

/// The pages of a cache, by file and number, and room for one more.
#[derive(Drop)]
pub(crate) struct Slots {
    /// The pages that are kept; where none may be, the page that was given last.
    pub(crate) map: LruCache<(u32, u64), Kept>,
    /// What the next page is read into.
    pub(crate) spare: Option<Box<[u8; PAGE]>>,
    /// How many pages may be kept.
    pub(crate) capacity: u32,
    pub(crate) ghost places: { map.cap ≡ max capacity 1 },
    pub(crate) ghost has_spare: { IsSome spare },
}
