//! The sizes of a page, of an entry and of what an entry holds.

ghost use Rattle.std.specs.Prelude.{◌≡◌, ◌≤◌, ◌*◌};
ghost use Rattle.page_entry.specs.Bytes.{width, entry_size};

use cube_point::Shape;

/// The bytes of a page.
pub const PAGE: usize = 4096;

/// The bytes in front of a page's entries.
pub const HEADER: usize = 8;

/// The bytes of a coordinate.
pub const NARROW: usize = 4;

/// The bytes of a coordinate of a wide tree.
pub const WIDE: usize = 8;

/// The bytes of a cell's count.
pub const COUNT: usize = 8;

/// The bytes of a sum, or of a least or greatest value.
pub(crate) const VALUE: usize = 16;

/// The bytes of a cell's part.
pub const PART: usize = 48;

/// The bytes of so many coordinates.
#[tactic(auto, unfolding(crate::specs::Bytes::width))]
pub fn size_of_point(wide: bool, arity: u8) -> usize
    ensures size { result ≡ arity * width wide }
    ensures few { result ≤ arity * 8 }
{
    if wide {
        arity as usize * WIDE
    } else {
        arity as usize * NARROW
    }
}

/// The bytes of a leaf's entry.
pub fn size_of_entry(shape: &Shape, arity: u8) -> usize
    ensures { result ≡ entry_size arity shape.now }
{
    size_of_point(shape.wide, arity) + COUNT + shape.measures as usize * PART
}
