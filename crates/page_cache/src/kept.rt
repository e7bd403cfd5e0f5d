//! A page that is kept with what the test of pages said of it.

ghost use Rattle.std.specs.Prelude.{◌≡◌, ◌≤◌, Ok};
ghost use Rattle.page_fmt.specs.Taking.{taken};

use cube_point::Shape;
use page_entry::PAGE;
use page_fmt::{BadPage, Head, take_page};

/// A page that was accepted, and the shape and the number under which this is its head.
#[derive(Drop)]
pub(crate) struct Kept {
    pub(crate) page: Box<[u8; PAGE]>,
    pub(crate) shape: Shape,
    pub(crate) number: u64,
    pub(crate) head: Head,
    pub(crate) ghost accepted: { Ok head ≡ taken shape number page.value },
}

impl Kept {
    /// A page with its head under this shape and number.
    pub(crate) fn new(page: Box<[u8; PAGE]>, shape: &Shape, number: u64, head: Head) -> Kept
        requires accepted { Ok head ≡ taken shape.now number page.value }
        ensures { result.page ≡ page }
    {
        Kept {
            page,
            shape: *shape,
            number,
            head,
        }
    }

    /// What the test of pages says of it, which is made only where it was accepted under another shape or number.
    pub(crate) fn judge(&self, shape: &Shape, number: u64) -> Result<Head, BadPage>
        requires dims { shape.now.dims ≤ 8 }
        requires measures { shape.now.measures ≤ 4 }
        ensures { result ≡ taken shape.now number self.now.page.value }
    {
        if self.shape == *shape && self.number == number {
            return Ok(self.head);
        }
        take_page(&self.page, shape, number)
    }
}
