// Entry i of a directory of version 2, counted over all its pages (paper 02 §12): whole pages are passed, since a page's number of entries is known without reading them.
// The image is lent for reading. Asked is a directory whose pages lie in it, or a cursor that stands; what is found is a cursor that stands, or the end.
#![tactic(auto)]

ghost use Rattle.std.specs.Prelude.{◌≡◌, ◌-◌, ◌≤◌, drop};
ghost use Rattle.volume.specs.Geometry as On;
ghost use Rattle.model2.specs.Version2.{linked_pages, entry_count};
ghost use Rattle.shape.specs.Geometry.{geometry_of};
ghost use Rattle.rows2.specs.Roomy.{Roomy};
ghost use Rattle.cursor2.specs.Row.{row, row_from, row_after, AllLie, Stands, StandsAfter};

use cursor2::Cursor;
use fields::Page;
use shape::Shape;

// The first entry behind those that the cursor's page has left: its last entry's next.
pub fn next_page(image: &[u8], shape: Shape, pages: usize, cursor: Cursor) -> Option<Cursor>
    requires { Roomy shape.size pages × Stands shape pages image.now cursor }
    ensures { (row_after shape pages image.now result ≡ drop (entry_count shape.size pages cursor.page.0 - cursor.number) (row_from shape pages image.now cursor)) × StandsAfter shape pages image.now result }
{
    let page = cursor.page;
    let left = cursor.left;
    let number = rows2::entry_count(shape, pages, page) - 1;
    let last = Cursor { page, number, left };
    cursor2::next_entry(image, shape, pages, last)
}

// Entry i of a directory, counted over all its pages: page by page, since a page's number of entries is known without reading them.
pub fn entry_numbered(
    image: &[u8],
    shape: Shape,
    pages: usize,
    directory: Page,
    i: usize,
) -> Option<Cursor>
    requires { Roomy shape.size pages × (1 ≤ pages) × AllLie shape image.now (linked_pages (On.next (geometry_of shape) image.now) pages directory.0) }
    ensures { (row_after shape pages image.now result ≡ drop i (row shape pages image.now directory.0)) × StandsAfter shape pages image.now result }
{
    let mut cursor = cursor2::first_entry(image, shape, pages, directory);
    let mut further = i;
    loop {
        let page = cursor.page;
        let left = cursor.left;
        let held = rows2::entry_count(shape, pages, page) - cursor.number;
        if further < held {
            let number = cursor.number + further;
            return Some(Cursor { page, number, left });
        }
        further -= held;
        cursor = next_page(image, shape, pages, cursor)?;
    }
}
