// The entries of a directory of version 2, which is a chain of pages (paper 02 §12), one after the other by a cursor: so a walk over them is one loop.
// A cursor goes over as many pages as the image has, at most, so it ends on any image; that its pages lie in the image is asked.
#![tactic(auto)]

ghost use Rattle.std.specs.Prelude.{◌≡◌, ◌+◌, ◌<◌, ◌≤◌, ◌∷◌, length};
ghost use Rattle.volume.specs.Lists.{first};
ghost use Rattle.volume.specs.Geometry as On;
ghost use Rattle.model.specs.Sound.{is_named};
ghost use Rattle.model.specs.Effect.{is_vacant};
ghost use Rattle.model2.specs.Entry.{entry_at};
ghost use Rattle.model2.specs.Version2.{linked_pages};
ghost use Rattle.shape.specs.Geometry.{geometry_of};
ghost use Rattle.rows2.specs.Roomy.{Roomy};
ghost use Rattle.cursor2.specs.Row.{row, position_at, row_from, row_after, AllLie, Stands, StandsAfter, found_of};

use fields::Page;
use shape::Shape;

// An entry by its number on a page of the directory. `left` is how many pages may follow: as many as the image has, less those before.
#[derive(Clone, Copy)]
pub struct Cursor {
    pub page: Page,
    pub number: usize,
    pub left: usize,
}

// The directory's first entry: all of its row is left.
pub fn first_entry(image: &[u8], shape: Shape, pages: usize, directory: Page) -> Cursor
    requires { Roomy shape.size pages × (1 ≤ pages) × AllLie shape image.now (linked_pages (On.next (geometry_of shape) image.now) pages directory.0) }
    ensures { (row_from shape pages image.now result ≡ row shape pages image.now directory.0) × Stands shape pages image.now result }
{
    Cursor {
        page: directory,
        number: 0,
        left: pages - 1,
    }
}

// Where the entry stands in the image.
pub fn position_of(image: &[u8], shape: Shape, pages: usize, cursor: Cursor) -> usize
    requires { Roomy shape.size pages × Stands shape pages image.now cursor }
    ensures { (result ≡ position_at shape pages cursor) × (result + 32 ≤ length image.now) }
{
    rows2::entries_start(shape, pages, cursor.page) + 32 * cursor.number
}

// The entry behind it: on the same page, or the first of the page that follows.
#[tactic(auto, using(crate::proofs::Seeking::ends_here))]
pub fn next_entry(image: &[u8], shape: Shape, pages: usize, cursor: Cursor) -> Option<Cursor>
    requires { Roomy shape.size pages × Stands shape pages image.now cursor }
    ensures { (row_from shape pages image.now cursor ≡ position_at shape pages cursor ∷ row_after shape pages image.now result) × StandsAfter shape pages image.now result }
{
    let here = cursor.page;
    let left = cursor.left;
    let number = cursor.number + 1;
    if number < rows2::entry_count(shape, pages, here) {
        return Some(Cursor {
            page: here,
            number,
            left,
        });
    }
    let page = shape::link(image, shape, here);
    if page.0 == 0 {
        return None;
    }
    if left == 0 {
        return None;
    }
    Some(Cursor {
        page,
        number: 0,
        left: left - 1,
    })
}

pub fn is_vacant(image: &[u8], at: usize) -> bool
    requires { at < length image.now }
    ensures { result ≡ is_vacant (entry_at image.now at) }
{
    image[at] / 128 % 2 != 1
}

// The lowest vacant entry of a directory, on whichever of its pages.
pub fn vacant_entry(image: &[u8], shape: Shape, pages: usize, directory: Page) -> Option<usize>
    requires { Roomy shape.size pages × (1 ≤ pages) × AllLie shape image.now (linked_pages (On.next (geometry_of shape) image.now) pages directory.0) }
    ensures { found_of result ≡ first (λ at. is_vacant (entry_at image.now at)) (row shape pages image.now directory.0) }
{
    let mut cursor = first_entry(image, shape, pages, directory);
    loop {
        let at = position_of(image, shape, pages, cursor);
        if is_vacant(image, at) {
            return Some(at);
        }
        cursor = next_entry(image, shape, pages, cursor)?;
    }
}

// The entry of that name, on whichever of the directory's pages.
pub fn entry_named(
    image: &[u8],
    shape: Shape,
    pages: usize,
    directory: Page,
    name: &[u8],
) -> Option<usize>
    requires { Roomy shape.size pages × (1 ≤ pages) × AllLie shape image.now (linked_pages (On.next (geometry_of shape) image.now) pages directory.0) }
    ensures { found_of result ≡ first (λ at. is_named name.now (entry_at image.now at)) (row shape pages image.now directory.0) }
{
    let mut cursor = first_entry(image, shape, pages, directory);
    loop {
        let at = position_of(image, shape, pages, cursor);
        if names::is_named(image, at, name) {
            return Some(at);
        }
        cursor = next_entry(image, shape, pages, cursor)?;
    }
}
