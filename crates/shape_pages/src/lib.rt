// One page of an image of any shape: zeroed, filled, taken and given back.
// A page to be written is lent on as its own part of the image, so of the bytes of other pages only those of count, bitmap and link change.
#![tactic(auto)]

ghost use Rattle.std.specs.Prelude.{◌≡◌, ◌+◌, ◌<◌, ◌≤◌, length, take};
ghost use Rattle.volume.specs.Bytes.{put, zeros};
ghost use Rattle.volume.specs.Geometry as On;
ghost use Rattle.volume.proofs.Small.{FitsIn};
ghost use Rattle.volume.proofs.Follow.{PageLies};
ghost use Rattle.volume.proofs.Stores.{Present, claimed};
ghost use Rattle.shape.specs.Geometry.{geometry_of};
ghost use Rattle.shape_pages.specs.Order.{CountFirst};

use fields::Page;
use shape::Shape;

// Zeroes a part of whatever length.
pub fn zero(part: &mut [u8])
    ensures { part.new ≡ zeros (length part.old) }
{
    for byte in part {
        *byte = 0;
    }
}

// The routine that zeroes is lent the page alone, and cannot reach past it.
pub fn zero_page(image: &mut [u8], shape: Shape, page: Page)
    requires { PageLies (geometry_of shape) page.0 image.old }
    ensures { image.new ≡ put (On.start (geometry_of shape) page.0) (zeros shape.size) image.old }
{
    let first = shape::first_byte(shape, page);
    let end = first + shape.size;
    zero(&mut image[first..end]);
}

// ---- copies: between two slices the back end must fear an overlap. An array of our own overlaps with nothing, so the bytes that go through one are
// moved at once, however many, and the array is gone. 1,024 is the longest page.

fn put_bytes(part: &mut [u8], offset: usize, source: &[u8])
    requires { offset + length source.now ≤ length part.old }
    ensures { part.new ≡ put offset source.now part.old }
{
    for k in 0..source.len() {
        part[offset + k] = source[k];
    }
}

// Copies no more bytes than a page has.
pub fn copy_piece(part: &mut [u8], offset: usize, source: &[u8])
    requires { (offset + length source.now ≤ length part.old) × (length source.now ≤ 1024) }
    ensures { part.new ≡ put offset source.now part.old }
{
    let mut piece = [0u8; 1024];
    put_bytes(&mut piece, 0, source);
    put_bytes(part, offset, &piece[0..source.len()]);
}

// Copies a source of any length into a part, from the offset on.
pub fn copy_in(part: &mut [u8], offset: usize, source: &[u8])
    requires { offset + length source.now ≤ length part.old }
    ensures { part.new ≡ put offset source.now part.old }
{
    let end = source.len();
    // One piece is the way of all but the longest: here, so that it does not go through the loop.
    if end <= 1024 {
        copy_piece(part, offset, source);
        return;
    }
    let mut done = 0;
    while 1024 < end - done {
        let next = done + 1024;
        copy_piece(part, offset + done, &source[done..next]);
        done = next;
    }
    copy_piece(part, offset + done, &source[done..end]);
}

// The same for a routine that fills: the offset counts from the page's first byte.
pub fn fill_page(image: &mut [u8], shape: Shape, page: Page, offset: usize, source: &[u8])
    requires { PageLies (geometry_of shape) page.0 image.old × (offset + length source.now ≤ shape.size) × (length source.now ≤ 1024) }
    ensures { image.new ≡ put (On.start (geometry_of shape) page.0 + offset) source.now image.old }
{
    let first = shape::first_byte(shape, page);
    let end = first + shape.size;
    copy_piece(&mut image[first..end], offset, source);
}

// Takes a page whose content is written next: marked, counted, its link 0. Its bytes stay. The count stands before the bitmap, so it may be read and stored
// at once after the mark.
pub fn claim_page(image: &mut [u8], shape: Shape, page: Page)
    requires { Present (geometry_of shape) page.0 image.old × (0 < On.free_count (geometry_of shape) image.old) × CountFirst (geometry_of shape) }
    ensures { image.new ≡ claimed (geometry_of shape) page.0 image.old }
{
    let count = shape.count;
    shape_bits::mark(image, shape, page);
    let free = shape::load(image, count);
    shape::store(image, count, free - 1);
    shape::set_link(image, shape, page, Page(0));
}

// Takes a page, and all its bytes are 0.
pub fn take_page(image: &mut [u8], shape: Shape, page: Page)
    requires { Present (geometry_of shape) page.0 image.old × (0 < On.free_count (geometry_of shape) image.old) × CountFirst (geometry_of shape) }
    ensures { image.new ≡ On.taken (geometry_of shape) page.0 image.old }
{
    claim_page(image, shape, page);
    zero_page(image, shape, page);
}

// Gives a page back. Its bytes stay, and its link.
pub fn release_page(image: &mut [u8], shape: Shape, page: Page)
    requires { Present (geometry_of shape) page.0 image.old × FitsIn (geometry_of shape).count (On.free_count (geometry_of shape) image.old + 1) }
    ensures { image.new ≡ On.released (geometry_of shape) image.old page.0 }
{
    let count = shape.count;
    let free = shape::load(image, count);
    shape_bits::unmark(image, shape, page);
    shape::store(image, count, free + 1);
}
