// Chains of pages in an image of any shape: found, read and written.
// Each goes from page to page by the links and does the work of one page by a function of its own; what it asks is said by the laws' own records.
#![tactic(auto)]

ghost use Rattle.std.specs.Prelude.{◌≡◌, ◌+◌, ◌-◌, ◌<◌, ◌≤◌, ◌^◌, min, length, take, drop};
ghost use mathlib.Core.List.{flat_map};
ghost use Rattle.volume.specs.Bytes.{put};
ghost use Rattle.volume.specs.Chain.{chain, beyond, spread};
ghost use Rattle.volume.specs.Geometry as On;
ghost use Rattle.volume.proofs.Follow.{PageLies, Inside};
ghost use Rattle.volume.proofs.Writing.{Writable};
ghost use Rattle.shape.specs.Geometry.{geometry_of};

use fields::{Page, Position};
use shape::Shape;

// The page with an index in the chain, counted from 0.
pub fn page_at(image: &[u8], shape: Shape, start: Page, index: usize) -> Page
    requires { Inside (geometry_of shape) image.now index start.0 }
    ensures { result.0 ≡ beyond (On.next (geometry_of shape) image.now) index start.0 }
{
    let mut page = start;
    for _ in 0..index {
        page = shape::link(image, shape, page);
    }
    page
}

// Of the bytes wanted `done` are in the buffer. Copies those that this page has from a place of its content on, and answers how many are there then.
// A place behind the page, and a buffer that has them all, make it none.
fn read_page(
    image: &[u8],
    shape: Shape,
    page: Page,
    place: usize,
    buffer: &mut [u8],
    done: usize,
    count: usize,
) -> usize
    requires { PageLies (geometry_of shape) page.0 image.now × (shape.room ≤ shape.size) × (done ≤ count) × (count ≤ length buffer.old) × (shape.room ≤ 1024) }
    ensures value { result ≡ done + min (shape.room - place) (count - done) }
    ensures buffer_after { buffer.new ≡ put done (take (count - done) (drop place (On.content_on (geometry_of shape) image.now page.0))) buffer.old }
{
    let room = shape.room;
    if room <= place {
        return done;
    }
    let more = (room - place).min(count - done);
    let from = shape::first_byte(shape, page) + (shape.size - room) + place;
    let end = from + more;
    shape_pages::copy_piece(buffer, done, &image[from..end]);
    done + more
}

// Copies `count` bytes of the content of k pages, from the position on, to the front of the buffer; fewer where the pages have fewer.
pub fn read_chain(
    image: &[u8],
    shape: Shape,
    start: Page,
    k: usize,
    position: Position,
    buffer: &mut [u8],
    count: usize,
)
    requires { (0 < shape.room) × (shape.room ≤ shape.size) × Inside (geometry_of shape) image.now k start.0 × (count ≤ length buffer.old) × (shape.room ≤ 1024) }
    ensures { buffer.new ≡ put 0 (take count (drop position.0 (flat_map (On.content_on (geometry_of shape) image.now) (chain (On.next (geometry_of shape) image.now) k start.0)))) buffer.old }
{
    let room = shape.room;
    let passed = position.0 / room;
    if k <= passed {
        return;
    }
    let first = page_at(image, shape, start, passed);
    let mut done = read_page(image, shape, first, position.0 % room, buffer, 0, count);
    let mut page = shape::link(image, shape, first);
    for _ in passed + 1..k {
        // The last, so that of all others the whole content is known to be wanted.
        if count - done < room {
            read_page(image, shape, page, 0, buffer, done, count);
            return;
        }
        // The link first, so that the page need not be kept till its content is copied.
        let next = shape::link(image, shape, page);
        done = read_page(image, shape, page, 0, buffer, done, count);
        page = next;
    }
}

// Of the bytes `done` are written. Puts those that this page takes at a place of its content, and answers how many are written then.
fn write_page(
    image: &mut [u8],
    shape: Shape,
    page: Page,
    place: usize,
    bytes: &[u8],
    done: usize,
) -> usize
    requires { PageLies (geometry_of shape) page.0 image.old × (shape.room ≤ shape.size) × (done ≤ length bytes.now) × (shape.room ≤ 1024) }
    ensures value { result ≡ done + min (shape.room - place) (length bytes.now - done) }
    ensures image_after { image.new ≡ put (On.content (geometry_of shape) page.0 + place) (take (shape.room - place) (drop done bytes.now)) image.old }
{
    let room = shape.room;
    if room <= place {
        return done;
    }
    let end = done + (room - place).min(bytes.len() - done);
    let offset = shape.size - room + place;
    shape_pages::fill_page(image, shape, page, offset, &bytes[done..end]);
    end
}

// Puts bytes over the content of k pages, from the position on. No link of theirs is content of theirs, so the chain stays as it is.
pub fn write_chain(
    image: &mut [u8],
    shape: Shape,
    start: Page,
    k: usize,
    position: Position,
    bytes: &[u8],
)
    requires { (0 < shape.room) × Writable (geometry_of shape) image.old k start.0 × (shape.room ≤ 1024) }
    ensures { image.new ≡ spread (On.content (geometry_of shape)) shape.room (chain (On.next (geometry_of shape) image.old) k start.0) position.0 bytes.now image.old }
{
    let room = shape.room;
    let passed = position.0 / room;
    if k <= passed {
        return;
    }
    let first = page_at(image, shape, start, passed);
    let mut done = write_page(image, shape, first, position.0 % room, bytes, 0);
    let mut page = shape::link(image, shape, first);
    for _ in passed + 1..k {
        // The last, so that all others are known to be filled.
        if bytes.len() - done < room {
            write_page(image, shape, page, 0, bytes, done);
            return;
        }
        let next = shape::link(image, shape, page);
        done = write_page(image, shape, page, 0, bytes, done);
        page = next;
    }
}
