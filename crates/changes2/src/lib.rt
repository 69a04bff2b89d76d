// What make, write and remove do to the bytes of a version 2 image once they are granted (paper 02 §12): an entry is put, changed or cleared, its chain
// grows or goes, and a directory gains a page.
// Nothing is judged here. What a function asks of the image holds on every sound one, and its contract is the model's effect, byte for byte.
#![tactic(auto)]

ghost use Rattle.std.specs.Prelude.{◌≡◌, ◌+◌, ◌-◌, ◌<◌, ◌≤◌, length, set, take};
ghost use mathlib.Core.List.{foldl};
ghost use Rattle.volume.specs.Bytes.{put};
ghost use Rattle.volume.specs.Lists.{all};
ghost use Rattle.volume.specs.Chain.{chain, beyond, linked};
ghost use Rattle.volume.specs.Geometry as On;
ghost use Rattle.volume.proofs.Follow.{Inside};
ghost use Rattle.volume.proofs.Growing.{Growing};
ghost use Rattle.volume.proofs.Unzeroed.{ButFor};
ghost use Rattle.volume.proofs.Claiming.{LinkThenContent};
ghost use Rattle.volume.proofs.Releasing.{Returned};
ghost use Rattle.model.specs.Effect.{is_vacant};
ghost use Rattle.model.specs.EffectOf.{lengthened, rewritten};
ghost use Rattle.model2.specs.Entry.{start_field, entry_at, new_entry};
ghost use Rattle.model2.specs.Version2.{view2, layout2};
ghost use Rattle.shape.specs.Geometry.{field_of, geometry_of};
ghost use Rattle.cursor2.specs.Row.{row};
ghost use Rattle.changes2.specs.Asked.{Walkable, Making, Lengthening, Writing};

use fields::{Page, Position};
use shape::{Cell, Shape};

// ---- directories

// Every entry of a directory is vacant, on whichever of its pages, so that it may be removed.
pub fn holds_nothing(image: &[u8], shape: Shape, n: usize, directory: Page) -> bool
    requires { Walkable shape n directory.0 image.now }
    ensures { result ≡ all (λ at. is_vacant (entry_at image.now at)) (row shape n image.now directory.0) }
{
    let mut cursor = cursor2::first_entry(image, shape, n, directory);
    loop {
        let at = cursor2::position_of(image, shape, n, cursor);
        if !cursor2::is_vacant(image, at) {
            return false;
        }
        let Some(next) = cursor2::next_entry(image, shape, n, cursor) else {
            return true;
        };
        cursor = next;
    }
}

// How many pages a directory has: to link 0, and at most as many as the image, so that it ends on any.
pub fn directory_length(image: &[u8], shape: Shape, n: usize, directory: Page) -> usize
    requires { Walkable shape n directory.0 image.now }
    ensures { result ≡ linked (On.next (geometry_of shape) image.now) n directory.0 }
{
    let mut page = directory;
    for passed in 0..n {
        page = shape::link(image, shape, page);
        if page.0 == 0 {
            return passed + 1;
        }
    }
    n
}

// Where the number of a chain's next page goes: the link of the last of its k pages. In version 2 every file and every directory has one.
fn last_link(image: &[u8], shape: Shape, start: Page, k: usize) -> Cell
    requires { (1 ≤ k) × Inside (geometry_of shape) image.now k start.0 }
    ensures { field_of result ≡ (geometry_of shape).link (beyond (On.next (geometry_of shape) image.now) (k - 1) start.0) }
{
    let last = shape_chains::page_at(image, shape, start, k - 1);
    shape::link_cell(shape, last)
}

// A page more at the end of a directory's chain: zeroed, so that its entries are vacant.
pub fn lengthen(image: &mut [u8], shape: Shape, n: usize, directory: Page)
    requires { Lengthening shape n directory.0 image.old }
    ensures { image.new ≡ lengthened layout2 (view2 image.old) directory.0 }
{
    let held = directory_length(image, shape, n, directory);
    let joint = last_link(image, shape, directory, held);
    shape_growth::grow(image, shape, n, joint, 1);
}

// ---- remove

// Gives the k pages of an entry back and clears its flags, which makes it vacant. Its other bytes stay.
pub fn remove_entry(image: &mut [u8], shape: Shape, entry: usize, start: Page, k: usize)
    requires { Returned (geometry_of shape) image.old k start.0 × (entry < length image.old) }
    ensures { image.new
        ≡ set (foldl (On.released (geometry_of shape)) image.old (chain (On.next (geometry_of shape) image.old) k start.0)) entry 0 }
{
    shape_growth::release(image, shape, start, k);
    image[entry] = 0;
}

// ---- make

// Puts a new entry, and grows its chain from its start page on, which is the joint of the first.
pub fn make_entry(
    image: &mut [u8],
    shape: Shape,
    n: usize,
    entry: usize,
    flags: u8,
    size: usize,
    pages: usize,
    name: &[u8],
    date: &[u8],
)
    requires { Making shape n entry flags size pages name.now date.now image.old }
    ensures { image.new
        ≡ On.grown (geometry_of shape) n pages (start_field entry) (put entry (new_entry flags name.now size date.now) image.old) }
{
    entries2::put_entry(image, entry, flags, name, size, date);
    shape_growth::grow(image, shape, n, Cell::Pair(entry + 17), pages);
}

// ---- write

// Adds pages to a chain that has `held`, whose content is written next. With none to add it is not gone through for its last link: each link has to be
// waited for before the next one can be read.
fn add_pages(image: &mut [u8], shape: Shape, n: usize, start: Page, held: usize, count: usize)
    requires { (1 ≤ held) × Inside (geometry_of shape) image.old held start.0 × LinkThenContent (geometry_of shape)
        × Growing (geometry_of shape) n count ((geometry_of shape).link (beyond (On.next (geometry_of shape) image.old) (held - 1) start.0)) image.old }
    ensures { ButFor (geometry_of shape) (take (count - 1) (On.gained (geometry_of shape) n count image.old))
        (On.grown (geometry_of shape) n count ((geometry_of shape).link (beyond (On.next (geometry_of shape) image.old) (held - 1) start.0))
        image.old) image.new }
{
    if count == 0 {
        return;
    }
    let joint = last_link(image, shape, start, held);
    shape_growth::grow_unzeroed(image, shape, n, joint, count);
}

// Puts bytes over a file's content from the position on, after its chain has the pages for them and its entry the size.
pub fn write_entry(
    image: &mut [u8],
    shape: Shape,
    n: usize,
    entry: usize,
    start: Page,
    size: usize,
    position: Position,
    bytes: &[u8],
)
    requires { Writing shape n entry start.0 size position.0 bytes.now image.old }
    ensures { image.new ≡ rewritten layout2 view2 entry position.0 bytes.now image.old }
{
    let new_size = size.max(position.0 + bytes.len());
    let held = fields2::pages_for(shape, size);
    let wanted = fields2::pages_for(shape, new_size);
    add_pages(image, shape, n, start, held, wanted - held);
    let sized = entries2::size_bytes(new_size);
    entry_bytes::put(image, entry + 19, &sized);
    // A file has a page before it is written, so its start page stays.
    shape_chains::write_chain(image, shape, start, wanted, position, bytes);
}
