// Chains of pages in an image of version 1: the functions of `shape_chains` and `shape_growth` at the shape of version 1, with contracts in the
// model's words. What they ask is that the pages lie in the image; how it gives what the shared functions ask stands in proofs/Asked.antt.
#![tactic(auto)]

ghost use Rattle.std.specs.Prelude.{◌≡◌, ◌-◌, ◌≤◌, length, take, drop};
ghost use mathlib.Core.List.{foldl, flat_map};
ghost use Rattle.volume.specs.Bytes.{put};
ghost use Rattle.volume.specs.Chain.{chain, beyond, spread};
ghost use Rattle.volume.specs.Field.{byte};
ghost use Rattle.volume.specs.Geometry as On;
ghost use Rattle.volume.proofs.Unzeroed.{ButFor};
ghost use Rattle.model.specs.Layout.{version1, room, link};
ghost use Rattle.chains.specs.Asked.{Inside, Returned, Growing};

use bitmap::VERSION1;
use fields::{Page, Position};
use shape::Cell;

// The page with an index in the chain, counted from 0.
pub fn page_at(image: &[u8], start: Page, index: usize) -> Page
    requires { Inside image.now index start.0 }
    ensures { result.0 ≡ beyond (link image.now) index start.0 }
{
    shape_chains::page_at(image, VERSION1, start, index)
}

// Copies `count` bytes of the content of k pages, from the position on, to the front of the buffer; fewer where the pages have fewer.
pub fn read_chain(
    image: &[u8],
    start: Page,
    k: usize,
    position: Position,
    buffer: &mut [u8],
    count: usize,
)
    requires { Inside image.now k start.0 × (count ≤ length buffer.old) }
    ensures { buffer.new ≡ put 0 (take count (drop position.0 (flat_map (On.content_on version1 image.now) (chain (link image.now) k start.0)))) buffer.old }
{
    shape_chains::read_chain(image, VERSION1, start, k, position, buffer, count);
}

// Puts bytes over the content of k pages, from the position on.
pub fn write_chain(image: &mut [u8], start: Page, k: usize, position: Position, bytes: &[u8])
    requires { Inside image.old k start.0 }
    ensures { image.new ≡ spread (On.content version1) room (chain (link image.old) k start.0) position.0 bytes.now image.old }
{
    shape_chains::write_chain(image, VERSION1, start, k, position, bytes);
}

// Adds pages to a chain, whose joint is a byte: an entry's start page, or the link of its last page.
pub fn grow(image: &mut [u8], n: usize, joint: usize, count: usize)
    requires { Growing n count joint image.old }
    ensures { image.new ≡ On.grown version1 n count (byte joint) image.old }
{
    shape_growth::grow(image, VERSION1, n, Cell::Byte(joint), count);
}

// The same for pages whose content is written next: the last one alone is zeroed.
pub fn grow_unzeroed(image: &mut [u8], n: usize, joint: usize, count: usize)
    requires { Growing n count joint image.old }
    ensures { ButFor version1 (take (count - 1) (On.gained version1 n count image.old)) (On.grown version1 n count (byte joint) image.old) image.new }
{
    shape_growth::grow_unzeroed(image, VERSION1, n, Cell::Byte(joint), count);
}

// Gives the k pages of a chain back. Their bytes stay, and so do the links.
pub fn release(image: &mut [u8], start: Page, k: usize)
    requires { Returned image.old k start.0 }
    ensures { image.new ≡ foldl (On.released version1) image.old (chain (link image.old) k start.0) }
{
    shape_growth::release(image, VERSION1, start, k);
}
