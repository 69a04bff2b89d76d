// Chains of pages in an image of any shape: grown and given back.
// A page that is added is the lowest free one; what each function asks is said by the laws' own records.
#![tactic(auto)]

ghost use Rattle.std.specs.Prelude.{◌≡◌, ◌-◌, take};
ghost use mathlib.Core.List.{foldl};
ghost use Rattle.volume.specs.Chain.{chain};
ghost use Rattle.volume.specs.Field.{store};
ghost use Rattle.volume.specs.Geometry as On;
ghost use Rattle.volume.proofs.Stores.{claimed};
ghost use Rattle.volume.proofs.Growing.{Growing};
ghost use Rattle.volume.proofs.Unzeroed.{ButFor};
ghost use Rattle.volume.proofs.Claiming.{LinkThenContent};
ghost use Rattle.volume.proofs.Releasing.{Returned};
ghost use Rattle.shape.specs.Geometry.{field_of, geometry_of};
ghost use Rattle.shape_bitmap.specs.Lowest.{Before};

use fields::Page;
use shape::{Cell, Shape};

// Takes the lowest free page of n, and puts its number at the joint. No page before those of the byte is free.
fn append(image: &mut [u8], shape: Shape, n: usize, joint: Cell, byte: usize) -> Page
    requires { Growing (geometry_of shape) n 1 (field_of joint) image.old × Before (geometry_of shape) n byte image.old }
    ensures { (result.0 ≡ On.lowest_free (geometry_of shape) n image.old) × (image.new ≡ On.grown (geometry_of shape) n 1 (field_of joint) image.old) }
{
    let Some(page) = shape_bitmap::lowest_free_from(image, shape, n, byte) else {
        // Never: a page is free, says the contract.
        return Page(0);
    };
    shape_pages::take_page(image, shape, page);
    shape::store(image, joint, page.0);
    page
}

// Adds pages to a chain. The joint of the next one is the link of the last one added, and before that one's byte of the bitmap no page is free any more.
pub fn grow(image: &mut [u8], shape: Shape, n: usize, joint: Cell, count: usize)
    requires { Growing (geometry_of shape) n count (field_of joint) image.old }
    ensures { image.new ≡ On.grown (geometry_of shape) n count (field_of joint) image.old }
{
    let mut at = joint;
    let mut byte = 0;
    for _ in 0..count {
        let page = append(image, shape, n, at, byte);
        at = shape::link_cell(shape, page);
        byte = page.0 / 8;
    }
}

// The same, but the page's bytes stay.
fn append_claimed(image: &mut [u8], shape: Shape, n: usize, joint: Cell, byte: usize) -> Page
    requires { Growing (geometry_of shape) n 1 (field_of joint) image.old × Before (geometry_of shape) n byte image.old }
    ensures { (result.0 ≡ On.lowest_free (geometry_of shape) n image.old) × (image.new ≡ store (field_of joint) result.0 (claimed (geometry_of shape) result.0 image.old)) }
{
    let Some(page) = shape_bitmap::lowest_free_from(image, shape, n, byte) else {
        // Never, as above.
        return Page(0);
    };
    shape_pages::claim_page(image, shape, page);
    shape::store(image, joint, page.0);
    page
}

// Adds pages whose content is written next, all of it but for some of the last page's: that one alone is zeroed. In the others' place the content may be
// anything, and all else is as `grow` makes it.
#[tactic(auto, using(crate::proofs::Bytes::not_grown))]
pub fn grow_unzeroed(image: &mut [u8], shape: Shape, n: usize, joint: Cell, count: usize)
    requires { Growing (geometry_of shape) n count (field_of joint) image.old × LinkThenContent (geometry_of shape) }
    ensures { ButFor (geometry_of shape) (take (count - 1) (On.gained (geometry_of shape) n count image.old))
        (On.grown (geometry_of shape) n count (field_of joint) image.old) image.new }
{
    if count == 0 {
        return;
    }
    let mut at = joint;
    let mut searched = 0;
    for _ in 1..count {
        let page = append_claimed(image, shape, n, at, searched);
        at = shape::link_cell(shape, page);
        searched = page.0 / 8;
    }
    append(image, shape, n, at, searched);
}

// Gives the k pages of a chain back. Their bytes stay, and so do the links.
pub fn release(image: &mut [u8], shape: Shape, start: Page, k: usize)
    requires { Returned (geometry_of shape) image.old k start.0 }
    ensures { image.new ≡ foldl (On.released (geometry_of shape)) image.old (chain (On.next (geometry_of shape) image.old) k start.0) }
{
    let mut page = start;
    for _ in 0..k {
        shape_pages::release_page(image, shape, page);
        page = shape::link(image, shape, page);
    }
}
