// The bitmap of an image of version 1: the functions of `shape_bitmap` at the shape of version 1, with contracts in the model's words.
// Every function is total where the bitmap lies in the image, and none but `mark` and `unmark` changes a byte, each of them one.
#![tactic(auto)]

ghost use Rattle.std.specs.Prelude.{◌≡◌, ◌+◌, ◌<◌, ◌≤◌, length};
ghost use Rattle.model.specs.Layout.{version1};
ghost use Rattle.volume.specs.Geometry as On;
ghost use Rattle.shape_bitmap.specs.Lowest.{Lowest};
ghost use Rattle.bitmap.specs.Words.{Clear};

use fields::Page;
use shape::{Cell, Links, Shape};

// Version 1 (01, "Numbers" and "The header page"). A constant: once it is handed on, the compiler leaves nothing of it but its numbers.
pub const VERSION1: Shape = Shape {
    aside: 1,
    size: 256,
    room: 255,
    links: Links::OnPage,
    count: Cell::Byte(3),
    map: 4,
};

// The bit of a page, 1 if it is allocated.
pub fn bit(image: &[u8], page: Page) -> usize
    requires { On.bitmap_byte version1 page.0 < length image.now }
    ensures { result ≡ On.page_bit version1 image.now page.0 }
{
    shape_bits::bit(image, VERSION1, page)
}

// The zero bits among the first n.
pub fn zero_bits(image: &[u8], n: usize) -> usize
    requires { (n ≤ 256) × (36 ≤ length image.now) }
    ensures { result ≡ On.zero_bits version1 image.now n }
{
    shape_bitmap::zero_bits(image, VERSION1, n)
}

// How many bytes from `byte` on are seen to mark no page.
pub fn clear_bytes(image: &[u8], byte: usize) -> usize
    requires { byte + 12 ≤ length image.now }
    ensures { Clear image.now byte result × (result ≤ 8) }
{
    shape_bitmap::clear_bytes(image, VERSION1, byte)
}

pub fn lowest_free(image: &[u8], n: usize) -> Option<Page>
    requires { (n ≤ 256) × (36 ≤ length image.now) }
    ensures { Lowest n (On.lowest_free version1 n image.now) result }
{
    shape_bitmap::lowest_free(image, VERSION1, n)
}

// Sets the bit of a page.
pub fn mark(image: &mut [u8], page: Page)
    requires { On.bitmap_byte version1 page.0 < length image.old }
    ensures { image.new ≡ On.mark version1 page.0 image.old }
{
    shape_bits::mark(image, VERSION1, page);
}

// Clears the bit of a page.
pub fn unmark(image: &mut [u8], page: Page)
    requires { On.bitmap_byte version1 page.0 < length image.old }
    ensures { image.new ≡ On.unmark version1 page.0 image.old }
{
    shape_bits::unmark(image, VERSION1, page);
}
