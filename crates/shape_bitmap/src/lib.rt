// The bitmap of an image of any shape: how many pages are free, by words of 64 bits, and which free one is the lowest, by bytes.
// Every function is total where the bitmap lies in the image, and none changes a byte.
#![tactic(auto)]

ghost use Rattle.std.specs.Prelude.{◌≡◌, ◌+◌, ◌≤◌, length};
ghost use Rattle.volume.specs.Geometry as On;
ghost use Rattle.volume.proofs.Growing.{WordsLie};
ghost use Rattle.shape.specs.Geometry.{geometry_of};
ghost use Rattle.shape_bitmap.specs.Lowest.{Before, Lowest};
ghost use Rattle.shape_bitmap.specs.Words.{Clear};

use fields::Page;
use shape::Shape;

// The zero bits among the first n. Bits past them are not counted: a small image may hold anything there.
pub fn zero_bits(image: &[u8], shape: Shape, n: usize) -> usize
    requires { WordsLie (geometry_of shape) n image.now }
    ensures { result ≡ On.zero_bits (geometry_of shape) image.now n }
{
    let mut zeros = 0;
    for counted in 0..n.div_ceil(64) {
        zeros += words::zeros_among(
            words::bits64(image, shape.map + 8 * counted),
            (n - 64 * counted).min(64),
        );
    }
    zeros
}

// How many bytes from `byte` on are seen to mark no page: none, 1, or 8 where a whole word is 0. A word may reach past the bitmap: what
// stands there can only make the answer less.
#[tactic(auto, using(crate::proofs::Words::none_clear, crate::proofs::Words::byte_clear, crate::proofs::Words::word_clear))]
pub fn clear_bytes(image: &[u8], shape: Shape, byte: usize) -> usize
    requires { shape.map + byte + 8 ≤ length image.now }
    ensures { Clear (geometry_of shape) image.now byte result × (result ≤ 8) }
{
    let at = shape.map + byte;
    if image[at] != 0 {
        return 0;
    }
    if words::bits64(image, at) != 0 {
        return 1;
    }
    8
}

// The lowest free page, where none is free before a byte of the bitmap: who takes one page after the other need not look at all before them again.
// By bytes, for the bit of the page taken last was stored as one: a word read right behind that store would have to wait for it.
pub fn lowest_free_from(image: &[u8], shape: Shape, n: usize, byte: usize) -> Option<Page>
    requires { WordsLie (geometry_of shape) n image.now × Before (geometry_of shape) n byte image.now }
    ensures { Lowest n (On.lowest_free (geometry_of shape) n image.now) result }
{
    for searched in byte..n.div_ceil(8) {
        let k = words::lowest_zero(usize::from(image[shape.map + searched]));
        if k < 8 {
            if 8 * searched + k < n {
                return Some(Page(8 * searched + k));
            }
            return None;
        }
    }
    None
}

pub fn lowest_free(image: &[u8], shape: Shape, n: usize) -> Option<Page>
    requires { WordsLie (geometry_of shape) n image.now }
    ensures { Lowest n (On.lowest_free (geometry_of shape) n image.now) result }
{
    lowest_free_from(image, shape, n, 0)
}
