// The bit of a page in the bitmap of an image of any shape: read, set and cleared.
// Every function is total where the bitmap lies in the image; `mark` and `unmark` change one byte each.
#![tactic(auto)]

ghost use Rattle.std.specs.Prelude.{◌≡◌, ◌<◌, length};
ghost use Rattle.volume.specs.Geometry as On;
ghost use Rattle.shape.specs.Geometry.{geometry_of};

use fields::Page;
use shape::Shape;

// The bit of a page, 1 if it is allocated.
pub fn bit(image: &[u8], shape: Shape, page: Page) -> usize
    requires { On.bitmap_byte (geometry_of shape) page.0 < length image.now }
    ensures { result ≡ On.page_bit (geometry_of shape) image.now page.0 }
{
    let p = page.0;
    let byte = usize::from(image[shape.map + p / 8]);
    (byte >> (p % 8)) % 2
}

// Sets the bit of a page. One that is set stays: to add its weight again would carry into the next page's bit.
pub fn mark(image: &mut [u8], shape: Shape, page: Page)
    requires { On.bitmap_byte (geometry_of shape) page.0 < length image.old }
    ensures { image.new ≡ On.mark (geometry_of shape) page.0 image.old }
{
    let p = page.0;
    let at = shape.map + p / 8;
    let byte = usize::from(image[at]);
    if bit(image, shape, page) == 0 {
        image[at] = (byte + words::weight(p % 8)) as u8;
    }
}

// Clears the bit of a page. One that is clear stays.
pub fn unmark(image: &mut [u8], shape: Shape, page: Page)
    requires { On.bitmap_byte (geometry_of shape) page.0 < length image.old }
    ensures { image.new ≡ On.unmark (geometry_of shape) page.0 image.old }
{
    let p = page.0;
    let at = shape.map + p / 8;
    let byte = usize::from(image[at]);
    if bit(image, shape, page) == 1 {
        image[at] = (byte - words::weight(p % 8)) as u8;
    }
}
