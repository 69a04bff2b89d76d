// One page of an image of version 1, zeroed and filled: the functions of `shape_pages` at the shape of version 1, with contracts in the model's words.
#![tactic(auto)]

ghost use Rattle.std.specs.Prelude.{◌≡◌, ◌+◌, ◌<◌, ◌≤◌, length};
ghost use Rattle.volume.specs.Bytes.{put, zeros};
ghost use Rattle.volume.specs.Geometry as On;
ghost use Rattle.model.specs.Layout.{version1, page_size, page_count};

use bitmap::VERSION1;
use fields::Page;
pub use shape_pages::{copy_in, zero};

pub fn zero_page(image: &mut [u8], page: Page)
    requires { page.0 < page_count image.old }
    ensures { image.new ≡ put (On.start version1 page.0) (zeros page_size) image.old }
{
    shape_pages::zero_page(image, VERSION1, page);
}

// The offset counts from the page's first byte, which is its link.
pub fn fill_page(image: &mut [u8], page: Page, offset: usize, source: &[u8])
    requires { (page.0 < page_count image.old) × (offset + length source.now ≤ page_size) }
    ensures { image.new ≡ put (On.start version1 page.0 + offset) source.now image.old }
{
    shape_pages::fill_page(image, VERSION1, page, offset, source);
}
