// The entries of one page of a directory of version 2 (paper 02 §12): how many there are, and where they begin.
#![tactic(auto)]

ghost use Rattle.std.specs.Prelude.{◌≡◌, ◌+◌, ◌*◌, ◌<◌, ◌≤◌, ◌^◌};
ghost use Rattle.volume.specs.Geometry as On;
ghost use Rattle.model2.specs.Layout.{root_start};
ghost use Rattle.model2.specs.Version2.{entry_count, entries_start};
ghost use Rattle.shape.specs.Geometry.{geometry_of};
ghost use Rattle.rows2.specs.Roomy.{Roomy};

use fields::Page;
use shape::Shape;

// The root's first entry: behind the bitmap, in steps of 32.
fn root_start(pages: usize) -> usize
    requires { pages ≤ 1024 }
    ensures { result ≡ root_start pages }
{
    (7 + pages / 8 + 31) / 32 * 32
}

pub fn entry_count(shape: Shape, pages: usize, page: Page) -> usize
    requires { Roomy shape.size pages }
    ensures { result ≡ entry_count shape.size pages page.0 }
{
    if page.0 == 0 {
        return (shape.size - root_start(pages)) / 32;
    }
    shape.size / 32
}

pub fn entries_start(shape: Shape, pages: usize, page: Page) -> usize
    requires { Roomy shape.size pages × (On.start (geometry_of shape) page.0 < 2 ^ 64) }
    ensures { result ≡ entries_start shape.size pages page.0 }
{
    if page.0 == 0 {
        return root_start(pages);
    }
    shape::first_byte(shape, page)
}
