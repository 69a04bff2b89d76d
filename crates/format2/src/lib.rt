// The bytes that format writes on a cartridge of version 2 (paper 02 §12), once its length and the page code that it was handed are judged (1, 26).
// Nothing is judged here: the pages set aside are written whole, each lent as its own part of the image, and every byte behind them stays.
#![tactic(auto)]

ghost use Rattle.std.specs.Prelude.{◌≡◌, ◌-◌, ◌*◌, ◌^◌, ◌≤◌, length};
ghost use Rattle.volume.specs.Bytes.{put, zeros};
ghost use Rattle.model2.specs.Format.{formatted};
ghost use Rattle.laws2.proofs.Bounds.{Allowed};

use fields::Page;
use shape::Shape;

// Zeroes the header's page and the table's: a link of a free page is 0 then, too.
fn zero_aside(image: &mut [u8], shape: Shape)
    requires { shape.size * shape.aside ≤ length image.old }
    ensures { image.new ≡ put 0 (zeros (shape.size * shape.aside)) image.old }
{
    for page in 0..shape.aside {
        shape_pages::zero_page(image, shape, Page(page));
    }
}

// The bitmap's first byte, which marks the pages below this one and no other.
fn marks_below(page: usize) -> u8
    requires { page ≤ 3 }
    ensures { result ≡ 2 ^ page - 1 }
{
    let weight: usize = 1 << page;
    (weight - 1) as u8
}

// The pages set aside are marked, and the number of free pages leaves them out.
pub fn format_image(image: &mut [u8], code: usize)
    requires { Allowed code (length image.old) }
    ensures { image.new ≡ formatted code image.old }
{
    let cartridge = shape2::shape_of(image.len(), code);
    let shape = cartridge.shape;
    let map = cartridge.pages / 8;
    let free = cartridge.pages - shape.aside;
    let header = [
        0x5A,
        2,
        (map % 256) as u8,
        (map / 256) as u8,
        (free % 256) as u8,
        (free / 256) as u8,
        code as u8,
        marks_below(shape.aside),
    ];
    zero_aside(image, shape);
    shape_pages::fill_page(image, shape, Page(0), 0, &header);
}
