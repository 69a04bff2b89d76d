// The shape of a cartridge at run time: the code's copy of a geometry of `volume`, and the numbers that stand where it says.
// Every function answers what `volume` defines at the shape's geometry, and asks only that what it reads or writes lies in the image.
#![tactic(auto)]

ghost use Rattle.std.specs.Prelude.{◌≡◌, ◌+◌, ◌*◌, ◌^◌, ◌<◌, ◌≤◌};
ghost use Rattle.volume.specs.Field as Field;
ghost use Rattle.volume.specs.Geometry as On;
ghost use Rattle.volume.proofs.Fields.{place};
ghost use Rattle.volume.proofs.Small.{FitsIn};
ghost use Rattle.volume.proofs.Follow.{Lies};
ghost use Rattle.shape.specs.Geometry.{field_of, geometry_of};

use fields::Page;

// Where a number stands: in one byte, or in two with the low one first.
#[derive(Clone, Copy)]
pub enum Cell {
    Byte(usize),
    Pair(usize),
}

// Where the links stand: each in the first byte of its page, or all in a table from a position on, one byte or two for each page.
#[derive(Clone, Copy)]
pub enum Links {
    OnPage,
    Bytes(usize),
    Pairs(usize),
}

// The pages below `aside` are set aside. A page has `size` bytes, of which the last `room` hold a file's content; `map` is where the bitmap begins.
#[derive(Clone, Copy)]
pub struct Shape {
    pub aside: usize,
    pub size: usize,
    pub room: usize,
    pub links: Links,
    pub count: Cell,
    pub map: usize,
}

// ---- numbers

pub fn load(image: &[u8], cell: Cell) -> usize
    requires { Lies (field_of cell) image.now }
    ensures { (result ≡ Field.load (field_of cell) image.now) × FitsIn (field_of cell) result }
{
    match cell {
        Cell::Byte(at) => usize::from(image[at]),
        Cell::Pair(at) => usize::from(image[at]) + 256 * usize::from(image[at + 1]),
    }
}

pub fn store(image: &mut [u8], cell: Cell, number: usize)
    requires { Lies (field_of cell) image.old × FitsIn (field_of cell) number }
    ensures { image.new ≡ Field.store (field_of cell) number image.old }
{
    match cell {
        Cell::Byte(at) => {
            image[at] = number as u8;
        }
        Cell::Pair(at) => {
            image[at] = (number % 256) as u8;
            image[at + 1] = (number / 256) as u8;
        }
    }
}

// ---- pages: positions are multiplied here alone

// The position of a page's first byte.
pub fn first_byte(shape: Shape, page: Page) -> usize
    requires { On.start (geometry_of shape) page.0 < 2 ^ 64 }
    ensures { result ≡ On.start (geometry_of shape) page.0 }
{
    shape.size * page.0
}

pub fn link_cell(shape: Shape, page: Page) -> Cell
    requires { place ((geometry_of shape).link page.0) < 2 ^ 64 }
    ensures { field_of result ≡ (geometry_of shape).link page.0 }
{
    let links = shape.links;
    match links {
        Links::OnPage => Cell::Byte(first_byte(shape, page)),
        Links::Bytes(table) => Cell::Byte(table + page.0),
        Links::Pairs(table) => Cell::Pair(table + 2 * page.0),
    }
}

// The page that follows; 0 for none.
pub fn link(image: &[u8], shape: Shape, page: Page) -> Page
    requires { Lies ((geometry_of shape).link page.0) image.now }
    ensures { result.0 ≡ On.next (geometry_of shape) image.now page.0 }
{
    Page(load(image, link_cell(shape, page)))
}

pub fn set_link(image: &mut [u8], shape: Shape, page: Page, to: Page)
    requires { Lies ((geometry_of shape).link page.0) image.old × FitsIn ((geometry_of shape).link page.0) to.0 }
    ensures { image.new ≡ Field.store ((geometry_of shape).link page.0) to.0 image.old }
{
    store(image, link_cell(shape, page), to.0);
}
