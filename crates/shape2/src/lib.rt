// The shape of an image of version 2 (paper 02 §12), made from its length and page code, when both were judged (26).
// It is the definitions' geometry at run time, so what `shape_bitmap`, `shape_pages` and `shape_chains` do by it is what `volume` says at that geometry.
#![tactic(auto)]

ghost use Rattle.std.specs.Prelude.{◌≡◌, ◌≤◌};
ghost use Rattle.model2.specs.Layout as Layout;
ghost use Rattle.shape.specs.Geometry.{geometry_of};

use shape::{Cell, Links, Shape};

// A shape, and N: the number of pages is no part of a shape.
#[derive(Clone, Copy)]
pub struct Cartridge {
    pub shape: Shape,
    pub pages: usize,
}

pub fn page_size(code: usize) -> usize
    requires { code ≤ 2 }
    ensures { result ≡ Layout.page_size code }
{
    256 << code
}

// To 65,536 bytes one page of one-byte links, above that two of two-byte links, whatever the page code.
#[tactic(auto, using(crate::proofs::Widths::narrow_is, crate::proofs::Widths::wide_is))]
pub fn shape_of(length: usize, code: usize) -> Cartridge
    requires { code ≤ 2 }
    ensures { (geometry_of result.shape ≡ Layout.geometry2 code length) × (result.pages ≡ Layout.page_count code length) }
{
    let size = page_size(code);
    let pages = length / size;
    let count = Cell::Pair(4);
    if length <= 65536 {
        let links = Links::Bytes(size);
        let shape = Shape {
            aside: 2,
            size,
            room: size,
            links,
            count,
            map: 7,
        };
        return Cartridge { shape, pages };
    }
    let links = Links::Pairs(size);
    let shape = Shape {
        aside: 3,
        size,
        room: size,
        links,
        count,
        map: 7,
    };
    Cartridge { shape, pages }
}
