// The header of an image of version 2, judged by the lines 1, 2 and 26 (paper 02 §12). No function but one asks for anything: whatever the bytes, the header is
// right, with the shape of the image, or told is the first line that holds.
#![tactic(auto)]

ghost use Rattle.std.specs.Prelude.{◌≡◌, ◌||◌, ◌≤◌, length, leb};
ghost use Rattle.std.proofs.Math.Option.{none, some};
ghost use Rattle.model.specs.RefusalOf.{settle};
ghost use Rattle.model2.specs.Layout.{valid_length, is_version2, fit_code, header_lines};
ghost use Rattle.header2.specs.Header.{refused_by, Shaped};

use refusals2::Refusal;
use shape::Cell;
use shape2::Cartridge;

pub fn length_is_allowed(bytes: usize) -> bool
    ensures { result ≡ valid_length bytes }
{
    if bytes % 2048 != 0 {
        return false;
    }
    if bytes < 2048 {
        return false;
    }
    bytes <= 1048576
}

// Of an image shorter than two bytes the definitions would read zeros.
fn is_version_2(image: &[u8]) -> bool
    requires { 2 ≤ length image.now }
    ensures { result ≡ is_version2 image.now }
{
    if image[0] != 0x5A {
        return false;
    }
    image[1] == 2
}

// To `most` bytes any code does, and above that one from `least` on.
fn is_large_enough(code: usize, bytes: usize, most: usize, least: usize) -> bool
    ensures { result ≡ (leb bytes most || leb least code) }
{
    if bytes <= most {
        return true;
    }
    least <= code
}

#[tactic(auto, using(crate::proofs::Sizes::high_code))]
pub fn code_fits(code: usize, bytes: usize) -> bool
    ensures { result ≡ fit_code code bytes }
{
    if 2 < code {
        return false;
    }
    if !is_large_enough(code, bytes, 65536, 1) {
        return false;
    }
    if !is_large_enough(code, bytes, 262144, 2) {
        return false;
    }
    bytes % (8 * shape2::page_size(code)) == 0
}

// What the header of any bytes is: the image's shape and its number of pages, or the first of the lines 1, 2 and 26 that holds. The length is judged first,
// then bytes 0 and 1, then the page code and the bitmap's bytes: the order of the table.
pub fn read_header(image: &[u8]) -> Result<Cartridge, Refusal>
    ensures { (refused_by result ≡ settle (header_lines image.now) some none) × Shaped image.now result }
{
    let bytes = image.len();
    if !length_is_allowed(bytes) {
        return Err(Refusal::BadLength);
    }
    if !is_version_2(image) {
        return Err(Refusal::BadVersion);
    }
    let code = usize::from(image[6]);
    if !code_fits(code, bytes) {
        return Err(Refusal::BadShape);
    }
    let cartridge = shape2::shape_of(bytes, code);
    if shape::load(image, Cell::Pair(2)) != cartridge.pages / 8 {
        return Err(Refusal::BadShape);
    }
    Ok(cartridge)
}
