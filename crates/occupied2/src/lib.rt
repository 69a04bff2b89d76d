// The occupied entries of a directory of version 2 (paper 02 §12), one after the other: vacant ones are passed over a page at a time, by their flags alone.
// No function changes the image. What a walk that stops at occupied entries alone passes over is vacant.
#![tactic(auto)]

ghost use Rattle.std.specs.Prelude.{◌≡◌, ◌+◌, ◌-◌, ◌*◌, ◌≤◌, ◌<◌, ◌^◌, length};
ghost use Rattle.rows2.specs.Roomy.{Roomy};
ghost use Rattle.cursor2.specs.Row.{row_from, row_after, StandsAfter};
ghost use Rattle.occupied2.specs.Passing.{is_free, past, number_from, Searching, four_free, Between, row_behind, Nearer, met_row, Meets};

use cursor2::Cursor;
use shape::Shape;

// An occupied entry with its number in the whole directory.
#[derive(Clone, Copy)]
pub struct Occupied {
    pub cursor: Cursor,
    pub number: usize,
}

// The first entry of the page behind the cursor's.
pub fn next_page(image: &[u8], shape: Shape, pages: usize, cursor: Cursor) -> Option<Cursor>
    requires { Roomy shape.size pages × Between shape pages image.now cursor }
    ensures { (row_behind shape pages image.now cursor ≡ row_after shape pages image.now result)
        × StandsAfter shape pages image.now result × Nearer cursor.left result }
{
    let left = cursor.left;
    let page = shape::link(image, shape, cursor.page);
    if page.0 == 0 {
        return None;
    }
    if left == 0 {
        return None;
    }
    Some(Cursor {
        page,
        number: 0,
        left: left - 1,
    })
}

fn is_vacant(image: &[u8], at: usize) -> bool
    requires { at < length image.now }
    ensures { result ≡ is_free image.now at }
{
    image[at] / 128 % 2 != 1
}

// There is no early end, so that all four are looked at at once.
fn four_are_vacant(image: &[u8], at: usize) -> bool
    requires { (at + 128 ≤ length image.now) × (at + 128 < 2 ^ 64) }
    ensures { result ≡ four_free (is_free image.now) at }
{
    is_vacant(image, at)
        & is_vacant(image, at + 32)
        & is_vacant(image, at + 64)
        & is_vacant(image, at + 96)
}

// Passes over vacant entries, four at a time, while more than eight are left: on pages of eight entries it would cost more than it saves.
fn pass_fours(image: &[u8], start: usize, number: usize, count: usize) -> usize
    requires { (number ≤ count) × (start + 32 * count ≤ length image.now) × (start + 32 * count < 2 ^ 64) }
    ensures { Searching (is_free image.now) start number count result }
{
    let mut k = number;
    while 8 < count - k {
        if four_are_vacant(image, start + 32 * k) {
            k += 4;
        } else {
            return k;
        }
    }
    k
}

// The number of the first occupied entry from `number` on of those that begin at `start`, or `count`, where they end. An entry costs one byte read.
fn occupied_number(image: &[u8], start: usize, number: usize, count: usize) -> usize
    requires { (number ≤ count) × (start + 32 * count ≤ length image.now) × (start + 32 * count < 2 ^ 64) }
    ensures { (result ≡ number_from (is_free image.now) start number (count - number)) × (number ≤ result) × (result ≤ count) }
{
    let passed = pass_fours(image, start, number, count);
    for k in passed..count {
        if !is_vacant(image, start + 32 * k) {
            return k;
        }
    }
    count
}

// The first occupied entry from the cursor on, which stands at an entry of its page or behind the last: that entry has this number in the directory.
pub fn next_occupied(
    image: &[u8],
    shape: Shape,
    pages: usize,
    cursor: Cursor,
    number: usize,
) -> Option<Occupied>
    requires { Roomy shape.size pages × Between shape pages image.now cursor × (number + length (row_from shape pages image.now cursor) < 2 ^ 64) }
    ensures { (met_row shape pages image.now result ≡ past (is_free image.now) (row_from shape pages image.now cursor))
        × Meets shape pages image.now (number + length (row_from shape pages image.now cursor)) result }
{
    let mut here = cursor;
    let mut passed = number;
    loop {
        let page = here.page;
        let left = here.left;
        let count = rows2::entry_count(shape, pages, page);
        let first = occupied_number(
            image,
            rows2::entries_start(shape, pages, page),
            here.number,
            count,
        );
        passed += first - here.number;
        if first < count {
            let cursor = Cursor {
                page,
                number: first,
                left,
            };
            return Some(Occupied {
                cursor,
                number: passed,
            });
        }
        here = next_page(image, shape, pages, here)?;
    }
}
