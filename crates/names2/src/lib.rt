// A name of a version 2 directory, whose entries stand on all the pages of its chain (paper 02 §2 and §12): legal, and not that of an earlier entry.
// No function changes anything, and the answer is what the model says of the directory's row, the cursor being at an entry of it.
#![tactic(auto)]

ghost use Rattle.std.specs.Prelude.{◌≡◌, ◌+◌, ◌*◌, ◌≤◌, length};
ghost use Rattle.volume.specs.Bytes.{byte_at};
ghost use Rattle.volume.specs.Lists.{all};
ghost use Rattle.model.specs.Judge.{fresh_name};
ghost use Rattle.model2.specs.Entry.{name_at};
ghost use Rattle.model2.specs.Version2.{view2};
ghost use Rattle.view_laws.proofs.Comes.{Inside};
ghost use Rattle.cursor2.specs.Row.{position_at};
ghost use Rattle.known2.specs.Known.{Formed};
ghost use Rattle.names2.specs.Reached.{earlier, Reached, apart, steps};

use cursor2::Cursor;
use fields::Page;
use shape::Shape;

// None of the `count` entries that begin at `start` has the name that stands in the entry at position `at`.
fn names_differ(image: &[u8], start: usize, count: usize, at: usize) -> bool
    requires { (start + 32 * count ≤ length image.now) × (at + 32 ≤ length image.now) }
    ensures { result ≡ all (apart image.now (name_at image.now at)) (steps start 0 count) }
{
    for k in 0..count {
        if names::has_name_of(image, start + 32 * k, at) {
            return false;
        }
    }
    true
}

// The name of entry `number` of the directory, at which the cursor stands and which is occupied. The entries before it are so many, from the first
// on, a page at a time: a count, and not the cursor's page, ends the search, so it does not matter whether the chain comes back to a page.
pub fn name_is_fresh(
    image: &[u8],
    shape: Shape,
    pages: usize,
    directory: Page,
    cursor: Cursor,
    number: usize,
) -> bool
    requires { Formed image.now shape pages × Inside (view2 image.now) directory.0
        × Reached image.now shape pages ((view2 image.now).entries directory.0) cursor number
        × (1 ≤ byte_at image.now (position_at shape pages cursor)) }
    ensures { result ≡ fresh_name (view2 image.now) (earlier ((view2 image.now).entries directory.0) number)
        (name_at image.now (position_at shape pages cursor)) }
{
    let at = cursor2::position_of(image, shape, pages, cursor);
    if !names::name_is_legal(image, at) {
        return false;
    }
    let mut other = Cursor {
        page: directory,
        number: 0,
        left: pages - 1,
    };
    let mut left = number;
    loop {
        let page = other.page;
        let count = rows2::entry_count(shape, pages, page);
        let start = rows2::entries_start(shape, pages, page);
        if left <= count {
            return names_differ(image, start, left, at);
        }
        if !names_differ(image, start, count, at) {
            return false;
        }
        left -= count;
        let Some(next) = occupied2::next_page(image, shape, pages, other) else {
            return true;
        };
        other = next;
    }
}
