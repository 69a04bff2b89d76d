// One page of a tidied image (02 §13), lent as its own stretch and written once: its link or the start pages of its entries follow the proposal.
// No function can change the image, which is lent to be read alone.
#![tactic(auto)]

ghost use Rattle.std.specs.Prelude.{◌≡◌, ◌+◌, ◌*◌, ◌<◌, ◌≤◌, length, take};
ghost use mathlib.Core.List.{◌++◌, flat_map};
ghost use Rattle.volume.specs.Bytes.{part, put};
ghost use Rattle.model.specs.Layout.{page_size, page_count};
ghost use Rattle.model.specs.Entry.{entries};
ghost use Rattle.moves.specs.Tidy.{moved_entry, moved_page};
ghost use Rattle.proposals.specs.Steps.{Judged, field_bytes};

use fields::{Entry, Page};

// Copies a page as it is.
pub fn copy_page(image: &[u8], page: Page, stretch: &mut [u8])
    requires { (page.0 < page_count image.now) × (length stretch.old ≡ page_size) }
    ensures { stretch.new ≡ part (page_size * page.0) page_size image.now }
{
    let first = fields::first_byte(page);
    let end = first + 256;
    pages::copy_in(stretch, 0, &image[first..end]);
}

// The 32 bytes of an entry go through an array of our own, which overlaps with nothing, and so are moved at once (as the pages of `shape_pages`).
fn held_entry(source: &[u8]) -> [u8; 32]
    requires { length source.now ≡ 32 }
    ensures { result ≡ source.now }
{
    let mut entry = [0u8; 32];
    entry.copy_from_slice(source);
    entry
}

fn put_entry(stretch: &mut [u8], offset: usize, entry: &[u8])
    requires { (offset + length entry.now ≤ length stretch.old) × (length entry.now ≡ 32) }
    ensures { stretch.new ≡ put offset entry.now stretch.old }
{
    for k in 0..32 {
        stretch[offset + k] = entry[k];
    }
}

fn copy_entry(stretch: &mut [u8], offset: usize, source: &[u8])
    requires { (offset + length source.now ≤ length stretch.old) × (length source.now ≡ 32) }
    ensures { stretch.new ≡ put offset source.now stretch.old }
{
    let entry = held_entry(source);
    put_entry(stretch, offset, &entry);
}

// Copies the entry at position `at`. The start page of an occupied one follows; a vacant one may hold anything there.
#[tactic(auto, using(crate::proofs::Laid::occupied_moved, crate::proofs::Laid::vacant_kept))]
fn move_entry(image: &[u8], at: usize, places: &[u8], stretch: &mut [u8], offset: usize)
    requires { (at + 32 ≤ length image.now) × (offset + 32 ≤ length stretch.old) }
    ensures { stretch.new ≡ put offset (moved_entry places.now image.now at) stretch.old }
{
    let end = at + 32;
    copy_entry(stretch, offset, &image[at..end]);
    if image[at] / 128 % 2 == 1 {
        stretch[offset + 17] = proposals::new_place(places, image[at + 17]);
    }
}

// Copies the entries of a directory to where they stand on its page. What the part holds before them stays.
pub fn move_entries(image: &[u8], places: &[u8], directory: Page, stretch: &mut [u8])
    requires { (directory.0 < page_count image.now) × (length stretch.old ≡ page_size) × (page_count image.now ≤ 256) }
    ensures { stretch.new ≡ take (field_bytes directory.0) stretch.old ++ flat_map (moved_entry places.now image.now) (entries directory.0) }
{
    let count = fields::entry_count(directory);
    let first = fields::first_byte(directory);
    for i in 0..count {
        let at = fields::entry_position(directory, i);
        move_entry(image, at, places, stretch, at - first);
    }
}

// Any page but the header: of a file its link follows, of a directory the start pages of its entries, and a free page is copied.
pub fn move_page(image: &[u8], owners: &[usize], places: &[u8], page: Page, stretch: &mut [u8])
    requires { Judged image.now owners.now × (1 ≤ page.0) × (page.0 < page_count image.now) × (length stretch.old ≡ page_size) }
    ensures { stretch.new ≡ moved_page places.now image.now page.0 }
{
    match proposals::owner_entry(image, owners, page) {
        Entry::Vacant => copy_page(image, page, stretch),
        Entry::File(start, size) => {
            copy_page(image, page, stretch);
            stretch[0] = proposals::new_place(places, stretch[0]);
        }
        Entry::Directory(start, size) => move_entries(image, places, page, stretch),
    }
}
