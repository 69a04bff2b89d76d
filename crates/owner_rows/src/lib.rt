// Who owns each page of an image that is known to be sound (02 §8, for §13): the visit of the second judge without its questions. All of them would be
// answered with yes, so each function asks for that yes and sets what the question would have let through.
// No function changes the image.
#![tactic(auto)]

ghost use Rattle.std.specs.Prelude.{◌≡◌, ◌+◌, ◌≤◌, ◌<◌, [], ◌∷◌, length};
ghost use Rattle.model.specs.Layout.{page_count};
ghost use Rattle.model.specs.Entry.{entries, entry_at};
ghost use Rattle.audit.specs.Owner.{owner_numbers};
ghost use Rattle.claims.specs.Claim.{goes, claim, claim_chain, claim_entry, claim_entries, directories_at};
ghost use Rattle.audit.specs.Visit.{visit, first_row, free};
ghost use Rattle.claims.specs.Lent.{Row};
ghost use Rattle.owner_rows.specs.Says.{SaysYes, directory_at, Pushed};
ghost use Rattle.owner_rows.specs.Unnamed.{Unnamed};

use fields::{Entry, Page};

// ---- pages

fn give_page(row: &mut [usize], at: usize, page: Page)
    requires { SaysYes (claim at page.0 row.old) }
    ensures { goes row.new ≡ claim at page.0 row.old }
{
    let p = page.0;
    row[p] = at;
}

// The k pages of a file.
fn give_chain(image: &[u8], row: &mut [usize], at: usize, k: usize, start: Page)
    requires { Row image.now row.old × SaysYes (claim_chain image.now at k start.0 row.old) }
    ensures { goes row.new ≡ claim_chain image.now at k start.0 row.old }
{
    let mut page = start;
    for _ in 0..k {
        give_page(row, at, page);
        page = fields::link(image, page);
    }
}

// ---- entries

// The entry at position `at` gets its pages: a directory one, a file its chain. A directory is put on the list, behind the `end` that are there.
fn give_entry(image: &[u8], row: &mut [usize], list: &mut [u8], end: usize, at: usize) -> usize
    requires { Row image.now row.old × (at + 32 ≤ length image.now) × SaysYes (claim_entry image.now at (entry_at image.now at) row.old)
        × (end + length (directory_at image.now at) ≤ length list.old) }
    ensures row_after { goes row.new ≡ claim_entry image.now at (entry_at image.now at) row.old }
    ensures pushed { Pushed (directory_at image.now at) list.old end list.new result }
{
    match fields::entry_at(image, at) {
        Entry::Vacant => end,
        Entry::File(start, size) => {
            give_chain(image, row, at, fields::pages_for(size), start);
            end
        }
        Entry::Directory(start, size) => {
            give_page(row, at, start);
            list[end] = start.0 as u8;
            end + 1
        }
    }
}

// The entries of a directory, in order.
fn give_entries(
    image: &[u8],
    row: &mut [usize],
    list: &mut [u8],
    found: usize,
    directory: Page,
) -> usize
    requires { Row image.now row.old × (directory.0 < length row.old) × SaysYes (claim_entries image.now (entries directory.0) row.old)
        × (found + length (directories_at image.now (entries directory.0)) ≤ length list.old) }
    ensures row_after { goes row.new ≡ claim_entries image.now (entries directory.0) row.old }
    ensures pushed { Pushed (directories_at image.now (entries directory.0)) list.old found list.new result }
{
    let count = fields::entry_count(directory);
    let mut end = found;
    for i in 0..count {
        end = give_entry(image, row, list, end, fields::entry_position(directory, i));
    }
    end
}

// ---- the image

// The directories are visited in the order in which they are found, as by the second judge.
fn give_directories(image: &[u8], row: &mut [usize], list: &mut [u8])
    requires { Row image.now row.old × (1 + free row.old ≤ length row.old) × (256 ≤ length list.old)
        × SaysYes (visit (page_count image.now) image.now (0 ∷ []) row.old) }
    ensures { goes row.new ≡ visit (page_count image.now) image.now (0 ∷ []) row.old }
{
    list[0] = 0;
    let mut found = 1;
    let mut done = 0;
    while done < found {
        let directory = Page(usize::from(list[done]));
        found = give_entries(image, row, list, found, directory);
        done += 1;
    }
}

// The header has page 0 from the start.
fn give_pages(image: &[u8], row: &mut [usize])
    requires { Row image.now row.old × (row.old ≡ first_row (page_count image.now)) × (8 ≤ page_count image.now)
        × SaysYes (visit (page_count image.now) image.now (0 ∷ []) row.old) }
    ensures { goes row.new ≡ visit (page_count image.now) image.now (0 ∷ []) row.old }
{
    let mut list = [0u8; 256];
    give_directories(image, row, &mut list);
}

// Puts the owners of a sound image's pages, as the second judge tells them, into a row of zeros.
pub fn name_owners(image: &[u8], row: &mut [usize])
    requires { Unnamed image.now row.old }
    ensures { row.new ≡ owner_numbers image.now }
{
    let n = fields::page_count(image.len());
    row[0] = 1;
    give_pages(image, &mut row[..n]);
}
