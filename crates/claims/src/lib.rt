// What the entries of a directory claim in the row of owners of the second judge (02 §8), whether no two of them have one name, and which of them are
// directories. No function changes the image.
#![tactic(auto)]

ghost use Rattle.std.specs.Prelude.{◌≡◌, ◌+◌, ◌≤◌, ◌<◌, ◌++◌, length, take, ◌&&◌, eqb};
ghost use Rattle.std.specs.Prelude.{if◌then◌else◌};
ghost use Rattle.model.specs.Layout.{page_count};
ghost use Rattle.model.specs.Name.{legal_byte, legal_name};
ghost use Rattle.model.specs.Entry.{entry_count, entries, name_at, entry_at};
ghost use Rattle.model.specs.Sound.{same_name};
ghost use Rattle.claims.specs.Claim.{claim, claim_chain, claim_entry, directories_at};
ghost use Rattle.claims.specs.Lent.{outcome, Row, position, rest, apart, entered};

use fields::{Entry, Page};

// ---- pages

// Page p gets an owner, the entry at position `at`, if it lies in the image and has none. The header has page 0 from the start.
fn claim_page(row: &mut [usize], at: usize, page: Page) -> bool
    ensures { outcome result row.new ≡ claim at page.0 row.old }
{
    let p = page.0;
    if p >= row.len() {
        return false;
    }
    if row[p] != 0 {
        return false;
    }
    row[p] = at;
    true
}

// The k pages of a file. A chain that returns to itself meets a page that has its owner.
fn claim_chain(image: &[u8], row: &mut [usize], at: usize, k: usize, start: Page) -> bool
    requires { Row image.now row.old }
    ensures { outcome result row.new ≡ claim_chain image.now at k start.0 row.old }
{
    let mut page = start;
    for _ in 0..k {
        if !claim_page(row, at, page) {
            return false;
        }
        page = fields::link(image, page);
    }
    page.0 == 0
}

// ---- names

// A byte before the rest of a name, of which two things are known: that it is only zeros, and that it is the rest of a legal name.
fn is_legal_before(c: u8, zeros: bool, legal: bool) -> bool
    ensures { result ≡ (if eqb c 0 then zeros else (legal_byte c && legal)) }
{
    if c == 0 {
        return zeros;
    }
    names::legal_byte(c) & legal
}

// The name of the entry at position `at` is legal. It is read from its last byte to its first, and to its end: the first judge goes the other way.
fn name_is_legal(image: &[u8], at: usize) -> bool
    requires { at + 32 ≤ length image.now }
    ensures { result ≡ legal_name (name_at image.now at) }
{
    let mut zeros = true;
    let mut legal = true;
    for k in (2..17).rev() {
        let c = image[at + k];
        legal = is_legal_before(c, zeros, legal);
        zeros = (0 == c) & zeros;
    }
    names::legal_byte(image[at + 1]) & legal
}

// The entries are occupied and have the same name.
fn have_one_name(image: &[u8], at: usize, other: usize) -> bool
    requires { (at + 32 ≤ length image.now) × (other + 32 ≤ length image.now) }
    ensures { result ≡ same_name (entry_at image.now at) (entry_at image.now other) }
{
    let one = fields::entry_at(image, at);
    if let Entry::Vacant = one {
        return false;
    }
    names::has_name_of(image, other, at)
}

// No later entry of the directory has the name of entry i.
fn name_is_last(image: &[u8], directory: Page, i: usize) -> bool
    requires { (directory.0 < page_count image.now) × (i < entry_count directory.0) }
    ensures { result ≡ apart image.now (entry_at image.now (position directory.0 i)) (rest directory.0 (i + 1)) }
{
    let count = fields::entry_count(directory);
    let at = fields::entry_position(directory, i);
    for j in i + 1..count {
        if have_one_name(image, at, fields::entry_position(directory, j)) {
            return false;
        }
    }
    true
}

// ---- entries

// The entry at position `at` claims its pages: a directory one, a file its chain.
fn claim_entry(image: &[u8], row: &mut [usize], at: usize) -> bool
    requires { Row image.now row.old × (at + 32 ≤ length image.now) }
    ensures { outcome result row.new ≡ claim_entry image.now at (entry_at image.now at) row.old }
{
    match fields::entry_at(image, at) {
        Entry::Vacant => true,
        Entry::File(start, size) => {
            if !name_is_legal(image, at) {
                return false;
            }
            claim_chain(image, row, at, fields::pages_for(size), start)
        }
        Entry::Directory(start, size) => {
            if !name_is_legal(image, at) {
                return false;
            }
            if size != 0x0100 {
                return false;
            }
            claim_page(row, at, start)
        }
    }
}

// No two entries of the directory have one name, and they claim their pages, in order: one pass for both, since a vacant entry has neither.
pub fn claim_entries(image: &[u8], row: &mut [usize], directory: Page) -> bool
    requires { Row image.now row.old × (directory.0 < length row.old) }
    ensures { outcome result row.new ≡ entered image.now (entries directory.0) row.old }
{
    let count = fields::entry_count(directory);
    for i in 0..count {
        if !name_is_last(image, directory, i) {
            return false;
        }
        if !claim_entry(image, row, fields::entry_position(directory, i)) {
            return false;
        }
    }
    true
}

// ---- the directories among them

// The directories among a directory's entries are put behind those that were found before.
pub fn push_directories(image: &[u8], list: &mut [usize], found: usize, directory: Page) -> usize
    requires { (directory.0 < page_count image.now) × (found + length (directories_at image.now (entries directory.0)) ≤ length list.old) }
    ensures { (result ≡ found + length (directories_at image.now (entries directory.0)))
        × (take result list.new ≡ take found list.old ++ directories_at image.now (entries directory.0)) }
{
    let count = fields::entry_count(directory);
    let mut end = found;
    for i in 0..count {
        let entry = fields::entry_at(image, fields::entry_position(directory, i));
        if let Entry::Directory(start, size) = entry {
            list[end] = start.0;
            end += 1;
        }
    }
    end
}
