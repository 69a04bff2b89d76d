// What stands in an image as numbers and as values: the header's fields, the links of pages, and the entries of directories.
// Every function answers what the model reads there and changes no byte; it asks only that what it reads lies in the image, or that a position fits.
#![tactic(auto)]

ghost use Rattle.std.specs.Prelude.{◌≡◌, ◌+◌, ◌*◌, ◌/◌, ◌^◌, ◌≤◌, ◌<◌, length};
ghost use Rattle.model.specs.Layout.{page_size, pages_for, valid_length, valid_header, free_count, link};
ghost use Rattle.model.specs.Entry.{is_locked, entry_count, entries_start, name_at, start_at, date_at, entry_at};
ghost use Rattle.fields.specs.Read.{entry_of, Small};

// The number of a page. It becomes a position in `first_byte`.
#[derive(Clone, Copy)]
pub struct Page(pub usize);

// A byte of a file's content, counted from 0. It is no position of the image: the chain says on which page it lies.
#[derive(Clone, Copy)]
pub struct Position(pub usize);

// An entry of a directory: its start page and its size. Name and date are arrays, and stand beside it.
#[derive(Clone, Copy)]
pub enum Entry {
    Vacant,
    File(Page, usize),
    Directory(Page, usize),
}

// The position of a page's first byte.
pub fn first_byte(p: Page) -> usize
    requires { page_size * p.0 < 2 ^ 64 }
    ensures { result ≡ page_size * p.0 }
{
    256 * p.0
}

// ---- the header page

// The pages of an image of so many bytes.
pub fn page_count(bytes: usize) -> usize
    ensures { result ≡ bytes / page_size }
{
    bytes / 256
}

// A file without bytes has a page too. A write may ask for any size, so no sum is made that could wrap.
pub fn pages_for(size: usize) -> usize
    ensures { result ≡ pages_for size }
{
    size.div_ceil(255).max(1)
}

pub fn length_is_allowed(bytes: usize) -> bool
    ensures { result ≡ valid_length bytes }
{
    if bytes % 2048 != 0 {
        return false;
    }
    if bytes < 2048 {
        return false;
    }
    bytes <= 65536
}

// Of an image shorter than three bytes the model would read zeros.
pub fn header_is_right(image: &[u8]) -> bool
    requires { 3 ≤ length image.now }
    ensures { result ≡ valid_header image.now }
{
    if image[0] != 0x5A {
        return false;
    }
    if image[1] != 1 {
        return false;
    }
    usize::from(image[2]) == page_count(image.len()) / 8
}

pub fn free_count(image: &[u8]) -> usize
    requires { 4 ≤ length image.now }
    ensures { (result ≡ free_count image.now) × (result < 256) }
{
    usize::from(image[3])
}

// ---- pages

// The page that follows p; 0 for none.
pub fn link(image: &[u8], p: Page) -> Page
    requires { page_size * p.0 < length image.now }
    ensures { (result.0 ≡ link image.now p.0) × (result.0 < 256) }
{
    Page(usize::from(image[first_byte(p)]))
}

// ---- directories

pub fn entry_count(directory: Page) -> usize
    ensures { result ≡ entry_count directory.0 }
{
    if directory.0 == 0 { 6 } else { 8 }
}

// The root's entries begin behind the header's fields. An entry ends within its directory's page, so whoever has the page has the entry.
pub fn entry_position(directory: Page, i: usize) -> usize
    requires { (i < entry_count directory.0) × (page_size * directory.0 + 256 < 2 ^ 64) }
    ensures { (result ≡ entries_start directory.0 + 32 * i) × (result + 32 ≤ page_size * directory.0 + 256) }
{
    if directory.0 == 0 {
        64 + 32 * i
    } else {
        first_byte(directory) + 32 * i
    }
}

// ---- the entry at position `at`

// Bit 7 of the flags says that an entry is occupied, and bit 0 alone that it is a directory.
pub fn entry_at(image: &[u8], at: usize) -> Entry
    requires { at + 32 ≤ length image.now }
    ensures { (entry_of result (is_locked image.now at) (name_at image.now at) (date_at image.now at) ≡ entry_at image.now at) × Small result }
{
    let flags = image[at];
    if flags / 128 % 2 != 1 {
        return Entry::Vacant;
    }
    let start = Page(usize::from(image[at + 17]));
    let size = usize::from(image[at + 18]) + 256 * usize::from(image[at + 19]);
    if flags % 2 == 1 {
        Entry::Directory(start, size)
    } else {
        Entry::File(start, size)
    }
}

// The start page, which a growing file gets in the midst of a write.
pub fn start_of(image: &[u8], at: usize) -> Page
    requires { at + 32 ≤ length image.now }
    ensures { (result.0 ≡ start_at image.now at) × (result.0 < 256) }
{
    Page(usize::from(image[at + 17]))
}

// A file is locked by bit 6 of its flags (02 §10).
pub fn is_locked(image: &[u8], at: usize) -> bool
    requires { at + 32 ≤ length image.now }
    ensures { result ≡ is_locked image.now at }
{
    image[at] / 64 % 2 == 1
}

pub fn name_of(image: &[u8], at: usize) -> [u8; 16]
    requires { at + 32 ≤ length image.now }
    ensures { result ≡ name_at image.now at }
{
    let mut name = [0u8; 16];
    name.copy_from_slice(&image[at + 1..at + 17]);
    name
}

pub fn date_of(image: &[u8], at: usize) -> [u8; 8]
    requires { at + 32 ≤ length image.now }
    ensures { result ≡ date_at image.now at }
{
    let mut date = [0u8; 8];
    date.copy_from_slice(&image[at + 20..at + 28]);
    date
}
