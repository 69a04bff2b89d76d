// The entry at position `at` of an image of version 2, read (paper 02 §12), and the pages of a file of a size; the header is read by `header2`.
// Flags and names stand where version 1 has them, so `fields` and `names` read those.
#![tactic(auto)]

ghost use Rattle.std.specs.Prelude.{◌≡◌, ◌+◌, ◌^◌, ◌≤◌, ◌<◌, length};
ghost use Rattle.model2.specs.Layout.{pages_for};
ghost use Rattle.model2.specs.Entry.{is_locked, name_at, start_at, size_at, date_at, entry_at};
ghost use Rattle.fields.specs.Read.{entry_of};
ghost use Rattle.fields2.specs.Read.{Small};

use fields::{Entry, Page};
use shape::{Cell, Shape};

pub fn start_of(image: &[u8], at: usize) -> Page
    requires { at + 32 ≤ length image.now }
    ensures { (result.0 ≡ start_at image.now at) × (result.0 < 65536) }
{
    Page(shape::load(image, Cell::Pair(at + 17)))
}

fn size_of(image: &[u8], at: usize) -> usize
    requires { at + 32 ≤ length image.now }
    ensures { (result ≡ size_at image.now at) × (result < 4294967296) }
{
    shape::load(image, Cell::Pair(at + 19)) + 65536 * shape::load(image, Cell::Pair(at + 21))
}

// Bit 7 of the flags says that an entry is occupied, and bit 0 alone that it is a directory. Whether it is locked `fields::is_locked` says.
pub fn entry_at(image: &[u8], at: usize) -> Entry
    requires { at + 32 ≤ length image.now }
    ensures { (entry_of result (is_locked image.now at) (name_at image.now at) (date_at image.now at) ≡ entry_at image.now at) × Small result }
{
    let flags = image[at];
    if flags / 128 % 2 != 1 {
        return Entry::Vacant;
    }
    let start = start_of(image, at);
    let size = size_of(image, at);
    if flags % 2 == 1 {
        return Entry::Directory(start, size);
    }
    Entry::File(start, size)
}

pub fn date_of(image: &[u8], at: usize) -> [u8; 8]
    requires { at + 32 ≤ length image.now }
    ensures { result ≡ date_at image.now at }
{
    let mut date = [0u8; 8];
    date.copy_from_slice(&image[at + 23..at + 31]);
    date
}

// The pages of a file of so many bytes. An empty one has a page too.
pub fn pages_for(shape: Shape, size: usize) -> usize
    requires { (1 ≤ shape.size) × (size + shape.size < 2 ^ 64) }
    ensures { result ≡ pages_for shape.size size }
{
    ((size + (shape.size - 1)) / shape.size).max(1)
}
