// One entry of a directory of version 2 as a row of 32 bytes, which hold what `list` tells of it (paper 02 §12). The image is lent for reading, and the row is a
// part of the bytes that a call was lent.
#![tactic(auto)]

ghost use Rattle.std.specs.Prelude.{◌≡◌, ◌+◌, ◌≤◌, ◌<◌, length};
ghost use Rattle.model2.specs.Entry.{entry_at};
ghost use Rattle.arrivals.specs.Listed.{entry_told};
ghost use Rattle.entry_rows2.specs.Row.{row_bytes, entry_bytes};

use fields::Entry;

// What is not written stays 0.
fn fill_row(part: &mut [u8], kind: u8, locked: u8, size: usize, date: &[u8], name: &[u8])
    requires { (length part.old ≡ 32) × (length date.now ≡ 8) × (length name.now ≡ 16) × (size < 4294967296) }
    ensures { part.new ≡ row_bytes kind locked size date.now name.now }
{
    shape_pages::zero(part);
    part[0] = 1;
    part[1] = kind;
    part[2] = locked;
    let sized = entries2::size_bytes(size);
    shape_pages::copy_in(part, 4, &sized);
    shape_pages::copy_in(part, 8, date);
    shape_pages::copy_in(part, 16, name);
}

// The entry at a position of the image, with pages of a size, which is a directory's.
pub fn put_row(part: &mut [u8], image: &[u8], at: usize, size: usize)
    requires { (length part.old ≡ 32) × (at + 32 ≤ length image.now) × (size < 4294967296) }
    ensures { part.new ≡ entry_bytes (entry_told size (entry_at image.now at)) }
{
    match fields2::entry_at(image, at) {
        Entry::Vacant => shape_pages::zero(part),
        Entry::File(_, long) => {
            let locked = u8::from(fields::is_locked(image, at));
            let date = fields2::date_of(image, at);
            let name = fields::name_of(image, at);
            fill_row(part, 0, locked, long, &date, &name);
        }
        Entry::Directory(_, _) => {
            let date = fields2::date_of(image, at);
            let name = fields::name_of(image, at);
            fill_row(part, 1, 0, size, &date, &name);
        }
    }
}
