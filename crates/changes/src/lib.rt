// What make and remove do to the bytes of an image once they are granted: an entry is put or cleared, and its chain grows or goes.
// Nothing is judged here. What a function asks of the image holds on every sound one, and its contract is the model's effect, byte for byte.
#![tactic(auto)]

ghost use Rattle.std.specs.Prelude.{◌≡◌, ◌+◌, ◌<◌, ◌≤◌, length, set};
ghost use mathlib.Core.List.{foldl};
ghost use Rattle.volume.specs.Bytes.{put, le16};
ghost use Rattle.volume.specs.Chain.{chain};
ghost use Rattle.volume.specs.Field.{byte};
ghost use Rattle.volume.specs.Geometry as On;
ghost use Rattle.model.specs.Layout.{version1, page_count, link};
ghost use Rattle.model.specs.Entry.{new_entry};
ghost use Rattle.chains.specs.Asked.{Returned};
ghost use Rattle.changes.specs.Asked.{Making};

use fields::Page;

// ---- remove

// Gives the k pages of an entry back and clears its flags, which makes it vacant. Its other bytes stay.
pub fn remove_entry(image: &mut [u8], entry: usize, start: Page, k: usize)
    requires { Returned image.old k start.0 × (entry < length image.old) }
    ensures { image.new ≡ set (foldl (On.released version1) image.old (chain (link image.old) k start.0)) entry 0 }
{
    chains::release(image, start, k);
    image[entry] = 0;
}

// ---- the bytes of an entry

// A size as an entry has it: two bytes, the low one first.
pub fn size_bytes(size: usize) -> [u8; 2]
    requires { size < 65536 }
    ensures { result ≡ le16 size }
{
    [(size % 256) as u8, (size / 256) as u8]
}

// Fills the place of an entry whose start page is yet to come. What is not written stays 0: the start page, and the reserved bytes at the end.
fn fill_entry(part: &mut [u8], flags: u8, name: &[u8], size: usize, date: &[u8])
    requires { (length part.old ≡ 32) × (length name.now ≡ 16) × (length date.now ≡ 8) × (size < 65536) }
    ensures { part.new ≡ new_entry flags name.now 0 size date.now }
{
    pages::zero(part);
    part[0] = flags;
    pages::copy_in(part, 1, name);
    let sized = size_bytes(size);
    pages::copy_in(part, 18, &sized);
    pages::copy_in(part, 20, date);
}

pub fn new_entry(flags: u8, name: &[u8], size: usize, date: &[u8]) -> [u8; 32]
    requires { (length name.now ≡ 16) × (length date.now ≡ 8) × (size < 65536) }
    ensures { result ≡ new_entry flags name.now 0 size date.now }
{
    let mut entry = [0u8; 32];
    fill_entry(&mut entry, flags, name, size, date);
    entry
}

// The entry is filled where it stands: bytes that are written one by one and then read as a whole would have to be waited for.
fn put_entry(image: &mut [u8], at: usize, flags: u8, name: &[u8], size: usize, date: &[u8])
    requires { (at + 32 ≤ length image.old) × (length name.now ≡ 16) × (length date.now ≡ 8) × (size < 65536) }
    ensures { image.new ≡ put at (new_entry flags name.now 0 size date.now) image.old }
{
    let end = at + 32;
    fill_entry(&mut image[at..end], flags, name, size, date);
}

// ---- make

// Puts a new entry, and grows its chain from its start page on.
pub fn make_entry(
    image: &mut [u8],
    entry: usize,
    flags: u8,
    size: usize,
    pages: usize,
    name: &[u8],
    date: &[u8],
)
    requires { Making entry flags size pages name.now date.now image.old }
    ensures { image.new ≡ On.grown version1 (page_count image.old) pages (byte (entry + 17)) (put entry (new_entry flags name.now 0 size date.now) image.old) }
{
    let n = fields::page_count(image.len());
    put_entry(image, entry, flags, name, size, date);
    chains::grow(image, n, entry + 17, pages);
}
