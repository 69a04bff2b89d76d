// The 32 bytes of a new entry of version 2 (paper 02 §12), filled where it stands through a lent part of the image, and the four bytes of a size.
// Each contract is one equation to `model2`'s bytes, and asks only that the bytes lie in the image and that the size fits.
#![tactic(auto)]

ghost use Rattle.std.specs.Prelude.{◌≡◌, ◌+◌, ◌<◌, ◌≤◌, length};
ghost use Rattle.volume.specs.Bytes.{put};
ghost use Rattle.model2.specs.Entry.{size_bytes, new_entry};

// A size as an entry has it: four bytes, the low one first.
pub fn size_bytes(size: usize) -> [u8; 4]
    requires { size < 4294967296 }
    ensures { result ≡ size_bytes size }
{
    let low = size % 65536;
    let high = size / 65536;
    [
        (low % 256) as u8,
        (low / 256) as u8,
        (high % 256) as u8,
        (high / 256) as u8,
    ]
}

// Fills the place of an entry whose start page is yet to come. What is not written stays 0: the start page, and the reserved byte at the end.
fn fill_entry(part: &mut [u8], flags: u8, name: &[u8], size: usize, date: &[u8])
    requires { (length part.old ≡ 32) × (length name.now ≡ 16) × (length date.now ≡ 8) × (size < 4294967296) }
    ensures { part.new ≡ new_entry flags name.now size date.now }
{
    shape_pages::zero(part);
    part[0] = flags;
    shape_pages::copy_in(part, 1, name);
    let sized = size_bytes(size);
    shape_pages::copy_in(part, 19, &sized);
    shape_pages::copy_in(part, 23, date);
}

// The entry is filled where it stands: the routine that fills is lent its 32 bytes alone.
pub fn put_entry(image: &mut [u8], at: usize, flags: u8, name: &[u8], size: usize, date: &[u8])
    requires { (at + 32 ≤ length image.old) × (length name.now ≡ 16) × (length date.now ≡ 8) × (size < 4294967296) }
    ensures { image.new ≡ put at (new_entry flags name.now size date.now) image.old }
{
    let end = at + 32;
    fill_entry(&mut image[at..end], flags, name, size, date);
}
