// What both versions do alike to the bytes of an entry: bytes put at its place, and the mark of a locked file.
// Each function changes the bytes that it names and no other, and asks only that they lie in the image.
#![tactic(auto)]

ghost use Rattle.std.specs.Prelude.{◌≡◌, ◌+◌, ◌<◌, ◌≤◌, length, set};
ghost use Rattle.volume.specs.Bytes.{byte_at, put};
ghost use Rattle.model.specs.Effect.{with_lock};

// Puts bytes into the image. The routine that copies is lent their place alone, and cannot reach past it.
pub fn put(image: &mut [u8], at: usize, source: &[u8])
    requires { at + length source.now ≤ length image.old }
    ensures { image.new ≡ put at source.now image.old }
{
    let end = at + source.len();
    shape_pages::copy_in(&mut image[at..end], 0, source);
}

// A file's flags with the mark set or cleared; the other bits stay (02 §10).
fn with_lock(flags: u8, locked: bool) -> u8
    ensures { result ≡ with_lock locked flags }
{
    let unlocked = flags - 64 * (flags / 64 % 2);
    if locked { unlocked + 64 } else { unlocked }
}

// Sets or clears the mark of an entry. No other byte changes.
pub fn lock_entry(image: &mut [u8], entry: usize, locked: bool)
    requires { entry < length image.old }
    ensures { image.new ≡ set image.old entry (with_lock locked (byte_at image.old entry)) }
{
    image[entry] = with_lock(image[entry], locked);
}
