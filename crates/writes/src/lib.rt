// The call that writes. It has no `requires`: whatever the bytes, it answers what the model's `answer` says, and leaves the image as `after` says. A
// refused call changes no byte.
#![tactic(auto)]

ghost use Rattle.std.specs.Prelude.{◌≡◌, ◌+◌, ◌-◌, ◌<◌, ◌≤◌, max, length, ltb};
ghost use Rattle.model.specs.Layout.{pages_for, free_count};
ghost use Rattle.model.specs.Call.{write};
ghost use Rattle.model.specs.Meaning.{answer, after};
ghost use Rattle.answers.specs.Answers.{change_answer};

use fields::Position;
use paths::Place;
use refusals::Refusal;

// Fewer pages are free than a write wants. What no image has room for is told at once, so that no sum is made that could wrap.
fn lacks_pages(image: &[u8], size: usize, position: Position, bytes: usize) -> bool
    requires { (4 ≤ length image.now) × (position.0 ≤ size) × (size < 65536) × (free_count image.now + pages_for size ≤ 255) }
    ensures { result ≡ ltb (free_count image.now) (pages_for (max size (position.0 + bytes)) - pages_for size) }
{
    if 65025 < bytes {
        return true;
    }
    let end = position.0 + bytes;
    let held = fields::pages_for(size);
    if end <= size {
        return false;
    }
    fields::free_count(image) < fields::pages_for(end) - held
}

// Puts bytes over the content of a file that is not locked, from a position on. The file grows where they reach past its end.
#[tactic(auto, using(crate::proofs::Writings::locked_answered, crate::proofs::Writings::locked_kept, crate::proofs::Writings::nothing_answered, crate::proofs::Writings::nothing_changed))]
pub fn write(image: &mut [u8], path: &[u8], position: Position, bytes: &[u8]) -> Result<(), Refusal>
    ensures result_value { change_answer result ≡ answer (write path.now position.0 bytes.now) image.old }
    ensures image_after { image.new ≡ after (write path.now position.0 bytes.now) image.old }
{
    let Place::File(target) = places::arrive(image, path)? else {
        return Err(Refusal::IsADirectory);
    };
    if fields::is_locked(image, target.entry) { // also a write of no bytes, past the end or too long
        return Err(Refusal::Locked);
    }
    if target.size < position.0 {
        return Err(Refusal::PastEnd);
    }
    if lacks_pages(image, target.size, position, bytes.len()) {
        return Err(Refusal::NoFreePages);
    }
    // A write of no bytes is judged like any other, and then changes nothing.
    if bytes.len() == 0 {
        return Ok(());
    }
    rewrites::write_entry(
        image,
        target.entry,
        target.start,
        target.size,
        position,
        bytes,
    );
    Ok(())
}
