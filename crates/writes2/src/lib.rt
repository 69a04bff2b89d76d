// The call that writes, on a cartridge of version 2 (paper 02 §12). It has no `requires`: whatever the bytes, it answers what the model's `answer v2` says,
// and leaves the image as `after v2` says. A refused call changes no byte.
#![tactic(auto)]

ghost use Rattle.std.specs.Prelude.{◌≡◌, ◌+◌, ◌-◌, ◌<◌, ◌≤◌, max, length, ltb};
ghost use Rattle.volume.specs.Geometry as On;
ghost use Rattle.model.specs.Call.{write};
ghost use Rattle.model.specs.MeaningOf.{answer, after};
ghost use Rattle.model2.specs.Layout.{pages_for};
ghost use Rattle.model2.specs.Calls.{v2};
ghost use Rattle.shape.specs.Geometry.{geometry_of};
ghost use Rattle.answers2.specs.Answers.{change_answer};
ghost use Rattle.writes2.specs.Asked.{Counted};

use fields::Position;
use paths::Place;
use refusals2::Refusal;
use shape::Shape;

// Fewer pages are free than a write wants. What no image has room for is told at once, so that no sum is made that could wrap.
fn lacks_pages(image: &[u8], shape: Shape, size: usize, position: Position, bytes: usize) -> bool
    requires { Counted shape size position.0 image.now }
    ensures { result ≡ ltb (On.free_count (geometry_of shape) image.now) (pages_for shape.size (max size (position.0 + bytes)) - pages_for shape.size size) }
{
    if 1048576 < bytes {
        return true;
    }
    let end = position.0 + bytes;
    if end <= size {
        return false;
    }
    let held = fields2::pages_for(shape, size);
    let count = shape.count;
    shape::load(image, count) < fields2::pages_for(shape, end) - held
}

// Puts bytes over the content of a file that is not locked, from a position on. The file grows where they reach past its end.
#[tactic(auto, using(crate::proofs::Writings::nothing_answered, crate::proofs::Writings::nothing_changed))]
pub fn write(image: &mut [u8], path: &[u8], position: Position, bytes: &[u8]) -> Result<(), Refusal>
    ensures result_value { change_answer result ≡ answer v2 (write path.now position.0 bytes.now) image.old }
    ensures image_after { image.new ≡ after v2 (write path.now position.0 bytes.now) image.old }
{
    let arrived = places2::arrive(image, path)?;
    let Place::File(target) = arrived.place else {
        return Err(Refusal::IsADirectory);
    };
    if fields::is_locked(image, target.entry) { // also a write of no bytes, past the end or too long
        return Err(Refusal::Locked);
    }
    if target.size < position.0 {
        return Err(Refusal::PastEnd);
    }
    let shape = arrived.cartridge.shape;
    if lacks_pages(image, shape, target.size, position, bytes.len()) {
        return Err(Refusal::NoFreePages);
    }
    // A write of no bytes is judged like any other, and then changes nothing.
    if bytes.len() == 0 {
        return Ok(());
    }
    changes2::write_entry(
        image,
        shape,
        arrived.cartridge.pages,
        target.entry,
        target.start,
        target.size,
        position,
        bytes,
    );
    Ok(())
}
