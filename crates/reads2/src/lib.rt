// Read of version 2 (paper 02 §12). It has no `requires`: whatever the bytes, it answers what the model's `answer` says of version 2, and leaves its buffer as
// `buffer_after` says. The image is lent for reading.
#![tactic(auto)]

ghost use Rattle.std.specs.Prelude.{◌≡◌};
ghost use Rattle.model.specs.Call.{read};
ghost use Rattle.model.specs.MeaningOf.{answer, buffer_after};
ghost use Rattle.model2.specs.Calls.{v2};
ghost use Rattle.answers2.specs.Answers.{read_answer};

use fields::Position;
use paths::Place;
use refusals2::Refusal;

// Copies a file's bytes from a position on to the front of the buffer, as many as there are and as it has room for.
pub fn read(
    image: &[u8],
    path: &[u8],
    position: Position,
    buffer: &mut [u8],
) -> Result<usize, Refusal>
    ensures result_value { read_answer result ≡ answer v2 (read path.now position.0 buffer.old) image.now }
    ensures buffer_after { buffer.new ≡ buffer_after v2 (read path.now position.0 buffer.old) image.now }
{
    let arrived = places2::arrive(image, path)?;
    let Place::File(target) = arrived.place else {
        return Err(Refusal::IsADirectory);
    };
    let size = target.size;
    if size < position.0 {
        return Err(Refusal::PastEnd);
    }
    let shape = arrived.cartridge.shape;
    let count = buffer.len().min(size - position.0);
    let pages = fields2::pages_for(shape, size);
    shape_chains::read_chain(image, shape, target.start, pages, position, buffer, count);
    Ok(count)
}
