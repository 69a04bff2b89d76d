// Read. It has no `requires`: whatever the bytes, it answers what the model's `answer` says, and leaves its buffer as `buffer_after` says. The image is
// lent for reading.
#![tactic(auto)]

ghost use Rattle.std.specs.Prelude.{◌≡◌};
ghost use Rattle.model.specs.Call.{read};
ghost use Rattle.model.specs.Meaning.{answer, buffer_after};
ghost use Rattle.answers.specs.Answers.{read_answer};

use fields::Position;
use paths::Place;
use refusals::Refusal;

// Copies a file's bytes from a position on to the front of the buffer, as many as there are and as it has room for.
pub fn read(
    image: &[u8],
    path: &[u8],
    position: Position,
    buffer: &mut [u8],
) -> Result<usize, Refusal>
    ensures result_value { read_answer result ≡ answer (read path.now position.0 buffer.old) image.now }
    ensures buffer_after { buffer.new ≡ buffer_after (read path.now position.0 buffer.old) image.now }
{
    let Place::File(target) = places::arrive(image, path)? else {
        return Err(Refusal::IsADirectory);
    };
    let size = target.size;
    if size < position.0 {
        return Err(Refusal::PastEnd);
    }
    let count = buffer.len().min(size - position.0);
    let pages = fields::pages_for(size);
    chains::read_chain(image, target.start, pages, position, buffer, count);
    Ok(count)
}
