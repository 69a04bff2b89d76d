// The calls that lock and unlock. Neither has a `requires`: whatever the bytes, a call answers what the model's `answer` says, and leaves the image as
// `after` says. A refused call changes no byte.
#![tactic(auto)]

ghost use Rattle.std.specs.Prelude.{◌≡◌, true, false};
ghost use Rattle.model.specs.Call.{set_lock};
ghost use Rattle.model.specs.Meaning.{answer, after};
ghost use Rattle.answers.specs.Answers.{change_answer};

use paths::Place;
use refusals::Refusal;

// Sets or clears a file's lock, bit 6 of its flags (02 §10). Where it is so already no byte changes.
fn set_lock(image: &mut [u8], path: &[u8], locked: bool) -> Result<(), Refusal>
    ensures result_value { change_answer result ≡ answer (set_lock locked path.now) image.old }
    ensures image_after { image.new ≡ after (set_lock locked path.now) image.old }
{
    let Place::File(target) = places::arrive(image, path)? else {
        return Err(Refusal::IsADirectory);
    };
    entry_bytes::lock_entry(image, target.entry, locked);
    Ok(())
}

// Locks a file: it can be read, but neither written nor removed.
pub fn lock(image: &mut [u8], path: &[u8]) -> Result<(), Refusal>
    ensures result_value { change_answer result ≡ answer (set_lock true path.now) image.old }
    ensures image_after { image.new ≡ after (set_lock true path.now) image.old }
{
    set_lock(image, path, true)
}

// Unlocks a file.
pub fn unlock(image: &mut [u8], path: &[u8]) -> Result<(), Refusal>
    ensures result_value { change_answer result ≡ answer (set_lock false path.now) image.old }
    ensures image_after { image.new ≡ after (set_lock false path.now) image.old }
{
    set_lock(image, path, false)
}
