// The calls that remove. None has a `requires`: whatever the bytes, a call answers what the model's `answer` says, and leaves the image as `after` says.
// A refused call changes no byte.
#![tactic(auto)]

ghost use Rattle.std.specs.Prelude.{◌≡◌};
ghost use Rattle.model.specs.Call.{remove_file, remove_directory};
ghost use Rattle.model.specs.Meaning.{answer, after};
ghost use Rattle.answers.specs.Answers.{change_answer};

use paths::Place;
use refusals::Refusal;

// Removes a file that is not locked. Its pages are free from then on, and keep their bytes.
#[tactic(auto, using(crate::proofs::Removes::locked_answered, crate::proofs::Removes::locked_kept, crate::proofs::Removes::removed_answered, crate::proofs::Removes::removed_gone))]
pub fn remove_file(image: &mut [u8], path: &[u8]) -> Result<(), Refusal>
    ensures result_value { change_answer result ≡ answer (remove_file path.now) image.old }
    ensures image_after { image.new ≡ after (remove_file path.now) image.old }
{
    match places::arrive(image, path)? {
        Place::Root => Err(Refusal::IsRoot),
        Place::File(target) => {
            if fields::is_locked(image, target.entry) {
                return Err(Refusal::Locked);
            }
            let pages = fields::pages_for(target.size);
            changes::remove_entry(image, target.entry, target.start, pages);
            Ok(())
        }
        Place::Directory(_) => Err(Refusal::IsADirectory),
    }
}

// Removes a directory that holds nothing. Its page is free from then on, and keeps its bytes.
pub fn remove_directory(image: &mut [u8], path: &[u8]) -> Result<(), Refusal>
    ensures result_value { change_answer result ≡ answer (remove_directory path.now) image.old }
    ensures image_after { image.new ≡ after (remove_directory path.now) image.old }
{
    match places::arrive(image, path)? {
        Place::Root => Err(Refusal::IsRoot),
        Place::File(target) => Err(Refusal::NotADirectory(target.begins)),
        Place::Directory(target) => {
            if !vacancies::holds_nothing(image, target.start) {
                return Err(Refusal::NotEmpty);
            }
            changes::remove_entry(image, target.entry, target.start, 1);
            Ok(())
        }
    }
}
