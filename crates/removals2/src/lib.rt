// The calls that remove on a cartridge of version 2 (paper 02 §12). Neither has a `requires`: whatever the bytes, a call answers what the model's `answer v2`
// says, and leaves the image as `after v2` says. A refused call changes no byte.
#![tactic(auto)]

ghost use Rattle.std.specs.Prelude.{◌≡◌};
ghost use Rattle.model.specs.Call.{remove_file, remove_directory};
ghost use Rattle.model.specs.MeaningOf.{answer, after};
ghost use Rattle.model2.specs.Calls.{v2};
ghost use Rattle.answers2.specs.Answers.{change_answer};

use paths::Place;
use refusals2::Refusal;

// Removes a file that is not locked. Its pages are free from then on, and keep their bytes and their links.
pub fn remove_file(image: &mut [u8], path: &[u8]) -> Result<(), Refusal>
    ensures result_value { change_answer result ≡ answer v2 (remove_file path.now) image.old }
    ensures image_after { image.new ≡ after v2 (remove_file path.now) image.old }
{
    let arrived = places2::arrive(image, path)?;
    let shape = arrived.cartridge.shape;
    match arrived.place {
        Place::Root => Err(Refusal::IsRoot),
        Place::File(target) => {
            if fields::is_locked(image, target.entry) {
                return Err(Refusal::Locked);
            }
            let held = fields2::pages_for(shape, target.size);
            changes2::remove_entry(image, shape, target.entry, target.start, held);
            Ok(())
        }
        Place::Directory(_) => Err(Refusal::IsADirectory),
    }
}

// Removes a directory that holds nothing, with all its pages, which are free from then on, and keep their bytes and their links.
pub fn remove_directory(image: &mut [u8], path: &[u8]) -> Result<(), Refusal>
    ensures result_value { change_answer result ≡ answer v2 (remove_directory path.now) image.old }
    ensures image_after { image.new ≡ after v2 (remove_directory path.now) image.old }
{
    let arrived = places2::arrive(image, path)?;
    let shape = arrived.cartridge.shape;
    let pages = arrived.cartridge.pages;
    match arrived.place {
        Place::Root => Err(Refusal::IsRoot),
        Place::File(target) => Err(Refusal::NotADirectory(target.begins)),
        Place::Directory(target) => {
            if !changes2::holds_nothing(image, shape, pages, target.start) {
                return Err(Refusal::NotEmpty);
            }
            let held = changes2::directory_length(image, shape, pages, target.start);
            changes2::remove_entry(image, shape, target.entry, target.start, held);
            Ok(())
        }
    }
}
