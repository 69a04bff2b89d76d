// Where a path leads on an image: what a call does first that takes the path of something that is there.
// The image is judged, then the path, and then it is walked; whatever the bytes, the answer is a place of the tree or the first refusal.
#![tactic(auto)]

ghost use Rattle.std.specs.Prelude.{◌≡◌, ◌*◌, ◌-◌, ◌<◌, ◌≤◌, length};
ghost use Rattle.model.specs.Layout.{page_size, page_count};
ghost use Rattle.paths.specs.Places.{spot_of};
ghost use Rattle.outcomes.specs.Answers.{answered};
ghost use Rattle.walk.specs.Steps.{name_in};
ghost use Rattle.refusals.specs.Told.{told};
ghost use Rattle.places.specs.Places.{place_named, place_walked, placed};

use fields::{Entry, Page};
use paths::{Place, Target};
use refusals::Refusal;

// The place of a path's last name, which begins at that byte, in its directory.
fn last_place(image: &[u8], directory: Page, path: &[u8], from: usize) -> Result<Place, Refusal>
    requires { (directory.0 < 256) × (page_size * page_count image.now ≡ length image.now) × (from ≤ length path.now) × (length path.now - from ≤ 16) }
    ensures { answered told spot_of result ≡ place_named image.now directory.0 (name_in path.now from (length path.now)) }
{
    let end = path.len();
    let name = names::pad(&path[from..end]);
    let entry = walk::entry_named(image, directory, &name).ok_or(Refusal::NoSuchName(from))?;
    match fields::entry_at(image, entry) {
        Entry::Vacant => Err(Refusal::NoSuchName(from)),
        Entry::File(start, size) => {
            Ok(Place::File(Target {
                entry,
                begins: from,
                start,
                size,
            }))
        }
        Entry::Directory(start, size) => {
            Ok(Place::Directory(Target {
                entry,
                begins: from,
                start,
                size,
            }))
        }
    }
}

// Where a path leads on an image of whole pages.
#[tactic(auto, using(crate::proofs::Places::parent_in, crate::proofs::Places::parent_stops, crate::proofs::Places::parent_missing, crate::proofs::Places::parent_blocked))]
fn walked(image: &[u8], path: &[u8]) -> Result<Place, Refusal>
    requires { page_size * page_count image.now ≡ length image.now }
    ensures { answered told spot_of result ≡ place_walked image.now path.now }
{
    if !names::is_path(path) {
        return Err(Refusal::NoPath);
    }
    if path.len() == 1 {
        return Ok(Place::Root);
    }
    let parent = walk::walk_parents(image, path)?;
    last_place(image, parent.directory, path, parent.begins)
}

// The image is judged first, so that what a path leads to has its pages to itself.
#[tactic(auto, using(crate::proofs::Places::judged_whole, crate::proofs::Places::placed_sound, crate::proofs::Places::placed_stopped, crate::proofs::Places::placed_refused))]
pub fn arrive(image: &[u8], path: &[u8]) -> Result<Place, Refusal>
    ensures { answered told spot_of result ≡ placed image.now path.now }
{
    judge::judge_image(image)?;
    walked(image, path)
}
