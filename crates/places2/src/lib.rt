// Where a path leads on an image of version 2 (paper 02 §12): what a call does first that takes the path of something that is there.
// The image is judged, then the path, and then it is walked; whatever the bytes, the answer is a place of the tree, with the image's shape, or the first refusal.
#![tactic(auto)]

ghost use Rattle.std.specs.Prelude.{◌≡◌, ◌-◌, ◌≤◌, length};
ghost use Rattle.model2.specs.Version2.{view2};
ghost use Rattle.model2.specs.Calls.{v2};
ghost use Rattle.arrivals.specs.Places.{place_named, place_walked, placed};
ghost use Rattle.known2.specs.Known.{Known};
ghost use Rattle.known2.specs.Housed.{Housed};
ghost use Rattle.paths.specs.Steps.{name_in};
ghost use Rattle.places2.specs.Places.{arrival_of, KnownAt};

use fields::{Entry, Page};
use paths::{Place, Target};
use refusals2::Refusal;
use shape2::Cartridge;

// A call that arrives goes on with the image's shape and its number of pages, which the judge has read.
#[derive(Clone, Copy)]
pub struct Arrived {
    pub cartridge: Cartridge,
    pub place: Place,
}

// The place of a path's last name, which begins at that byte, in its directory.
fn last_place(
    image: &[u8],
    cartridge: Cartridge,
    directory: Page,
    path: &[u8],
    from: usize,
) -> Result<Arrived, Refusal>
    requires { Known image.now cartridge.shape cartridge.pages × Housed (view2 image.now) directory.0 × (from ≤ length path.now) × (length path.now - from ≤ 16) }
    ensures { KnownAt image.now result × (arrival_of result ≡ place_named (view2 image.now) directory.0 (name_in path.now from (length path.now))) }
{
    let shape = cartridge.shape;
    let pages = cartridge.pages;
    let end = path.len();
    let name = names::pad(&path[from..end]);
    let Some(entry) = walk2::entry_named(image, shape, pages, directory, &name) else {
        return Err(Refusal::NoSuchName(from));
    };
    match fields2::entry_at(image, entry) {
        Entry::Vacant => Err(Refusal::NoSuchName(from)),
        Entry::File(start, size) => {
            let place = Place::File(Target {
                entry,
                begins: from,
                start,
                size,
            });
            Ok(Arrived { cartridge, place })
        }
        Entry::Directory(start, size) => {
            let place = Place::Directory(Target {
                entry,
                begins: from,
                start,
                size,
            });
            Ok(Arrived { cartridge, place })
        }
    }
}

// Where a path leads on an image that is known.
#[tactic(auto, using(crate::proofs::Places::unknown, crate::proofs::Places::parent_in, crate::proofs::Places::parent_stops, crate::proofs::Places::parent_missing, crate::proofs::Places::parent_blocked))]
fn walked(image: &[u8], cartridge: Cartridge, path: &[u8]) -> Result<Arrived, Refusal>
    requires { Known image.now cartridge.shape cartridge.pages }
    ensures { KnownAt image.now result × (arrival_of result ≡ place_walked (view2 image.now) path.now) }
{
    if !names::is_path(path) {
        return Err(Refusal::NoPath);
    }
    if path.len() == 1 {
        let place = Place::Root;
        return Ok(Arrived { cartridge, place });
    }
    let shape = cartridge.shape;
    let parent = walk2::walk_parents(image, shape, cartridge.pages, path)?;
    last_place(image, cartridge, parent.directory, path, parent.begins)
}

// The image is judged first, so that what a path leads to has its pages to itself.
#[tactic(auto, using(crate::proofs::Places::unknown, crate::proofs::Judged::judged_known, crate::proofs::Judged::placed_sound, crate::proofs::Judged::placed_refused, crate::proofs::Judged::placed_stopped))]
pub fn arrive(image: &[u8], path: &[u8]) -> Result<Arrived, Refusal>
    ensures { KnownAt image.now result × (arrival_of result ≡ placed v2 image.now path.now) }
{
    let judged = judge2::judge_image(image)?;
    walked(image, judged.cartridge, path)
}
