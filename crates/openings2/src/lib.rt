// Where a new file or directory of a version 2 cartridge is made (paper 02 §12): the directory that its path names it in, with its lowest vacant entry, if it has one.
// All that a make is judged by but the free pages, in the paper's order: the image, the path, the date, the walk, the name. A full directory grows, so 9 is never given.
#![tactic(auto)]

ghost use Rattle.std.specs.Prelude.{◌≡◌, true, ◌-◌, ◌≤◌, length, T};
ghost use Rattle.model.specs.MeaningOf.{sound};
ghost use Rattle.model2.specs.Version2.{view2};
ghost use Rattle.model2.specs.Calls.{v2};
ghost use Rattle.arrivals.specs.Openings.{opening_named, opening_walked, opening};
ghost use Rattle.known2.specs.Known.{Known};
ghost use Rattle.known2.specs.Housed.{Housed};
ghost use Rattle.paths.specs.Steps.{name_in};
ghost use Rattle.openings2.specs.Openings.{opening_of, Ready};

use fields::Page;
use refusals2::Refusal;
use shape2::Cartridge;

// The image's shape and number of pages, the directory, its lowest vacant entry, and the byte of the path at which the new name begins, which ends with the path.
#[derive(Clone, Copy)]
pub struct Opening {
    pub cartridge: Cartridge,
    pub directory: Page,
    pub vacancy: Option<usize>,
    pub begins: usize,
}

// In a directory, for a path's last name, which begins at that byte. No entry of any of its pages has it.
fn opening_named(
    image: &[u8],
    cartridge: Cartridge,
    directory: Page,
    path: &[u8],
    from: usize,
) -> Result<Opening, Refusal>
    requires { Known image.now cartridge.shape cartridge.pages × Housed (view2 image.now) directory.0 × (from ≤ length path.now) × (length path.now - from ≤ 16) }
    ensures { Ready image.now path.now result × (opening_of path.now result ≡ opening_named true (view2 image.now) directory.0 (name_in path.now from (length path.now))) }
{
    let shape = cartridge.shape;
    let pages = cartridge.pages;
    let end = path.len();
    let name = names::pad(&path[from..end]);
    if let Some(_) = walk2::entry_named(image, shape, pages, directory, &name) {
        return Err(Refusal::NameTaken);
    }
    let vacancy = cursor2::vacant_entry(image, shape, pages, directory);
    Ok(Opening {
        cartridge,
        directory,
        vacancy,
        begins: from,
    })
}

// On a sound image.
#[tactic(auto, using(crate::proofs::Openings::unready, crate::proofs::Openings::parent_in, crate::proofs::Openings::parent_stops, crate::proofs::Openings::parent_missing, crate::proofs::Openings::parent_blocked))]
fn opening_walked(
    image: &[u8],
    cartridge: Cartridge,
    path: &[u8],
    date: &[u8],
) -> Result<Opening, Refusal>
    requires { Known image.now cartridge.shape cartridge.pages × T (sound v2 image.now) }
    ensures { Ready image.now path.now result × (opening_of path.now result ≡ opening_walked v2 image.now path.now date.now) }
{
    if !names::is_path(path) {
        return Err(Refusal::NoPath);
    }
    if !dates::good_date(date) {
        return Err(Refusal::BadDate);
    }
    // The root is there already.
    if path.len() == 1 {
        return Err(Refusal::NameTaken);
    }
    let shape = cartridge.shape;
    let parent = walk2::walk_parents(image, shape, cartridge.pages, path)?;
    opening_named(image, cartridge, parent.directory, path, parent.begins)
}

// The image is judged first, so that what is made in the opening has its pages to itself.
#[tactic(auto, using(crate::proofs::Openings::unready, places2::proofs::Judged::judged_known, places2::proofs::Judged::judged_sound, crate::proofs::Openings::opening_sound, crate::proofs::Openings::opening_refused, crate::proofs::Openings::opening_faulty))]
pub fn find_opening(image: &[u8], path: &[u8], date: &[u8]) -> Result<Opening, Refusal>
    ensures { Ready image.now path.now result × (opening_of path.now result ≡ opening v2 image.now path.now date.now) }
{
    let judged = judge2::judge_image(image)?;
    opening_walked(image, judged.cartridge, path, date)
}
