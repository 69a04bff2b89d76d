// Where a new file or directory is made: the lowest vacant entry of the directory that its path names it in, or why there is none.
// All that a make is judged by but the free pages, in the paper's order: the image, the path, the date, the walk, the name, the entry.
#![tactic(auto)]

ghost use Rattle.std.specs.Prelude.{◌≡◌, ◌*◌, ◌-◌, ◌<◌, ◌≤◌, length, T};
ghost use Rattle.model.specs.Layout.{page_size, page_count};
ghost use Rattle.model.specs.Sound.{sound};
ghost use Rattle.walk.specs.Steps.{name_in};
ghost use Rattle.outcomes.specs.Answers.{answered};
ghost use Rattle.refusals.specs.Told.{told};
ghost use Rattle.openings.specs.Openings.{opened, Named, opening_named, opening_walked, opening};

use fields::Page;
use refusals::Refusal;

// The position of the vacant entry, and the byte of the path at which the new name begins, which ends with the path.
#[derive(Clone, Copy)]
pub struct Opening {
    pub entry: usize,
    pub begins: usize,
}

// In the directory on a page, for a path's last name, which begins at that byte. No entry has it, and one is vacant.
fn opening_named(
    image: &[u8],
    directory: Page,
    path: &[u8],
    from: usize,
) -> Result<Opening, Refusal>
    requires { (directory.0 < page_count image.now) × (page_count image.now ≤ 256) × (page_size * page_count image.now ≡ length image.now) × (from ≤ length path.now) × (length path.now - from ≤ 16) }
    ensures { Named path.now result × (answered told (opened path.now) result ≡ opening_named image.now directory.0 (name_in path.now from (length path.now))) }
{
    let end = path.len();
    let name = names::pad(&path[from..end]);
    if walk::entry_named(image, directory, &name).is_some() {
        return Err(Refusal::NameTaken);
    }
    let entry = vacancies::vacant_entry(image, directory).ok_or(Refusal::DirectoryFull)?;
    Ok(Opening {
        entry,
        begins: from,
    })
}

// On a sound image.
#[tactic(auto, using(crate::proofs::Openings::page_inside, crate::proofs::Openings::few, crate::proofs::Openings::whole, crate::proofs::Openings::parent_in, crate::proofs::Openings::parent_stops, crate::proofs::Openings::parent_missing, crate::proofs::Openings::parent_blocked, crate::proofs::Openings::unnamed))]
fn opening_walked(image: &[u8], path: &[u8], date: &[u8]) -> Result<Opening, Refusal>
    requires { T (sound image.now) }
    ensures { Named path.now result × (answered told (opened path.now) result ≡ opening_walked image.now path.now date.now) }
{
    if !names::is_path(path) {
        return Err(Refusal::NoPath);
    }
    if !dates::good_date(date) {
        return Err(Refusal::BadDate);
    }
    // The root is there already.
    if path.len() == 1 {
        return Err(Refusal::NameTaken);
    }
    let parent = walk::walk_parents(image, path)?;
    opening_named(image, parent.directory, path, parent.begins)
}

#[tactic(auto, using(places::proofs::Places::judged_sound, crate::proofs::Openings::opening_sound, crate::proofs::Openings::opening_stopped, crate::proofs::Openings::unnamed))]
pub fn find_opening(image: &[u8], path: &[u8], date: &[u8]) -> Result<Opening, Refusal>
    ensures { Named path.now result × (answered told (opened path.now) result ≡ opening image.now path.now date.now) }
{
    judge::judge_image(image)?;
    opening_walked(image, path, date)
}
