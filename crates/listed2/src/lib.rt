// List of version 2 (paper 02 §12): what entry i of a directory holds. It has no `requires`: whatever the bytes, it answers what the model's `answer` says of
// version 2. The image is lent for reading.
#![tactic(auto)]

ghost use Rattle.std.specs.Prelude.{◌≡◌, ◌+◌, ◌≤◌, length};
ghost use Rattle.model.specs.Call.{list};
ghost use Rattle.model.specs.MeaningOf.{answer};
ghost use Rattle.model2.specs.Entry.{entry_at};
ghost use Rattle.model2.specs.Version2.{view2};
ghost use Rattle.model2.specs.Calls.{v2};
ghost use Rattle.arrivals.specs.Listed.{entry_told, entry_listed};
ghost use Rattle.known2.specs.Known.{Known};
ghost use Rattle.known2.specs.Housed.{Housed};
ghost use Rattle.outcomes.specs.Answers.{listed_of};
ghost use Rattle.answers2.specs.Answers.{list_answer};

use fields::{Entry, Page};
use outcomes::{Kind, Listed};
use paths::Place;
use refusals2::Refusal;
use shape2::Cartridge;

// What the entry at a position holds, with pages of a size, which is a directory's; none where it is empty.
pub fn entry_told(image: &[u8], size: usize, at: usize) -> Option<Listed>
    requires { at + 32 ≤ length image.now }
    ensures { listed_of result ≡ entry_told size (entry_at image.now at) }
{
    match fields2::entry_at(image, at) {
        Entry::Vacant => None,
        Entry::File(_, long) => {
            let locked = fields::is_locked(image, at);
            let name = fields::name_of(image, at);
            let date = fields2::date_of(image, at);
            Some(Listed {
                kind: Kind::File { locked },
                name,
                size: long,
                date,
            })
        }
        Entry::Directory(_, _) => {
            let name = fields::name_of(image, at);
            let date = fields2::date_of(image, at);
            Some(Listed {
                kind: Kind::Directory,
                name,
                size,
                date,
            })
        }
    }
}

// What entry i of a directory holds, or 12 past its last entry.
fn list_entry(
    image: &[u8],
    cartridge: Cartridge,
    directory: Page,
    i: usize,
) -> Result<Option<Listed>, Refusal>
    requires { Known image.now cartridge.shape cartridge.pages × Housed (view2 image.now) directory.0 }
    ensures { list_answer result ≡ entry_listed v2 image.now directory.0 i }
{
    let shape = cartridge.shape;
    let pages = cartridge.pages;
    let Some(cursor) = numbered2::entry_numbered(image, shape, pages, directory, i) else {
        return Err(Refusal::PastEnd);
    };
    let at = cursor2::position_of(image, shape, pages, cursor);
    Ok(entry_told(image, shape.size, at))
}

// What entry i of the directory holds that a path leads to.
pub fn list(image: &[u8], path: &[u8], i: usize) -> Result<Option<Listed>, Refusal>
    ensures { list_answer result ≡ answer v2 (list path.now i) image.now }
{
    let arrived = places2::arrive(image, path)?;
    let cartridge = arrived.cartridge;
    match arrived.place {
        Place::Root => list_entry(image, cartridge, Page(0), i),
        Place::File(target) => Err(Refusal::NotADirectory(target.begins)),
        Place::Directory(target) => list_entry(image, cartridge, target.start, i),
    }
}
