// List: what entry i of a directory holds. It has no `requires`: whatever the bytes, it answers what the model's `answer` says. The image is lent for
// reading.
#![tactic(auto)]

ghost use Rattle.std.specs.Prelude.{◌≡◌, ◌+◌, ◌*◌, ◌<◌, ◌≤◌, length};
ghost use Rattle.model.specs.Layout.{page_size};
ghost use Rattle.model.specs.Call.{list};
ghost use Rattle.model.specs.Meaning.{answer};
ghost use Rattle.answers.specs.Answers.{list_answer, entry_listed};

use fields::{Entry, Page};
use outcomes::{Kind, Listed};
use paths::Place;
use refusals::Refusal;

// Entry i of the directory on a page.
fn list_entry(image: &[u8], directory: Page, i: usize) -> Result<Option<Listed>, Refusal>
    requires { (directory.0 < 256) × (page_size * directory.0 + page_size ≤ length image.now) }
    ensures { list_answer result ≡ entry_listed image.now directory.0 i }
{
    if fields::entry_count(directory) <= i {
        return Err(Refusal::PastEnd);
    }
    let at = fields::entry_position(directory, i);
    match fields::entry_at(image, at) {
        Entry::Vacant => Ok(None),
        Entry::File(_, size) => {
            let locked = fields::is_locked(image, at);
            Ok(Some(Listed {
                kind: Kind::File { locked },
                name: fields::name_of(image, at),
                size,
                date: fields::date_of(image, at),
            }))
        }
        Entry::Directory(_, _) => {
            Ok(Some(Listed {
                kind: Kind::Directory,
                name: fields::name_of(image, at),
                size: 256,
                date: fields::date_of(image, at),
            }))
        }
    }
}

// What entry i of the directory holds that a path leads to.
pub fn list(image: &[u8], path: &[u8], i: usize) -> Result<Option<Listed>, Refusal>
    ensures { list_answer result ≡ answer (list path.now i) image.now }
{
    match places::arrive(image, path)? {
        Place::Root => list_entry(image, Page(0), i),
        Place::File(target) => Err(Refusal::NotADirectory(target.begins)),
        Place::Directory(target) => list_entry(image, target.start, i),
    }
}
