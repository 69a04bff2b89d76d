// The calls that make: format and the two makes. None has a `requires`: whatever the bytes, a call answers what the model's `answer` says, and leaves the
// image as `after` says. A refused call changes no byte.
#![tactic(auto)]

ghost use Rattle.std.specs.Prelude.{◌≡◌, ◌<◌};
ghost use Rattle.model.specs.Call.{format, make_file, make_directory};
ghost use Rattle.model.specs.Meaning.{answer, after};
ghost use Rattle.answers.specs.Answers.{change_answer};
ghost use Rattle.makes.specs.Makes.{make_answer, make_after};

use fields::Page;
use refusals::Refusal;

// Writes page 0, whatever it held; every other byte stays.
pub fn format(image: &mut [u8]) -> Result<(), Refusal>
    ensures { (change_answer result ≡ answer format image.old) × (image.new ≡ after format image.old) }
{
    let bytes = image.len();
    if !fields::length_is_allowed(bytes) {
        return Err(Refusal::BadLength);
    }
    let n = fields::page_count(bytes);
    let header = [0x5A, 1, (n / 8 % 256) as u8, ((n - 1) % 256) as u8, 1];
    pages::zero_page(image, Page(0));
    pages::fill_page(image, Page(0), 0, &header);
    Ok(())
}

// Makes an entry with these flags, this size and so many pages, in the lowest vacant one of the directory that the path names it in. Nothing is
// written before the last refusal that can be given.
fn make(
    image: &mut [u8],
    path: &[u8],
    date: &[u8],
    flags: u8,
    size: usize,
    pages: usize,
) -> Result<(), Refusal>
    requires { size < 65536 }
    ensures result_value { change_answer result ≡ make_answer image.old path.now date.now pages }
    ensures image_after { image.new ≡ make_after flags size pages image.old path.now date.now }
{
    let opening = openings::find_opening(image, path, date)?;
    if fields::free_count(image) < pages {
        return Err(Refusal::NoFreePages);
    }
    let end = path.len();
    let name = names::pad(&path[opening.begins..end]);
    changes::make_entry(image, opening.entry, flags, size, pages, &name, date);
    Ok(())
}

// Makes an empty file, with the zeroed page that it owns (02 §1).
pub fn make_file(image: &mut [u8], path: &[u8], date: &[u8]) -> Result<(), Refusal>
    ensures result_value { change_answer result ≡ answer (make_file path.now date.now) image.old }
    ensures image_after { image.new ≡ after (make_file path.now date.now) image.old }
{
    make(image, path, date, 0x80, 0, fields::pages_for(0))
}

// Makes a directory without entries, on a page of its own.
pub fn make_directory(image: &mut [u8], path: &[u8], date: &[u8]) -> Result<(), Refusal>
    ensures result_value { change_answer result ≡ answer (make_directory path.now date.now) image.old }
    ensures image_after { image.new ≡ after (make_directory path.now date.now) image.old }
{
    make(image, path, date, 0x81, 0x0100, 1)
}
