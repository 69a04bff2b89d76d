// All that a writing of the link list asks before the rows (02 §4): the image, the directory's path, the date, the directory and its old LINKS.
#![tactic(auto)]

ghost use Rattle.std.specs.Prelude.{◌≡◌, ◌+◌, ◌≤◌, min, ◌++◌, length};
ghost use Rattle.model.specs.Image.{tree_of};
ghost use Rattle.model.specs.Refusal.{Passes};
ghost use Rattle.model.specs.Meaning.{image_lines};
ghost use Rattle.refusals.specs.Told.{told};
ghost use Rattle.link_old.specs.Before.{DateJudged, date_first, directory_lines, old_told, old_file, old_settled};

use outcomes::Kind;
use refusals::Refusal;

// The date is good, by a make that is always refused: the root's name is taken. Where the image is refused nothing is said of the date.
fn date_is_good(image: &mut [u8], date: &[u8]) -> bool
    ensures date_judged { DateJudged image.old date.now result }
    ensures image_unchanged { image.new ≡ image.old }
{
    match zealfs::make_file(image, b"/", date) {
        Ok(()) => true,
        Err(r) => !matches!(r, Refusal::BadDate),
    }
}

// What is told of a directory that cannot be listed: a bad date stands above a walk that does not arrive, and below all else.
fn date_first(good: bool, r: Refusal) -> Refusal
    ensures { told result ≡ date_first good (told r) }
{
    if good {
        return r;
    }
    match r {
        Refusal::NoSuchName(_) | Refusal::NotADirectory(_) => Refusal::BadDate,
        _ => r,
    }
}

// Whether there is an old LINKS in a directory that is there, which may be removed: it must be a file, and not locked. Its path is put together in the bytes lent for it.
fn old_file(image: &[u8], directory: &[u8], path: &mut [u8]) -> Result<bool, Refusal>
    requires { Passes (image_lines image.now ++ directory_lines directory.now (tree_of image.now)) × (min (length directory.now) 4335 + 6 ≤ length path.old) }
    ensures { old_told result ≡ old_file directory.now (tree_of image.now) }
{
    let len = link_files::links_path(directory, path);
    let Ok(found) = zealfs::find(image, &path[..len]) else {
        return Ok(false);
    };
    match found.kind {
        Kind::File { locked } => {
            if locked {
                return Err(Refusal::Locked);
            }
            Ok(true)
        }
        Kind::Directory => Err(Refusal::IsADirectory),
    }
}

// The same with room for the path: all but the longest are short.
fn old_in(image: &[u8], directory: &[u8]) -> Result<bool, Refusal>
    requires { Passes (image_lines image.now ++ directory_lines directory.now (tree_of image.now)) }
    ensures { old_told result ≡ old_file directory.now (tree_of image.now) }
{
    if directory.len() <= 250 {
        let mut path = [0u8; 256];
        return old_file(image, directory, &mut path);
    }
    let mut path = [0u8; 4352];
    old_file(image, directory, &mut path)
}

// All that is asked before the rows: the image, the directory's path, the date, the directory and its old LINKS.
pub fn old_links(image: &mut [u8], directory: &[u8], date: &[u8]) -> Result<bool, Refusal>
    ensures result_value { old_told result ≡ old_settled directory.now date.now image.old }
    ensures image_unchanged { image.new ≡ image.old }
{
    let good = date_is_good(image, date);
    if let Err(r) = zealfs::list(image, directory, 0) {
        return Err(date_first(good, r));
    }
    if !good {
        return Err(Refusal::BadDate);
    }
    old_in(image, directory)
}
