// A file LINKS checked once its bytes are there (02 §4): the file is judged whole, then every row must name a file of the directory by its exact digits.
#![tactic(auto)]

ghost use Rattle.std.specs.Prelude.{◌≡◌, ◌+◌, ◌≤◌, min, true, ◌++◌, length, T};
ghost use Rattle.volume.specs.Lists.{all};
ghost use Rattle.model.specs.Name.{legal_text};
ghost use Rattle.model.specs.Image.{tree_of};
ghost use Rattle.model.specs.Refusal.{Passes};
ghost use Rattle.model.specs.Meaning.{image_lines};
ghost use Rattle.link_list.specs.Coding.{in_range, accession};
ghost use Rattle.link_list.specs.Links.{node_in, is_file_there, file_lines};
ghost use Rattle.link_rows.specs.Told.{steps_from};
ghost use Rattle.link_answers.specs.Answers.{done_told};
ghost use Rattle.link_checks.specs.Checks.{is_file_found, checked_rows, check_in};

use link_answers::LinkRefusal;
use link_list::Row;
use outcomes::{Found, Kind};
use refusals::Refusal;

// What was found is a file.
fn is_found(found: Result<Found, Refusal>) -> bool
    ensures { result ≡ is_file_found found }
{
    matches!(
        found,
        Ok(Found {
            kind: Kind::File { .. },
            ..
        })
    )
}

// The directory of a LINKS that was loaded has a file of that name. The path is put together in the bytes lent for it.
fn is_file(image: &[u8], directory: &[u8], name: &[u8], path: &mut [u8]) -> bool
    requires { Passes (image_lines image.now ++ file_lines directory.now (tree_of image.now)) × T (legal_text name.now) × (min (length directory.now) 4335 + 1 + length name.now ≤ length path.old) }
    ensures { result ≡ is_file_there (node_in directory.now name.now (tree_of image.now)) }
{
    let len = link_files::join(directory, name, path);
    is_found(zealfs::find(image, &path[..len]))
}

// The same for the row's exact digits, with room for the path: all but the longest are short.
fn has_file(image: &[u8], directory: &[u8], row: Row) -> bool
    requires { Passes (image_lines image.now ++ file_lines directory.now (tree_of image.now)) × (in_range row ≡ true) }
    ensures { result ≡ is_file_there (node_in directory.now (accession row.count row.value) (tree_of image.now)) }
{
    let mut digits = [0u8; 16];
    let count = row.count as usize;
    link_numbers::put_digits(&mut digits, 0, count, row.value);
    if directory.len() <= 239 {
        let mut path = [0u8; 256];
        return is_file(image, directory, &digits[..count], &mut path);
    }
    let mut path = [0u8; 4352];
    is_file(image, directory, &digits[..count], &mut path)
}

// Every one of the first rows of a file that was judged names a file of the directory.
fn check_rows(image: &[u8], directory: &[u8], file: &[u8], rows: usize) -> Result<(), LinkRefusal>
    requires { Passes (image_lines image.now ++ file_lines directory.now (tree_of image.now)) × (all in_range (steps_from file.now rows 0) ≡ true) }
    ensures { done_told result ≡ checked_rows 0 directory.now image.now (steps_from file.now rows 0) }
{
    let mut at = 0;
    for i in 0..rows {
        let step = link_rows::row_from(file, at);
        if !has_file(image, directory, step.row) {
            return Err(LinkRefusal::NoFile(i));
        }
        at = step.next;
    }
    Ok(())
}

// Every row of a file names a file of the directory.
pub fn check_file(image: &[u8], directory: &[u8], file: &[u8]) -> Result<(), LinkRefusal>
    requires { Passes (image_lines image.now ++ file_lines directory.now (tree_of image.now)) }
    ensures { done_told result ≡ check_in file.now directory.now image.now }
{
    let rows = link_rows::judge_file(file)?;
    check_rows(image, directory, file, rows)
}
