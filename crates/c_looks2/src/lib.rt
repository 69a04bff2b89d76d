// The four looks of version 2 as C gets them (`zealfs2_c` names them for C; paper 02 §12). None has a `requires`: whatever the bytes, a function returns the code
// of the model's `answer`, puts what the answer tells into the out arrays, zeros beside a refusal, and leaves the reader's buffer as `buffer_after` says.
#![tactic(auto)]

ghost use Rattle.std.specs.Prelude.{◌≡◌, Some};
ghost use Rattle.model.specs.Call.{verdict, find, list, read, granted};
ghost use Rattle.model.specs.MeaningOf.{answer, buffer_after};
ghost use Rattle.arrivals.specs.Beside.{find_date, list_name, list_date};
ghost use Rattle.model2.specs.Calls.{v2};
ghost use Rattle.outcomes.specs.Answers.{found_of, listed_of};
ghost use Rattle.codes.specs.Codes.{code_of};
ghost use Rattle.codes.specs.Outs.{verdict_out, find_out, list_out, number_out};

use fields::Position;
use outcomes::{Found, Kind, Listed};

// out: the pages, the free number; a page's size is the image's length divided by the pages.
pub fn verdict(image: &[u8], out: &mut [u64; 2]) -> u64
    ensures value { result ≡ code_of (answer v2 verdict image.now) }
    ensures out_after { out.new ≡ verdict_out (answer v2 verdict image.now) }
{
    match looks2::verdict(image) {
        Ok(counts) => {
            *out = [counts.pages as u64, counts.free as u64];
            0
        }
        Err(r) => {
            *out = [0; 2];
            codes2::code(r)
        }
    }
}

// The out array of what is found.
fn found_numbers(found: Found) -> [u64; 3]
    ensures { result ≡ find_out (granted (found_of found)) }
{
    match found.kind {
        Kind::File { locked } => [0, found.size as u64, codes::lock_number(locked)],
        Kind::Directory => [1, found.size as u64, 0],
    }
}

// out: the kind (0 a file, 1 a directory), the size, a directory's being that of a page, 1 if it is locked.
pub fn find(image: &[u8], path: &[u8], out: &mut [u64; 3], date: &mut [u8; 8]) -> u64
    ensures value { result ≡ code_of (answer v2 (find path.now) image.now) }
    ensures out_after { out.new ≡ find_out (answer v2 (find path.now) image.now) }
    ensures date_after { date.new ≡ find_date (answer v2 (find path.now) image.now) }
{
    match looks2::find(image, path) {
        Ok(found) => {
            let numbers = found_numbers(found);
            *out = numbers;
            let day = found.date;
            *date = day;
            0
        }
        Err(r) => {
            *out = [0; 3];
            *date = [0; 8];
            codes2::code(r)
        }
    }
}

// The out array of an entry that is not empty.
fn listed_numbers(listed: Listed) -> [u64; 4]
    ensures { result ≡ list_out (granted (listed_of (Some listed))) }
{
    match listed.kind {
        Kind::File { locked } => [1, 0, listed.size as u64, codes::lock_number(locked)],
        Kind::Directory => [1, 1, listed.size as u64, 0],
    }
}

// out: 1 if the entry is occupied, its kind (0 a file, 1 a directory), its size, 1 if it is locked. All are 0 for an empty one.
pub fn list(
    image: &[u8],
    path: &[u8],
    entry: u64,
    out: &mut [u64; 4],
    name: &mut [u8; 16],
    date: &mut [u8; 8],
) -> u64
    ensures value { result ≡ code_of (answer v2 (list path.now entry) image.now) }
    ensures out_after { out.new ≡ list_out (answer v2 (list path.now entry) image.now) }
    ensures name_after { name.new ≡ list_name (answer v2 (list path.now entry) image.now) }
    ensures date_after { date.new ≡ list_date (answer v2 (list path.now entry) image.now) }
{
    match listed2::list(image, path, entry as usize) {
        Ok(Some(listed)) => {
            let numbers = listed_numbers(listed);
            *out = numbers;
            let text = listed.name;
            *name = text;
            let day = listed.date;
            *date = day;
            0
        }
        Ok(None) => {
            *out = [0; 4];
            *name = [0; 16];
            *date = [0; 8];
            0
        }
        Err(r) => {
            *out = [0; 4];
            *name = [0; 16];
            *date = [0; 8];
            codes2::code(r)
        }
    }
}

// out: the number of bytes copied.
pub fn read(image: &[u8], path: &[u8], position: u64, buffer: &mut [u8], out: &mut [u64; 1]) -> u64
    ensures value { result ≡ code_of (answer v2 (read path.now position buffer.old) image.now) }
    ensures out_after { out.new ≡ number_out (answer v2 (read path.now position buffer.old) image.now) }
    ensures buffer_after { buffer.new ≡ buffer_after v2 (read path.now position buffer.old) image.now }
{
    match reads2::read(image, path, Position(position as usize), buffer) {
        Ok(count) => {
            *out = [count as u64];
            0
        }
        Err(r) => {
            *out = [0; 1];
            codes2::code(r)
        }
    }
}
