// The link list over lent slices of rows (01, "Which places take which form"): LINKS of a directory (02 §4) is read into a list of `Row`, and written
// from one. No public call has a `requires`: whatever it is handed, it answers what `link_answer` says, leaves the list as `link_list` says and the image
// as `link_after` says. The functions over a slice of rows are thin: each turns over the rows, and what it calls works on one.
#![tactic(auto)]

ghost use Rattle.std.specs.Prelude.{◌≡◌, ◌≤◌, length};
ghost use Rattle.link_list.specs.Links.{read_links, write_links, link_answer, link_list, link_after};
ghost use Rattle.link_answers.specs.Answers.{read_told, done_told};
ghost use Rattle.link_judge.specs.Judged.{unjudged, judged_from};
ghost use Rattle.link_slices.specs.Writing.{packed_at, packed_bytes, packed_from, WrittenFor};
ghost use Rattle.link_slices.specs.Reading.{placed, FoundIn, FoundFor};

use link_answers::LinkRefusal;
use link_judge::Judged;
use link_list::Row;

// ---- reading

// The size of a file, and how many rows it has, which all go to the list.
#[derive(Clone, Copy)]
struct Found {
    size: usize,
    count: usize,
}

// A file's bytes are judged for a list with room for so many rows; how many there are.
fn judge_found(file: &[u8], room: usize) -> Result<usize, LinkRefusal>
    ensures { FoundIn file.now room result }
{
    let count = link_rows::judge_file(file)?;
    if room < count {
        return Err(LinkRefusal::ListTooShort);
    }
    Ok(count)
}

// LINKS of a directory, put at the front of the bytes and judged.
fn find_rows(
    image: &[u8],
    directory: &[u8],
    room: usize,
    file: &mut [u8],
) -> Result<Found, LinkRefusal>
    requires { 65025 ≤ length file.old }
    ensures { FoundFor directory.now image.now room file.new result }
{
    let size = link_files::load(image, directory, file)?;
    let count = judge_found(&file[..size], room)?;
    Ok(Found { size, count })
}

// So many rows of a file that was judged, put at the front of the list; past them it stays.
fn place_rows(file: &[u8], count: usize, rows: &mut [Row])
    requires { count ≤ length rows.old }
    ensures { rows.new ≡ placed file.now count rows.old }
{
    let mut at = 0;
    for i in 0..count {
        let step = link_rows::row_from(file, at);
        rows[i] = step.row;
        at = step.next;
    }
}

// Reads the rows of a directory's LINKS, in the file's order; past them the list stays. No file has more bytes than the array.
pub fn read_rows(image: &[u8], directory: &[u8], rows: &mut [Row]) -> Result<usize, LinkRefusal>
    ensures { (read_told result ≡ link_answer (read_links directory.now rows.old) image.now) × (rows.new ≡ link_list (read_links directory.now rows.old) image.now) }
{
    let mut file = [0u8; 65025];
    let found = find_rows(image, directory, rows.len(), &mut file)?;
    place_rows(&file[..found.size], found.count, rows);
    Ok(found.count)
}

// ---- writing

// A list that is to be written is judged whole, also past its first fault.
fn judge_rows(rows: &[Row]) -> Judged
    ensures { result ≡ judged_from 0 unjudged rows.now }
{
    let mut state = link_judge::fresh();
    for (i, &row) in rows.iter().enumerate() {
        state = link_judge::judge_row(state, i, row);
    }
    state
}

// A row put at a byte; the byte behind it. All bytes are taken where there may be no room for it, and by a row that may not be written.
fn pack_row(bytes: &mut [u8], at: usize, row: Row) -> usize
    ensures { (result ≡ packed_at (length bytes.old) at row) × (bytes.new ≡ packed_bytes at row bytes.old) }
{
    let len = bytes.len();
    if !link_judge::in_range(row) {
        return len;
    }
    if len < 24 {
        return len;
    }
    if len - 24 < at {
        return len;
    }
    link_rows::put_row(bytes, at, row)
}

// The file of a list that may be written, put at the front of the bytes, or all of them taken; the byte behind it.
fn pack_rows(rows: &[Row], bytes: &mut [u8]) -> usize
    ensures { (result, bytes.new) ≡ packed_from 0 bytes.old rows.now }
{
    let mut at = 0;
    for &row in rows {
        at = pack_row(bytes, at, row);
    }
    at
}

// Writes a list of which the judging and the file's bytes are known.
fn write_judged(
    image: &mut [u8],
    directory: &[u8],
    date: &[u8],
    judged: Judged,
    bytes: &[u8],
) -> Result<(), LinkRefusal>
    ensures { WrittenFor judged bytes.now directory.now date.now image.old (done_told result) image.new }
{
    link_writes::write_packed(image, directory, date, link_judge::judgement(judged), bytes)
}

// Writes the rows as a directory's LINKS: any old one is removed, and it is made anew with the date. No image has room for a file that the array has no
// room for.
pub fn write_rows(
    image: &mut [u8],
    directory: &[u8],
    date: &[u8],
    rows: &[Row],
) -> Result<(), LinkRefusal>
    ensures { (done_told result ≡ link_answer (write_links directory.now date.now rows.now) image.old) × (image.new ≡ link_after (write_links directory.now date.now rows.now) image.old) }
{
    let mut bytes = [0u8; 65536];
    let judged = judge_rows(rows);
    let size = pack_rows(rows, &mut bytes);
    write_judged(image, directory, date, judged, &bytes[..size])
}
