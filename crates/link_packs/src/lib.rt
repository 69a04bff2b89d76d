// A list of rows (02 §4), judged, packed into the bytes of its file and written. One whose file is no longer than a page is packed into an array of that
// size, so that little is cleared. The public function asks nothing of its caller.
#![tactic(auto)]

ghost use Rattle.std.specs.Prelude.{◌≡◌, ◌≤◌, length, take};
ghost use Rattle.link_list.specs.Judging.{bad_row};
ghost use Rattle.link_list.specs.Links.{write_links, link_answer, link_after};
ghost use Rattle.link_judge.specs.Judged.{list_told, rows_of};
ghost use Rattle.link_answers.specs.Answers.{done_told};
ghost use Rattle.link_writes.specs.Writing.{PackedAs};
ghost use Rattle.link_packs.specs.Packing.{PacksTo};

use link_answers::LinkRefusal;
use link_judge::RowFault;

// The file of a list that was judged, put at the front of the bytes if it has room there.
fn pack(judged: Result<(), RowFault>, numbers: &[u64], bytes: &mut [u8]) -> Option<usize>
    requires { list_told judged ≡ bad_row (rows_of numbers.now) }
    ensures { PacksTo judged (rows_of numbers.now) (length bytes.old) bytes.new result }
{
    match judged {
        Ok(()) => link_rows::pack_numbers(numbers, bytes),
        Err(_) => Some(0),
    }
}

// The same with room for the longest file; how many of the bytes stand for it.
fn pack_long(judged: Result<(), RowFault>, numbers: &[u64], bytes: &mut [u8]) -> usize
    requires { (list_told judged ≡ bad_row (rows_of numbers.now)) × (65536 ≤ length bytes.old) }
    ensures { (result ≤ length bytes.old) × PackedAs judged (take result bytes.new) (rows_of numbers.now) }
{
    pack(judged, numbers, bytes).unwrap_or(bytes.len())
}

fn write_long(
    image: &mut [u8],
    directory: &[u8],
    date: &[u8],
    judged: Result<(), RowFault>,
    numbers: &[u64],
) -> Result<(), LinkRefusal>
    requires { list_told judged ≡ bad_row (rows_of numbers.now) }
    ensures result_value { done_told result ≡ link_answer (write_links directory.now date.now (rows_of numbers.now)) image.old }
    ensures image_after { image.new ≡ link_after (write_links directory.now date.now (rows_of numbers.now)) image.old }
{
    let mut bytes = [0u8; 65536];
    let size = pack_long(judged, numbers, &mut bytes);
    link_writes::write_packed(image, directory, date, judged, &bytes[..size])
}

// Writes the rows as a directory's LINKS: any old one is removed, and it is made anew with the date.
pub fn write(
    image: &mut [u8],
    directory: &[u8],
    date: &[u8],
    numbers: &[u64],
) -> Result<(), LinkRefusal>
    ensures result_value { done_told result ≡ link_answer (write_links directory.now date.now (rows_of numbers.now)) image.old }
    ensures image_after { image.new ≡ link_after (write_links directory.now date.now (rows_of numbers.now)) image.old }
{
    let judged = link_judge::judge_list(numbers);
    let mut bytes = [0u8; 256];
    match pack(judged, numbers, &mut bytes) {
        Some(size) => link_writes::write_packed(image, directory, date, judged, &bytes[..size]),
        None => write_long(image, directory, date, judged, numbers),
    }
}
