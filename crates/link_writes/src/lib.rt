// The file LINKS of a directory (02 §4), written once its rows are judged and its bytes are there. What is asked before the rows the make of LINKS asks by
// itself; only where nothing is written, for a bad row or a path that no directory has, is it asked call by call.
#![tactic(auto)]

ghost use Rattle.std.specs.Prelude.{◌≡◌, ◌+◌, ◌≤◌, not, length, T};
ghost use Rattle.model.specs.Path.{path_of, is_no_path};
ghost use Rattle.model.specs.Call.{refused};
ghost use Rattle.answers.specs.Answers.{change_answer};
ghost use Rattle.link_list.specs.Links.{links_path};
ghost use Rattle.link_answers.specs.Answers.{link_refusal, done_told};
ghost use Rattle.link_old.specs.Before.{old_settled};
ghost use Rattle.link_anew.specs.Anew.{anew, then_answer, run_answer, run_whole};
ghost use Rattle.link_writes.specs.Writing.{MayBe, GoodWrittenAs, WrittenAs};

use link_answers::LinkRefusal;
use link_judge::RowFault;
use refusals::Refusal;

// LINKS made anew with these bytes. Its path is put together in those lent for it.
fn put_by(
    image: &mut [u8],
    directory: &[u8],
    path: &mut [u8],
    date: &[u8],
    bytes: &[u8],
) -> Result<(), Refusal>
    requires { T (not (is_no_path (path_of directory.now))) × (length directory.now + 6 ≤ length path.old) }
    ensures result_value { change_answer result ≡ run_answer (anew (links_path directory.now) date.now bytes.now image.old) image.old }
    ensures image_after { image.new ≡ run_whole (anew (links_path directory.now) date.now bytes.now image.old) image.old }
{
    let len = link_files::links_path(directory, path);
    link_anew::put(image, &path[..len], date, bytes)
}

// The same with room for the path: all but the longest are short.
fn put_file(image: &mut [u8], directory: &[u8], date: &[u8], bytes: &[u8]) -> Result<(), Refusal>
    requires { T (not (is_no_path (path_of directory.now))) × (length directory.now ≤ 4335) }
    ensures result_value { change_answer result ≡ run_answer (anew (links_path directory.now) date.now bytes.now image.old) image.old }
    ensures image_after { image.new ≡ run_whole (anew (links_path directory.now) date.now bytes.now image.old) image.old }
{
    if directory.len() <= 250 {
        let mut path = [0u8; 256];
        return put_by(image, directory, &mut path, date, bytes);
    }
    let mut path = [0u8; 4352];
    put_by(image, directory, &mut path, date, bytes)
}

// A directory of this path may be in an image: it is a path, and not longer than the deepest directory's.
fn may_be(directory: &[u8]) -> bool
    ensures { MayBe directory.now result }
{
    if 4335 < directory.len() {
        return false;
    }
    names::is_path(directory)
}

// Nothing is written: what is asked before the rows stands above this refusal.
fn refuse(
    image: &mut [u8],
    directory: &[u8],
    date: &[u8],
    refusal: LinkRefusal,
) -> Result<(), LinkRefusal>
    ensures result_value { done_told result ≡ then_answer (old_settled directory.now date.now image.old) (refused (link_refusal refusal)) }
    ensures image_unchanged { image.new ≡ image.old }
{
    link_old::old_links(image, directory, date)?;
    Err(refusal)
}

// A list whose rows are good. A path that no directory has is always refused before the rows.
fn write_good(
    image: &mut [u8],
    directory: &[u8],
    date: &[u8],
    bytes: &[u8],
) -> Result<(), LinkRefusal>
    ensures { GoodWrittenAs bytes.now directory.now date.now image.old (done_told result) image.new }
{
    if !may_be(directory) {
        return refuse(image, directory, date, LinkRefusal::Base(Refusal::NoPath));
    }
    put_file(image, directory, date, bytes)?;
    Ok(())
}

// Writes a list of rows of which only the judgement and the file are known: whatever list these are of, it is written. Of a list that may not be
// written the bytes may be anything, and of one whose file no image has room for any that are too many.
pub fn write_packed(
    image: &mut [u8],
    directory: &[u8],
    date: &[u8],
    judged: Result<(), RowFault>,
    bytes: &[u8],
) -> Result<(), LinkRefusal>
    ensures { WrittenAs judged bytes.now directory.now date.now image.old (done_told result) image.new }
{
    match judged {
        Ok(()) => write_good(image, directory, date, bytes),
        Err(fault) => refuse(image, directory, date, LinkRefusal::from(fault)),
    }
}
