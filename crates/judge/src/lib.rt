// The judge of an image (01, "A sound image"; the order and the places of faults: 02 §2): a walk down the tree of directories that
// gives each page its owner and stops at the first fault.
// No function changes the image. The one public function has no `requires`: it says of any bytes what they are.
#![tactic(auto)]

ghost use Rattle.std.specs.Prelude.{◌≡◌, ℕ, suc, ◌≤◌, ◌<◌, length, replicate};
ghost use Rattle.model.specs.Layout.{page_count};
ghost use Rattle.model.specs.Entry.{entry_count, entry_at};
ghost use Rattle.model.specs.Version1.{view};
ghost use Rattle.model.specs.Judge.{judge_entry, judge_directory, judge_walk, judge};
ghost use Rattle.view_laws.specs.Marks.{unowned};
ghost use Rattle.faults.specs.Answers.{outcome};
ghost use Rattle.owning.specs.Marked.{Marked};
ghost use Rattle.fresh.specs.Earlier.{position, earlier};
ghost use Rattle.outcomes.specs.Answers.{answered, counted};
ghost use Rattle.refusals.specs.Told.{told};
ghost use Rattle.judge.specs.Answers.{judged_as};

use faults::Fault;
use fields::{Entry, Page};
use outcomes::Counts;
use refusals::Refusal;

// ---- the walk: a directory judges its entries, and an entry that is a directory is judged as one in turn

// Judges entry i of a directory and all below it. A directory gets its owner before it is judged, so fewer pages have none:
// any depth f from their number on is enough, and the walk ends.
#[cycle(judge_directory_judge_entry)]
fn judge_entry(image: &[u8], marks: &mut [u8], directory: Page, i: usize) -> Result<(), Fault>
    requires { Marked image.now marks.old × (directory.0 < length marks.old) × (i < entry_count directory.0) }
    ensures { (f : ℕ) → unowned marks.old ≤ f →
        outcome result marks.new
        ≡ judge_entry (judge_directory f (view image.now)) (view image.now) directory.0 i (earlier directory.0 i)
        (entry_at image.now (position directory.0 i)) marks.old }
{
    match fields::entry_at(image, fields::entry_position(directory, i)) {
        Entry::Vacant => Ok(()),
        Entry::File(start, size) => {
            if !fresh::name_is_fresh(image, directory, i) {
                return Err(Fault::BadEntry(directory, i));
            }
            owning::own_chain(image, marks, directory, i, fields::pages_for(size), start)
        }
        Entry::Directory(start, size) => {
            if size != 0x0100 {
                return Err(Fault::BadEntry(directory, i));
            }
            if !fresh::name_is_fresh(image, directory, i) {
                return Err(Fault::BadEntry(directory, i));
            }
            owning::own_page(image, marks, start, Fault::BadChain(directory, i, 0))?;
            judge_directory(image, marks, start)
        }
    }
}

// Judges the entries of a directory in order. The root is the directory on page 0.
#[cycle(judge_directory_judge_entry)]
fn judge_directory(image: &[u8], marks: &mut [u8], directory: Page) -> Result<(), Fault>
    requires { Marked image.now marks.old × (directory.0 < length marks.old) }
    ensures { (f : ℕ) → unowned marks.old ≤ f →
        outcome result marks.new ≡ judge_directory (suc f) (view image.now) directory.0 marks.old }
{
    let count = fields::entry_count(directory);
    for i in 0..count {
        let entry = fields::entry_at(image, fields::entry_position(directory, i));
        if let Entry::Vacant = entry {
            continue;
        }
        judge_entry(image, marks, directory, i)?;
    }
    Ok(())
}

// ---- the image

// The walk alone: every owned page gets its owner mark. No page has one at its beginning. A repair marks these pages in the bitmap (02 §7).
pub fn own_pages(image: &[u8], marks: &mut [u8]) -> Result<(), Fault>
    requires { Marked image.now marks.old × (marks.old ≡ replicate (page_count image.now) 0) }
    ensures { outcome result marks.new ≡ judge_walk image.now }
{
    judge_directory(image, marks, Page(0))
}

// The walk, and what comes after it.
fn judge_all(image: &[u8], marks: &mut [u8]) -> Result<(), Fault>
    requires { Marked image.now marks.old × (marks.old ≡ replicate (page_count image.now) 0) }
    ensures { outcome result marks.new ≡ judge image.now }
{
    own_pages(image, marks)?;
    rest::judge_rest(image, marks)
}

// The length is judged first, then the header, then the rest: 1 and 2 stand above the faults. The free number of a sound image is byte 3,
// for `judge_rest` has counted it.
pub fn judge_image(image: &[u8]) -> Result<Counts, Refusal>
    ensures { answered told counted result ≡ judged_as image.now }
{
    if !fields::length_is_allowed(image.len()) {
        return Err(Refusal::BadLength);
    }
    if !fields::header_is_right(image) {
        return Err(Refusal::BadHeader);
    }
    let n = fields::page_count(image.len());
    let mut marks = [0u8; 256];
    judge_all(image, &mut marks[..n])?;
    Ok(Counts {
        pages: n,
        free: fields::free_count(image),
    })
}
