// The pages of an image get their owner (01, "A sound image"; the places of faults: 02 §2): one page, and a file's chain.
// No function changes the image.
#![tactic(auto)]

ghost use Rattle.std.specs.Prelude.{◌≡◌};
ghost use Rattle.model.specs.Version1.{view};
ghost use Rattle.model.specs.Judge.{judge_page, judge_chain};
ghost use Rattle.faults.specs.Answers.{fault_of, outcome};
ghost use Rattle.owning.specs.Marked.{Marked};

use faults::Fault;
use fields::Page;

// A page gets its owner. `range` is the fault of a page that an entry cannot own, for only the entry knows its place.
pub fn own_page(image: &[u8], marks: &mut [u8], page: Page, range: Fault) -> Result<(), Fault>
    requires { Marked image.now marks.old }
    ensures { outcome result marks.new ≡ judge_page (view image.now) (fault_of range) page.0 marks.old }
{
    let p = page.0;
    if p < 1 {
        return Err(range);
    }
    if p >= marks.len() {
        return Err(range);
    }
    if marks[p] != 0 {
        return Err(Fault::OwnedTwice(page));
    }
    if bitmap::bit(image, page) != 1 {
        return Err(Fault::MarkedFree(page));
    }
    marks[p] = 1;
    Ok(())
}

// The k pages of a file get their owner, entry i of a directory. Behind the last of them stands 0. A chain that returns to itself
// meets a page that has its owner.
pub fn own_chain(
    image: &[u8],
    marks: &mut [u8],
    directory: Page,
    i: usize,
    k: usize,
    start: Page,
) -> Result<(), Fault>
    requires { Marked image.now marks.old }
    ensures { outcome result marks.new ≡ judge_chain (view image.now) directory.0 i k 0 start.0 marks.old }
{
    let mut page = start;
    let mut passed = 0;
    while passed < k {
        own_page(image, marks, page, Fault::BadChain(directory, i, passed))?;
        page = fields::link(image, page);
        passed += 1;
    }
    if page.0 != 0 {
        return Err(Fault::BadChain(directory, i, passed));
    }
    Ok(())
}
