// The pages of a version 2 image get their owner (paper 02 §2 and §12): one page, a file's chain, a directory's pages, and the root's after page 0.
// No function changes the image. Faults are those of `faults`, told by the page that an entry stands on and its number there.
#![tactic(auto)]

ghost use Rattle.std.specs.Prelude.{◌≡◌};
ghost use mathlib.Core.List.{tail};
ghost use Rattle.model.specs.Judge.{clean, judge_page, judge_chain, judge_pages};
ghost use Rattle.model2.specs.Version2.{linked_pages, view2};
ghost use Rattle.faults.specs.Answers.{fault_of, outcome};
ghost use Rattle.owning2.specs.Ready.{Ready, follows};

use faults::Fault;
use fields::Page;
use shape::Shape;

// A page gets its owner. `range` is the fault of a page that an entry cannot own, for only the entry knows its place.
fn own_page(
    image: &[u8],
    shape: Shape,
    marks: &mut [u8],
    page: Page,
    range: Fault,
) -> Result<(), Fault>
    requires { Ready image.now shape marks.old }
    ensures { outcome result marks.new ≡ judge_page (view2 image.now) (fault_of range) page.0 marks.old }
{
    let p = page.0;
    if p < shape.aside {
        return Err(range);
    }
    if p >= marks.len() {
        return Err(range);
    }
    if marks[p] != 0 {
        return Err(Fault::OwnedTwice(page));
    }
    if shape_bits::bit(image, shape, page) != 1 {
        return Err(Fault::MarkedFree(page));
    }
    marks[p] = 1;
    Ok(())
}

// The k pages of a file get their owner; its entry is number i on page `on`. Behind the last of them stands 0.
pub fn own_chain(
    image: &[u8],
    shape: Shape,
    marks: &mut [u8],
    on: Page,
    i: usize,
    k: usize,
    start: Page,
) -> Result<(), Fault>
    requires { Ready image.now shape marks.old }
    ensures { outcome result marks.new ≡ judge_chain (view2 image.now) on.0 i k 0 start.0 marks.old }
{
    let mut page = start;
    for passed in 0..k {
        own_page(image, shape, marks, page, Fault::BadChain(on, i, passed))?;
        page = shape::link(image, shape, page);
    }
    if page.0 != 0 {
        return Err(Fault::BadChain(on, i, k));
    }
    Ok(())
}

// The pages from `start` on by their links, to link 0 and at most so many: the definitions go no further either.
fn own_linked(
    image: &[u8],
    shape: Shape,
    marks: &mut [u8],
    on: Page,
    i: usize,
    most: usize,
    start: Page,
) -> Result<(), Fault>
    requires { Ready image.now shape marks.old }
    ensures { outcome result marks.new
        ≡ judge_pages (view2 image.now) on.0 i 0 (linked_pages (follows image.now) most start.0) clean marks.old }
{
    let mut page = start;
    for passed in 0..most {
        own_page(image, shape, marks, page, Fault::BadChain(on, i, passed))?;
        page = shape::link(image, shape, page);
        if page.0 == 0 {
            return Ok(());
        }
    }
    Ok(())
}

// The pages of a directory, whose entry is number i on page `on`.
pub fn own_directory(
    image: &[u8],
    shape: Shape,
    marks: &mut [u8],
    on: Page,
    i: usize,
    start: Page,
) -> Result<(), Fault>
    requires { Ready image.now shape marks.old }
    ensures { outcome result marks.new
        ≡ judge_pages (view2 image.now) on.0 i 0 ((view2 image.now).directory_pages start.0) clean marks.old }
{
    let n = marks.len();
    own_linked(image, shape, marks, on, i, n, start)
}

// The root has no entry: its pages after page 0 are told as those of entry 255 of page 0.
pub fn own_root(image: &[u8], shape: Shape, marks: &mut [u8]) -> Result<(), Fault>
    requires { Ready image.now shape marks.old }
    ensures { outcome result marks.new
        ≡ judge_pages (view2 image.now) 0 255 0 (tail ((view2 image.now).directory_pages 0)) clean marks.old }
{
    let first = shape::link(image, shape, Page(0));
    if first.0 == 0 {
        return Ok(());
    }
    let n = marks.len();
    own_linked(image, shape, marks, Page(0), 255, n - 1, first)
}
