// The judge of a version 2 image (paper 02 §2 and §12): a walk down the tree of directories that gives each page its owner, to the first fault.
// No function changes the image. The one public function has no `requires`: it says of any bytes what they are.
#![tactic(auto)]

ghost use Rattle.std.specs.Prelude.{◌≡◌, ℕ, suc, ◌≤◌, false, length, replicate};
ghost use Rattle.model.specs.Judge.{judge_entry, judge_directory, judge_root, judge_view};
ghost use Rattle.model2.specs.Layout.{page_count, code_in};
ghost use Rattle.model2.specs.Entry.{entry_at};
ghost use Rattle.model2.specs.Version2.{view2};
ghost use Rattle.laws2.proofs.Bounds.{Allowed};
ghost use Rattle.view_laws.specs.Marks.{unowned};
ghost use Rattle.view_laws.proofs.Comes.{Inside};
ghost use Rattle.faults.specs.Answers.{outcome};
ghost use Rattle.cursor2.specs.Row.{position_at};
ghost use Rattle.occupied2.specs.Passing.{is_free};
ghost use Rattle.known2.specs.Known.{Formed};
ghost use Rattle.names2.specs.Reached.{earlier, Reached};
ghost use Rattle.outcomes.specs.Answers.{answered};
ghost use Rattle.refusals2.specs.Told.{told};
ghost use Rattle.judge2.specs.Answers.{counted, concluded, judged_as, Shaped};

use cursor2::Cursor;
use faults::Fault;
use fields::{Entry, Page};
use refusals2::Refusal;
use shape::Shape;
use shape2::Cartridge;

// A sound image has this shape with N, and of its pages so many are free.
#[derive(Clone, Copy)]
pub struct Judged {
    pub cartridge: Cartridge,
    pub free: usize,
}

// The shape of an image whose header is right, from its length and page code.
fn shape_of_image(image: &[u8]) -> Cartridge
    requires { Allowed (code_in image.now) (length image.now) }
    ensures { Formed image.now result.shape result.pages }
{
    let code = usize::from(image[6]);
    shape2::shape_of(image.len(), code)
}

// ---- the walk: a directory judges its entries, and an entry that is a directory is judged as one in turn

// Judges entry `number` of a directory, an occupied one at which the cursor stands, and all below it. A directory's pages get their owner before it is judged, so fewer
// pages have none: any depth f from their number on is enough, and the walk ends. A fault is told by the cursor's own page and the number there (§12).
#[cycle(judge_directory_judge_entry)]
fn judge_entry(
    image: &[u8],
    shape: Shape,
    pages: usize,
    marks: &mut [u8],
    directory: Page,
    cursor: Cursor,
    number: usize,
) -> Result<(), Fault>
    requires { Formed image.now shape pages × (length marks.old ≡ pages) × Inside (view2 image.now) directory.0
        × Reached image.now shape pages ((view2 image.now).entries directory.0) cursor number
        × (is_free image.now (position_at shape pages cursor) ≡ false) }
    ensures { (f : ℕ) → unowned marks.old ≤ f →
        outcome result marks.new
        ≡ judge_entry (judge_directory f (view2 image.now)) (view2 image.now) directory.0 number
        (earlier ((view2 image.now).entries directory.0) number) (entry_at image.now (position_at shape pages cursor))
        marks.old }
{
    let on = cursor.page;
    let i = cursor.number;
    if !names2::name_is_fresh(image, shape, pages, directory, cursor, number) {
        return Err(Fault::BadEntry(on, i));
    }
    match fields2::entry_at(image, cursor2::position_of(image, shape, pages, cursor)) {
        Entry::Vacant => Ok(()),
        Entry::File(start, size) => {
            let k = fields2::pages_for(shape, size);
            owning2::own_chain(image, shape, marks, on, i, k, start)
        }
        Entry::Directory(start, size) => {
            if size != shape.size {
                return Err(Fault::BadEntry(on, i));
            }
            owning2::own_directory(image, shape, marks, on, i, start)?;
            judge_directory(image, marks, start)
        }
    }
}

// Judges the entries of a directory in order, on all its pages; vacant ones are clean and are passed over. The root is the directory on page 0.
// The shape is made for each entry: handed on, or kept while a directory below is judged, it would lie on the stack once for each directory above.
#[cycle(judge_directory_judge_entry)]
fn judge_directory(image: &[u8], marks: &mut [u8], directory: Page) -> Result<(), Fault>
    requires { Allowed (code_in image.now) (length image.now) × (length marks.old ≡ page_count (code_in image.now) (length image.now))
        × Inside (view2 image.now) directory.0 }
    ensures { (f : ℕ) → unowned marks.old ≤ f →
        outcome result marks.new ≡ judge_directory (suc f) (view2 image.now) directory.0 marks.old }
{
    let n = marks.len();
    let whole = shape_of_image(image);
    let mut cursor = cursor2::first_entry(image, whole.shape, n, directory);
    let mut number = 0;
    loop {
        let cartridge = shape_of_image(image);
        let shape = cartridge.shape;
        let pages = cartridge.pages;
        let Some(met) = occupied2::next_occupied(image, shape, pages, cursor, number) else {
            return Ok(());
        };
        let at = met.cursor;
        let i = met.number;
        judge_entry(image, shape, pages, marks, directory, at, i)?;
        let page = at.page;
        let left = at.left;
        cursor = Cursor {
            page,
            number: at.number + 1,
            left,
        };
        number = i + 1;
    }
}

// ---- the image

// The walk alone: every owned page gets its owner mark, none having one at the beginning. The root's pages after page 0 come first (§12).
fn own_pages(image: &[u8], shape: Shape, pages: usize, marks: &mut [u8]) -> Result<(), Fault>
    requires { Formed image.now shape pages × (marks.old ≡ replicate pages 0) }
    ensures { outcome result marks.new ≡ judge_root (view2 image.now) }
{
    owning2::own_root(image, shape, marks)?;
    judge_directory(image, marks, Page(0))
}

// The walk, and what comes after it.
fn judge_all(image: &[u8], shape: Shape, pages: usize, marks: &mut [u8]) -> Result<(), Fault>
    requires { Formed image.now shape pages × (marks.old ≡ replicate pages 0) }
    ensures { outcome result marks.new ≡ judge_view (view2 image.now) }
{
    own_pages(image, shape, pages, marks)?;
    rest2::judge_rest(image, shape, marks)
}

// An image whose header is right. The free number of a sound one is the header's, for `judge_rest` has counted it.
fn judge_formed(image: &[u8], cartridge: Cartridge) -> Result<Judged, Refusal>
    requires { Formed image.now cartridge.shape cartridge.pages }
    ensures { (answered told counted result ≡ concluded (view2 image.now) (judge_view (view2 image.now))) × Shaped image.now result }
{
    let shape = cartridge.shape;
    let n = cartridge.pages;
    let mut marks = [0u8; 1024];
    judge_all(image, shape, n, &mut marks[..n])?;
    let free = shape::load(image, shape.count);
    Ok(Judged { cartridge, free })
}

// What any bytes are: sound, with the image's shape, or refused by 1, 2 or 26 or by their first fault. The length is judged first, then the version, then
// the page code with the bitmap's bytes, then the rest: 1, 2 and 26 stand above the faults.
#[tactic(auto, using(crate::proofs::Image::found_told))]
pub fn judge_image(image: &[u8]) -> Result<Judged, Refusal>
    ensures { (answered told counted result ≡ judged_as image.now) × Shaped image.now result }
{
    let cartridge = header2::read_header(image)?;
    judge_formed(image, cartridge)
}
