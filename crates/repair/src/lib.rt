// Lost pages won back (02 §7): the judge's walk, and the bits and the count set anew by its owner marks. The one public call has no `requires`:
// whatever the bytes, it answers what `repair_answer` says and leaves the image as `repair_after` says.
#![tactic(auto)]

ghost use Rattle.std.specs.Prelude.{◌≡◌, ◌<◌, ◌≤◌, true, length, replicate};
ghost use Rattle.std.specs.Prelude.{if◌then◌else◌};
ghost use Rattle.volume.specs.Geometry as On;
ghost use Rattle.model.specs.Layout.{version1, page_count, valid_length, valid_header};
ghost use Rattle.owning.specs.Marked.{Marked};
ghost use Rattle.repair.specs.Remark.{remarked, recounted};
ghost use Rattle.repair.specs.Repair.{repair_answer, repair_after};
ghost use Rattle.repair.specs.Taken.{is_taken, Shown, Right};
ghost use Rattle.answers.specs.Answers.{change_answer};

use fields::Page;
use refusals::Refusal;

// The header, or a page that has its owner mark.
fn is_taken(marks: &[u8], p: usize) -> bool
    requires { p < length marks.now }
    ensures { result ≡ is_taken marks.now p }
{
    if p == 0 {
        return true;
    }
    marks[p] != 0
}

fn set_bit(image: &mut [u8], page: Page, taken: bool)
    requires { On.bitmap_byte version1 page.0 < length image.old }
    ensures { image.new ≡ (if taken then On.mark version1 page.0 image.old else On.unmark version1 page.0 image.old) }
{
    if taken {
        bitmap::mark(image, page);
        return;
    }
    bitmap::unmark(image, page);
}

// How many pages from p on are seen to have the right bit: one that has its owner, or those of bytes in which no bit is set. Each owned page has its
// bit, so these pages have no owner. Of the header nothing is seen.
fn right_pages(image: &[u8], marks: &[u8], p: usize) -> usize
    requires { (p < length marks.now) × (length marks.now ≤ 256) × (44 ≤ length image.now) × Shown image.now marks.now p }
    ensures { Right image.now marks.now p result × (result ≤ 64) }
{
    if p == 0 {
        return 0;
    }
    if marks[p] != 0 {
        return 1;
    }
    if p % 8 != 0 {
        return 0;
    }
    8 * bitmap::clear_bytes(image, p / 8)
}

// Sets the bit of each page that has a mark to what that says, and counts the zero bits. The header is marked, so a byte holds their number.
fn remark(image: &mut [u8], marks: &[u8])
    requires { (1 ≤ length marks.now) × (length marks.now ≤ 256) × (44 ≤ length image.old) × Shown image.old marks.now 0 }
    ensures { image.new ≡ recounted version1 (length marks.now) (remarked version1 (is_taken marks.now) (length marks.now) image.old) }
{
    let n = marks.len();
    let mut p = 0;
    while p < n {
        let right = right_pages(image, marks, p);
        if right == 0 {
            let taken = is_taken(marks, p);
            set_bit(image, Page(p), taken);
        }
        p += right.max(1);
    }
    let zeros = bitmap::zero_bits(image, n);
    image[3] = zeros as u8;
}

// On an image of right length and header, with a mark of 0 for each page.
fn mend(image: &mut [u8], marks: &mut [u8]) -> Result<(), Refusal>
    requires { (valid_length (length image.old) ≡ true) × (valid_header image.old ≡ true) × Marked image.old marks.old × (marks.old ≡ replicate (page_count image.old) 0) }
    ensures result_value { change_answer result ≡ repair_answer image.old }
    ensures image_after { image.new ≡ repair_after image.old }
{
    judge::own_pages(image, marks)?;
    remark(image, marks);
    Ok(())
}

// Sets the bits of the first N to exactly the header and the owned pages and corrects the count, if the walk is clean.
pub fn repair(image: &mut [u8]) -> Result<(), Refusal>
    ensures result_value { change_answer result ≡ repair_answer image.old }
    ensures image_after { image.new ≡ repair_after image.old }
{
    if !fields::length_is_allowed(image.len()) {
        return Err(Refusal::BadLength);
    }
    if !fields::header_is_right(image) {
        return Err(Refusal::BadHeader);
    }
    let n = fields::page_count(image.len());
    let mut marks = [0u8; 256];
    mend(image, &mut marks[..n])
}
