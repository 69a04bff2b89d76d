// The search for a lost page, one that is marked in the bitmap and that nobody owns (01, "A sound image"). The shape is any: where the bitmap is and
// how many pages are set aside is all that the two versions (02 §12) differ in. No function changes the image or the marks.
#![tactic(auto)]

ghost use Rattle.std.specs.Prelude.{◌≡◌, ◌+◌, ◌-◌, ◌*◌, ◌≤◌, ◌<◌, min, max, length};
ghost use Rattle.volume.specs.Lists.{first, count_from};
ghost use Rattle.model.specs.Judge.{clean, lost_or};
ghost use Rattle.shape.specs.Geometry.{geometry_of};
ghost use Rattle.faults.specs.Answers.{outcome};
ghost use Rattle.lost.specs.Searched.{Searched, is_lost, owned_from};

use faults::Fault;
use fields::Page;
use shape::Shape;

// The lowest page from `from` on and below `to` that is marked in the bitmap and has no owner.
fn lost_among(image: &[u8], shape: Shape, marks: &[u8], from: usize, to: usize) -> Result<(), Fault>
    requires { Searched image.now shape marks.now × (to ≤ length marks.now) }
    ensures { outcome result marks.now
        ≡ lost_or (clean marks.now) (first (is_lost (geometry_of shape) image.now marks.now) (count_from from (to - from))) }
{
    for p in from..to {
        if marks[p] == 0 {
            if shape_bits::bit(image, shape, Page(p)) == 1 {
                return Err(Fault::LostPage(Page(p)));
            }
        }
    }
    Ok(())
}

// The eight pages from `from` on have their owner. There is no early end, so that all eight are looked at at once.
fn eight_are_owned(marks: &[u8], from: usize) -> bool
    requires { from + 8 ≤ length marks.now }
    ensures { result ≡ owned_from marks.now from 8 }
{
    let mut owned = true;
    for mark in &marks[from..from + 8] {
        owned = owned & (*mark != 0);
    }
    owned
}

// The lowest lost page among those of one byte of the bitmap. A page set aside is none: the rest of the judge asks for its bit.
fn lost_in_byte(image: &[u8], shape: Shape, marks: &[u8], byte: usize) -> Result<(), Fault>
    requires { Searched image.now shape marks.now × (8 * byte < length marks.now) }
    ensures { outcome result marks.now
        ≡ lost_or (clean marks.now) (first (is_lost (geometry_of shape) image.now marks.now)
        (count_from (max shape.aside (8 * byte)) (min (8 * byte + 8) (length marks.now) - max shape.aside (8 * byte)))) }
{
    let from = 8 * byte;
    if from + 8 <= marks.len() {
        if eight_are_owned(marks, from) {
            return Ok(());
        }
    }
    lost_among(
        image,
        shape,
        marks,
        shape.aside.max(from),
        marks.len().min(from + 8),
    )
}

// The lowest of all, a byte of the bitmap at a time, or a word: where no bit is set no page is lost.
pub fn lost_page(image: &[u8], shape: Shape, marks: &[u8]) -> Result<(), Fault>
    requires { Searched image.now shape marks.now }
    ensures { outcome result marks.now
        ≡ lost_or (clean marks.now)
        (first (is_lost (geometry_of shape) image.now marks.now) (count_from shape.aside (length marks.now - shape.aside))) }
{
    let n = marks.len();
    let mut byte = 0;
    while 8 * byte < n {
        let clear = shape_bitmap::clear_bytes(image, shape, byte);
        if clear == 0 {
            lost_in_byte(image, shape, marks, byte)?;
        }
        byte += clear.max(1);
    }
    Ok(())
}
