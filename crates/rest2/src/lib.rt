// What the judge of version 2 asks after a clean walk (paper 02 §2 and §12): the lowest lost page, then the bits of the pages set aside, then the count.
// No function changes the image or the marks. Faults are those of `faults`, and lost pages are looked for by `lost`.
#![tactic(auto)]

ghost use Rattle.std.specs.Prelude.{◌≡◌, ◌+◌, ◌≤◌, length};
ghost use Rattle.model.specs.Sound.{marked_below};
ghost use Rattle.model.specs.Judge.{judge_rest};
ghost use Rattle.model2.specs.Layout.{geometry2, code_in};
ghost use Rattle.model2.specs.Version2.{view2};
ghost use Rattle.shape.specs.Geometry.{geometry_of};
ghost use Rattle.faults.specs.Answers.{outcome};
ghost use Rattle.owning2.specs.Ready.{Ready};

use faults::Fault;
use fields::Page;
use shape::Shape;

// The bits of the pages below n are 1.
fn are_marked(image: &[u8], shape: Shape, n: usize) -> bool
    requires { (geometry_of shape ≡ geometry2 (code_in image.now) (length image.now)) × (shape.map + n ≤ length image.now) }
    ensures { result ≡ marked_below (view2 image.now) n }
{
    let mut marked = true;
    for p in 0..n {
        marked = marked & (shape_bits::bit(image, shape, Page(p)) == 1);
    }
    marked
}

// A page set aside, page 0 or one of the table's, is owned by nobody and yet not lost: its bit at 0 is told with the count, as 3. The count is not
// trusted; the zero bits are counted.
#[tactic(auto, using(crate::proofs::Rest::rest_faulty))]
pub fn judge_rest(image: &[u8], shape: Shape, marks: &[u8]) -> Result<(), Fault>
    requires { Ready image.now shape marks.now }
    ensures { outcome result marks.now ≡ judge_rest (view2 image.now) marks.now }
{
    lost::lost_page(image, shape, marks)?;
    if !are_marked(image, shape, shape.aside) {
        return Err(Fault::BadCount);
    }
    let n = marks.len();
    let count = shape.count;
    let free = shape::load(image, count);
    let zeros = shape_bitmap::zero_bits(image, shape, n);
    if free != zeros {
        return Err(Fault::BadCount);
    }
    Ok(())
}
