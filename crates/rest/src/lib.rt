// What the judge asks after a clean walk (01, "A sound image"; 02 §2): the lowest lost page, then bit 0, then the count.
// The function changes neither the image nor the marks.
#![tactic(auto)]

ghost use Rattle.std.specs.Prelude.{◌≡◌};
ghost use Rattle.model.specs.Version1.{view};
ghost use Rattle.model.specs.Judge.{judge_rest};
ghost use Rattle.faults.specs.Answers.{outcome};
ghost use Rattle.owning.specs.Marked.{Marked};

use bitmap::VERSION1;
use faults::Fault;
use fields::Page;

// Byte 3 is not trusted; the zero bits are counted.
pub fn judge_rest(image: &[u8], marks: &[u8]) -> Result<(), Fault>
    requires { Marked image.now marks.now }
    ensures { outcome result marks.now ≡ judge_rest (view image.now) marks.now }
{
    lost::lost_page(image, VERSION1, marks)?;
    if bitmap::bit(image, Page(0)) != 1 {
        return Err(Fault::BadCount);
    }
    let n = marks.len();
    let free = fields::free_count(image);
    let zeros = bitmap::zero_bits(image, n);
    if free != zeros {
        return Err(Fault::BadCount);
    }
    Ok(())
}
