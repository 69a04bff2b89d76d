// A file made anew with its content, by the base's calls in turn (02 §4): an old file of its path is removed first. All of it is done or nothing, in place
// where nothing but the first call can be refused, and else on a copy of the image. No public function asks anything of its caller.
#![tactic(auto)]

ghost use Rattle.std.specs.Prelude.{◌≡◌, ◌≤◌, true, false, length, T};
ghost use Rattle.model.specs.Sound.{sound};
ghost use Rattle.model.specs.Call.{remove_file};
ghost use Rattle.answers.specs.Answers.{change_answer};
ghost use Rattle.link_anew.specs.Anew.{replacing, anew, run_answer, run_whole, RunsTo, KeptBy, first_of, HasRoom};

use fields::Position;
use refusals::Refusal;

// The first refusal ends it, and leaves what was done.
fn make_anew(image: &mut [u8], path: &[u8], date: &[u8], bytes: &[u8]) -> Result<(), Refusal>
    ensures { RunsTo result (replacing path.now date.now false bytes.now) image.old image.new }
{
    zealfs::make_file(image, path, date)?;
    zealfs::write(image, path, Position(0), bytes)
}

// The same in place of an old file.
fn replace(image: &mut [u8], path: &[u8], date: &[u8], bytes: &[u8]) -> Result<(), Refusal>
    ensures runs_to { RunsTo result (replacing path.now date.now true bytes.now) image.old image.new }
    ensures kept_by { KeptBy (remove_file path.now) image.old image.new }
{
    zealfs::remove_file(image, path)?;
    make_anew(image, path, date, bytes)
}

// Whether there is an old file the make itself tells, by 8 (the name is taken), so that it is asked for nothing else.
#[tactic(auto, using(crate::proofs::InTurn::make_leaves, crate::proofs::InTurn::make_first, crate::proofs::InTurn::removal_first, crate::proofs::InTurn::taken_told), unfolding(crate::specs::Anew::then_answer, crate::specs::Anew::if_granted))]
fn put_in_turn(image: &mut [u8], path: &[u8], date: &[u8], bytes: &[u8]) -> Result<(), Refusal>
    ensures runs_to { RunsTo result (anew path.now date.now bytes.now image.old) image.old image.new }
    ensures kept_by { KeptBy (first_of path.now date.now image.old) image.old image.new }
{
    match zealfs::make_file(image, path, date) {
        Ok(()) => zealfs::write(image, path, Position(0), bytes),
        Err(Refusal::NameTaken) => replace(image, path, date, bytes),
        Err(r) => Err(r),
    }
}

// ---- all of it or none

// On a copy, which is copied back once nothing is refused.
fn put_by_copy(
    image: &mut [u8],
    copy: &mut [u8],
    path: &[u8],
    date: &[u8],
    bytes: &[u8],
) -> Result<(), Refusal>
    requires { length copy.old ≡ length image.old }
    ensures result_value { change_answer result ≡ run_answer (anew path.now date.now bytes.now image.old) image.old }
    ensures image_after { image.new ≡ run_whole (anew path.now date.now bytes.now image.old) image.old }
{
    pages::copy_in(copy, 0, image);
    put_in_turn(copy, path, date, bytes)?;
    pages::copy_in(image, 0, copy);
    Ok(())
}

// The same with room for the copy: no image has more bytes.
fn put_with_room(image: &mut [u8], path: &[u8], date: &[u8], bytes: &[u8]) -> Result<(), Refusal>
    requires { length image.old ≤ 65536 }
    ensures result_value { change_answer result ≡ run_answer (anew path.now date.now bytes.now image.old) image.old }
    ensures image_after { image.new ≡ run_whole (anew path.now date.now bytes.now image.old) image.old }
{
    let mut copy = [0u8; 65536];
    let n = image.len();
    put_by_copy(image, &mut copy[..n], path, date, bytes)
}

// The free pages suffice for so many bytes beside all that is there. One page always does: a make that is granted has taken it. A copy may be done without
// where the image is refused, for then every call is.
fn has_room(image: &[u8], size: usize) -> bool
    ensures { (result ≡ true → HasRoom size image.now) × (result ≡ false → T (sound image.now)) }
{
    if size <= 255 {
        return true;
    }
    match zealfs::verdict(image) {
        Ok(counts) => fields::pages_for(size) <= counts.free,
        Err(_) => true,
    }
}

// Where the free pages suffice the first call alone can be refused, which changes nothing then. An old file's pages are not counted, for a copy is needed
// only where they would matter.
pub fn put(image: &mut [u8], path: &[u8], date: &[u8], bytes: &[u8]) -> Result<(), Refusal>
    ensures result_value { change_answer result ≡ run_answer (anew path.now date.now bytes.now image.old) image.old }
    ensures image_after { image.new ≡ run_whole (anew path.now date.now bytes.now image.old) image.old }
{
    if has_room(image, bytes.len()) {
        return put_in_turn(image, path, date, bytes);
    }
    put_with_room(image, path, date, bytes)
}
