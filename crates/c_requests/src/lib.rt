// The calls outside the lists of demand 3 as C gets them (`zealfs_c` names them for C): repair, the second judge, stores, the listing and tidying. None of them
// has a `requires`: whatever the bytes, a function returns the code of what its paragraph answers and leaves images and buffers as it says.
#![tactic(auto)]

ghost use Rattle.std.specs.Prelude.{◌≡◌, ◌≤◌, length};
ghost use Rattle.volume.specs.Bytes.{put};
ghost use Rattle.model.specs.Listing.{listing};
ghost use Rattle.model.specs.Sound.{sound};
ghost use Rattle.model.specs.Call.{store};
ghost use Rattle.model.specs.Meaning.{answer, buffer_after, copied};
ghost use Rattle.repair.specs.Repair.{repair_answer, repair_after};
ghost use Rattle.audit.specs.Owner.{owner_numbers};
ghost use Rattle.moves.specs.Tidy.{tidy_answer, tidy_after};
ghost use Rattle.moves.specs.Propose.{propose_answer, propose_after};
ghost use Rattle.tidy.specs.Answer.{told_tidy, answer_of};
ghost use Rattle.codes.specs.Codes.{refusal_code, code_of, Fits, place_of};
ghost use Rattle.codes.specs.Outs.{sound_number, number_out};

use tidy::TidyRefusal;

// Wins back lost pages (02 §7).
pub fn repair(image: &mut [u8]) -> u64
    ensures value { result ≡ code_of (repair_answer image.old) }
    ensures image_after { image.new ≡ repair_after image.old }
{
    c_changes::change_code(repair::repair(image))
}

// Positions as C has them.
fn copy_owners(from: &[usize], to: &mut [u64])
    requires { (length from.now ≡ length to.old) × (length to.old ≤ 256) }
    ensures { to.new ≡ from.now }
{
    for (p, owner) in from.iter().enumerate() {
        to[p] = *owner as u64;
    }
}

// The second judge (02 §8): 1 if the image is sound, and who owns each page: 0 nobody, 1 the header, else where the owner's entry begins.
pub fn audit(image: &[u8], owners: &mut [u64; 256]) -> u64
    ensures value { result ≡ sound_number (sound image.now) }
    ensures owners_after { owners.new ≡ owner_numbers image.now }
{
    let row = audit::audit(image);
    let says = u64::from(row.is_some());
    let mut numbers = [0u64; 256];
    if let Some(row) = row {
        copy_owners(&row, &mut numbers);
    }
    *owners = numbers;
    says
}

// out: the page's number.
pub fn store(
    image: &[u8],
    path: &[u8],
    date: &[u8],
    bytes: &[u8],
    number: u64,
    page: &mut [u8],
    out: &mut [u64; 1],
) -> u64
    ensures value { result ≡ code_of (answer (store path.now date.now bytes.now number page.old) image.now) }
    ensures out_after { out.new ≡ number_out (answer (store path.now date.now bytes.now number page.old) image.now) }
    ensures page_after { page.new ≡ buffer_after (store path.now date.now bytes.now number page.old) image.now }
{
    match store::store(image, path, date, bytes, number as usize, page) {
        Ok(at) => {
            *out = [at.0 as u64];
            0
        }
        Err(r) => {
            *out = [0];
            codes::code(r)
        }
    }
}

// The bytes of the listing from byte `from` on, as many as there are and as the buffer has room for; the result is how many. An image that is not
// sound has a listing too, which says so, and so this is never refused.
pub fn listing(image: &[u8], from: u64, buffer: &mut [u8]) -> u64
    ensures value { result ≡ length (copied (listing image.now) from buffer.old) }
    ensures buffer_after { buffer.new ≡ put 0 (copied (listing image.now) from buffer.old) buffer.old }
{
    listing_text::listing_part(image, from as usize, buffer) as u64
}

// The code of a refusal of the two calls of 02 §13, whose own numbers point nowhere.
fn tidy_refusal(r: TidyRefusal) -> u64
    requires { Fits (told_tidy r).place }
    ensures { result ≡ refusal_code (told_tidy r) }
{
    match r {
        TidyRefusal::Base(base) => codes::code(base),
        TidyRefusal::OtherLength => 28,
        TidyRefusal::NotAccepted => 27,
    }
}

// The code of what they answer.
fn tidy_code(a: Result<(), TidyRefusal>) -> u64
    requires { Fits (place_of (answer_of a)) }
    ensures { result ≡ code_of (answer_of a) }
{
    match a {
        Ok(()) => 0,
        Err(r) => tidy_refusal(r),
    }
}

// A proposal for `zealfs_tidy` (02 §13): places[p] is the new place of page p.
pub fn propose(image: &[u8], places: &mut [u8]) -> u64
    ensures value { result ≡ code_of (propose_answer image.now places.old) }
    ensures places_after { places.new ≡ propose_after image.now places.old }
{
    tidy_code(tidy::propose(image, places))
}

// Writes the image to the target with its pages where the proposal puts them (02 §13).
pub fn tidy(image: &[u8], places: &[u8], target: &mut [u8]) -> u64
    ensures value { result ≡ code_of (tidy_answer image.now places.now target.old) }
    ensures target_after { target.new ≡ tidy_after image.now places.now target.old }
{
    tidy_code(tidy::tidy(image, places, target))
}
