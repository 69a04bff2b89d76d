// The calls of version 2 that change an image, as C gets them (`zealfs2_c` names them for C; paper 02 §12). None has a `requires`: whatever the bytes, a function
// returns the code of the model's `answer` and leaves the image as `after` says.
#![tactic(auto)]

ghost use Rattle.std.specs.Prelude.{◌≡◌, true, false};
ghost use Rattle.model.specs.Call.{format_as, make_file, make_directory, write, remove_file, remove_directory, set_lock};
ghost use Rattle.model.specs.MeaningOf.{answer, after};
ghost use Rattle.model2.specs.Calls.{v2};
ghost use Rattle.answers2.specs.Answers.{change_answer};
ghost use Rattle.codes.specs.Codes.{code_of, Fits, place_of};

use fields::Position;
use refusals2::Refusal;

// The code of a call that tells nothing else.
fn change_code(a: Result<(), Refusal>) -> u64
    requires { Fits (place_of (change_answer a)) }
    ensures { result ≡ code_of (change_answer a) }
{
    match a {
        Ok(()) => 0,
        Err(r) => codes2::code(r),
    }
}

// code: 0, 1 or 2 for pages of 256, 512 or 1,024 bytes.
pub fn format(image: &mut [u8], code: u64) -> u64
    ensures value { result ≡ code_of (answer v2 (format_as code) image.old) }
    ensures image_after { image.new ≡ after v2 (format_as code) image.old }
{
    change_code(makes2::format(image, code as usize))
}

pub fn make_file(image: &mut [u8], path: &[u8], date: &[u8]) -> u64
    ensures value { result ≡ code_of (answer v2 (make_file path.now date.now) image.old) }
    ensures image_after { image.new ≡ after v2 (make_file path.now date.now) image.old }
{
    change_code(makes2::make_file(image, path, date))
}

pub fn make_directory(image: &mut [u8], path: &[u8], date: &[u8]) -> u64
    ensures value { result ≡ code_of (answer v2 (make_directory path.now date.now) image.old) }
    ensures image_after { image.new ≡ after v2 (make_directory path.now date.now) image.old }
{
    change_code(makes2::make_directory(image, path, date))
}

pub fn write(image: &mut [u8], path: &[u8], position: u64, bytes: &[u8]) -> u64
    ensures value { result ≡ code_of (answer v2 (write path.now position bytes.now) image.old) }
    ensures image_after { image.new ≡ after v2 (write path.now position bytes.now) image.old }
{
    change_code(writes2::write(image, path, Position(position as usize), bytes))
}

pub fn remove_file(image: &mut [u8], path: &[u8]) -> u64
    ensures value { result ≡ code_of (answer v2 (remove_file path.now) image.old) }
    ensures image_after { image.new ≡ after v2 (remove_file path.now) image.old }
{
    change_code(removals2::remove_file(image, path))
}

pub fn remove_directory(image: &mut [u8], path: &[u8]) -> u64
    ensures value { result ≡ code_of (answer v2 (remove_directory path.now) image.old) }
    ensures image_after { image.new ≡ after v2 (remove_directory path.now) image.old }
{
    change_code(removals2::remove_directory(image, path))
}

pub fn lock(image: &mut [u8], path: &[u8]) -> u64
    ensures value { result ≡ code_of (answer v2 (set_lock true path.now) image.old) }
    ensures image_after { image.new ≡ after v2 (set_lock true path.now) image.old }
{
    change_code(locks2::lock(image, path))
}

pub fn unlock(image: &mut [u8], path: &[u8]) -> u64
    ensures value { result ≡ code_of (answer v2 (set_lock false path.now) image.old) }
    ensures image_after { image.new ≡ after v2 (set_lock false path.now) image.old }
{
    change_code(locks2::unlock(image, path))
}
