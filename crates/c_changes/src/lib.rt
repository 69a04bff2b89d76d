// The calls of `zealfs` that change an image, as C gets them (`zealfs_c` names them for C). None has a `requires`: whatever the bytes, a function returns the
// code of the model's `answer` and leaves the image as `after` says.
#![tactic(auto)]

ghost use Rattle.std.specs.Prelude.{◌≡◌, true, false};
ghost use Rattle.model.specs.Call.{format, make_file, make_directory, write, remove_file, remove_directory, set_lock};
ghost use Rattle.model.specs.Meaning.{answer, after};
ghost use Rattle.answers.specs.Answers.{change_answer};
ghost use Rattle.codes.specs.Codes.{code_of, Fits, place_of};

use fields::Position;
use refusals::Refusal;

// The code of a call that tells nothing else.
pub fn change_code(a: Result<(), Refusal>) -> u64
    requires { Fits (place_of (change_answer a)) }
    ensures { result ≡ code_of (change_answer a) }
{
    match a {
        Ok(()) => 0,
        Err(r) => codes::code(r),
    }
}

pub fn format(image: &mut [u8]) -> u64
    ensures value { result ≡ code_of (answer format image.old) }
    ensures image_after { image.new ≡ after format image.old }
{
    change_code(zealfs::format(image))
}

pub fn make_file(image: &mut [u8], path: &[u8], date: &[u8]) -> u64
    ensures value { result ≡ code_of (answer (make_file path.now date.now) image.old) }
    ensures image_after { image.new ≡ after (make_file path.now date.now) image.old }
{
    change_code(zealfs::make_file(image, path, date))
}

pub fn make_directory(image: &mut [u8], path: &[u8], date: &[u8]) -> u64
    ensures value { result ≡ code_of (answer (make_directory path.now date.now) image.old) }
    ensures image_after { image.new ≡ after (make_directory path.now date.now) image.old }
{
    change_code(zealfs::make_directory(image, path, date))
}

pub fn write(image: &mut [u8], path: &[u8], position: u64, bytes: &[u8]) -> u64
    ensures value { result ≡ code_of (answer (write path.now position bytes.now) image.old) }
    ensures image_after { image.new ≡ after (write path.now position bytes.now) image.old }
{
    change_code(zealfs::write(image, path, Position(position as usize), bytes))
}

pub fn remove_file(image: &mut [u8], path: &[u8]) -> u64
    ensures value { result ≡ code_of (answer (remove_file path.now) image.old) }
    ensures image_after { image.new ≡ after (remove_file path.now) image.old }
{
    change_code(zealfs::remove_file(image, path))
}

pub fn remove_directory(image: &mut [u8], path: &[u8]) -> u64
    ensures value { result ≡ code_of (answer (remove_directory path.now) image.old) }
    ensures image_after { image.new ≡ after (remove_directory path.now) image.old }
{
    change_code(zealfs::remove_directory(image, path))
}

pub fn lock(image: &mut [u8], path: &[u8]) -> u64
    ensures value { result ≡ code_of (answer (set_lock true path.now) image.old) }
    ensures image_after { image.new ≡ after (set_lock true path.now) image.old }
{
    change_code(zealfs::lock(image, path))
}

pub fn unlock(image: &mut [u8], path: &[u8]) -> u64
    ensures value { result ≡ code_of (answer (set_lock false path.now) image.old) }
    ensures image_after { image.new ≡ after (set_lock false path.now) image.old }
{
    change_code(zealfs::unlock(image, path))
}
