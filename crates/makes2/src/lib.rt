// The calls that make on a cartridge of version 2 (paper 02 §12): format and the two makes. None of the calls has a `requires`: whatever the bytes, it answers
// what the model's `answer` says, and leaves the image as `after` says. A refused call changes no byte.
#![tactic(auto)]

ghost use Rattle.std.specs.Prelude.{◌≡◌, ◌*◌, ◌≤◌, ◌<◌, length};
ghost use Rattle.std.specs.Prelude.{if◌then◌else◌};
ghost use Rattle.model.specs.EffectOf.{lowest_vacant, roomy, made_in};
ghost use Rattle.model.specs.Call.{format_as, make_file, make_directory};
ghost use Rattle.model.specs.MeaningOf.{answer, after};
ghost use Rattle.model2.specs.Layout.{page_size, code_in};
ghost use Rattle.model2.specs.Version2.{view2, layout2};
ghost use Rattle.model2.specs.Calls.{v2};
ghost use Rattle.arrivals.specs.Openings.{is_none, make_answer, make_after};
ghost use Rattle.cursor2.specs.Row.{found_of};
ghost use Rattle.known2.specs.Known.{Known};
ghost use Rattle.known2.specs.Housed.{Housed};
ghost use Rattle.answers2.specs.Answers.{change_answer};
ghost use Rattle.makes2.specs.Asked.{Fillable};

use fields::Page;
use refusals2::Refusal;
use shape2::Cartridge;

// Writes the pages set aside, whatever they held; every other byte stays. The page code may be any number: one that does not fit is refused.
pub fn format(image: &mut [u8], code: usize) -> Result<(), Refusal>
    ensures { (change_answer result ≡ answer v2 (format_as code) image.old) × (image.new ≡ after v2 (format_as code) image.old) }
{
    let bytes = image.len();
    if !header2::length_is_allowed(bytes) {
        return Err(Refusal::BadLength);
    }
    if !header2::code_fits(code, bytes) {
        return Err(Refusal::BadShape);
    }
    format2::format_image(image, code);
    Ok(())
}

// ---- the entry that a make fills

// The lowest vacant entry of a directory that has one.
fn lowest_vacant(image: &[u8], cartridge: Cartridge, directory: Page) -> usize
    requires { Known image.now cartridge.shape cartridge.pages × Housed (view2 image.now) directory.0 }
    ensures { result ≡ lowest_vacant (view2 image.now) directory.0 }
{
    let shape = cartridge.shape;
    cursor2::vacant_entry(image, shape, cartridge.pages, directory).unwrap_or(0)
}

// The entry that a make fills. A full directory gets a page first, and what is vacant then is on that page.
fn entry_in(
    image: &mut [u8],
    cartridge: Cartridge,
    directory: Page,
    vacancy: Option<usize>,
) -> usize
    requires { Fillable cartridge.shape cartridge.pages directory.0 (found_of vacancy) 1 image.old }
    ensures value { result ≡ lowest_vacant (view2 image.new) directory.0 }
    ensures image_after { image.new ≡ roomy layout2 (view2 image.old) directory.0 }
{
    match vacancy {
        Some(entry) => entry,
        None => {
            changes2::lengthen(image, cartridge.shape, cartridge.pages, directory);
            lowest_vacant(image, cartridge, directory)
        }
    }
}

// The pages that a make takes: the new entry's own, and one more where the directory must grow.
fn pages_wanted(vacancy: Option<usize>) -> usize
    ensures { result ≡ (if is_none (found_of vacancy) then 2 else 1) }
{
    match vacancy {
        Some(_) => 1,
        None => 2,
    }
}

// ---- make

// Makes an entry of one page, once that is granted. The directory's page comes before the entry's own.
fn fill(
    image: &mut [u8],
    cartridge: Cartridge,
    directory: Page,
    vacancy: Option<usize>,
    flags: u8,
    size: usize,
    name: &[u8],
    date: &[u8],
)
    requires { Fillable cartridge.shape cartridge.pages directory.0 (found_of vacancy) 1 image.old × (length name.now ≡ 16) × (length date.now ≡ 8) × (size < 4294967296) }
    ensures { image.new
        ≡ made_in layout2 flags size 1 name.now date.now directory.0 (view2 (roomy layout2 (view2 image.old) directory.0)) }
{
    let shape = cartridge.shape;
    let entry = entry_in(image, cartridge, directory, vacancy);
    changes2::make_entry(
        image,
        shape,
        cartridge.pages,
        entry,
        flags,
        size,
        1,
        name,
        date,
    );
}

// Makes an entry with these flags in the directory that the path names it in; the size that it tells is that of so many pages. Nothing is written before the
// last refusal that can be given: 10 counts the page that a full directory gets.
fn make(image: &mut [u8], path: &[u8], date: &[u8], flags: u8, told: usize) -> Result<(), Refusal>
    requires { told ≤ 1 }
    ensures result_value { change_answer result ≡ make_answer v2 image.old path.now date.now 1 }
    ensures image_after { image.new ≡ make_after v2 flags (told * page_size (code_in image.old)) 1 image.old path.now date.now }
{
    let opening = openings2::find_opening(image, path, date)?;
    let cartridge = opening.cartridge;
    let vacancy = opening.vacancy;
    let shape = cartridge.shape;
    let count = shape.count;
    let wanted = pages_wanted(vacancy);
    if shape::load(image, count) < wanted {
        return Err(Refusal::NoFreePages);
    }
    let begins = opening.begins;
    let end = path.len();
    let name = names::pad(&path[begins..end]);
    let directory = opening.directory;
    let size = told * shape.size;
    fill(
        image, cartridge, directory, vacancy, flags, size, &name, date,
    );
    Ok(())
}

// Makes an empty file, with the zeroed page that it owns.
pub fn make_file(image: &mut [u8], path: &[u8], date: &[u8]) -> Result<(), Refusal>
    ensures result_value { change_answer result ≡ answer v2 (make_file path.now date.now) image.old }
    ensures image_after { image.new ≡ after v2 (make_file path.now date.now) image.old }
{
    make(image, path, date, 0x80, 0)
}

// Makes a directory without entries, on a page of its own, whose size it tells.
pub fn make_directory(image: &mut [u8], path: &[u8], date: &[u8]) -> Result<(), Refusal>
    ensures result_value { change_answer result ≡ answer v2 (make_directory path.now date.now) image.old }
    ensures image_after { image.new ≡ after v2 (make_directory path.now date.now) image.old }
{
    make(image, path, date, 0x81, 1)
}
