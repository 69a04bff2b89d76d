// The link list of a directory (02 §4), read, searched and checked: the calls that change no image, over slices of numbers, three a row. Each loads the
// file LINKS and judges it whole. A file of one page, which has room for more rows than a directory has entries, is loaded into an array of that size; the
// array for the longest file is cleared only where it is needed.
#![tactic(auto)]

ghost use Rattle.std.specs.Prelude.{◌≡◌};
ghost use Rattle.link_list.specs.Links.{read_links, find_link, check_links, link_answer};
ghost use Rattle.link_judge.specs.Judged.{rows_of};
ghost use Rattle.link_answers.specs.Answers.{read_told, find_told, done_told};
ghost use Rattle.link_looks.specs.Looks.{numbers_after};

use link_answers::LinkRefusal;

fn read_long(image: &[u8], directory: &[u8], numbers: &mut [u64]) -> Result<usize, LinkRefusal>
    ensures result_value { read_told result ≡ link_answer (read_links directory.now (rows_of numbers.old)) image.now }
    ensures numbers_after { numbers.new ≡ numbers_after directory.now image.now numbers.old }
{
    let mut file = [0u8; 65025];
    let size = link_files::load(image, directory, &mut file)?;
    link_reads::read_file(&file[..size], numbers)
}

// Reads the rows of a directory's LINKS, in the file's order; past them the numbers stay.
pub fn read(image: &[u8], directory: &[u8], numbers: &mut [u64]) -> Result<usize, LinkRefusal>
    ensures result_value { read_told result ≡ link_answer (read_links directory.now (rows_of numbers.old)) image.now }
    ensures numbers_after { numbers.new ≡ numbers_after directory.now image.now numbers.old }
{
    let mut file = [0u8; 256];
    let size = link_files::load(image, directory, &mut file)?;
    if size < 256 {
        return link_reads::read_file(&file[..size], numbers);
    }
    read_long(image, directory, numbers)
}

fn find_long(
    image: &[u8],
    directory: &[u8],
    count: u64,
    value: u64,
) -> Result<Option<u64>, LinkRefusal>
    ensures { find_told result ≡ link_answer (find_link directory.now count value) image.now }
{
    let mut file = [0u8; 65025];
    let size = link_files::load(image, directory, &mut file)?;
    link_reads::find_in_file(&file[..size], count, value)
}

// Finds an accession in a directory's LINKS.
pub fn find(
    image: &[u8],
    directory: &[u8],
    count: u64,
    value: u64,
) -> Result<Option<u64>, LinkRefusal>
    ensures { find_told result ≡ link_answer (find_link directory.now count value) image.now }
{
    let mut file = [0u8; 256];
    let size = link_files::load(image, directory, &mut file)?;
    if size < 256 {
        return link_reads::find_in_file(&file[..size], count, value);
    }
    find_long(image, directory, count, value)
}

fn check_long(image: &[u8], directory: &[u8]) -> Result<(), LinkRefusal>
    ensures { done_told result ≡ link_answer (check_links directory.now) image.now }
{
    let mut file = [0u8; 65025];
    let size = link_files::load(image, directory, &mut file)?;
    link_checks::check_file(image, directory, &file[..size])
}

// Checks that every row of a directory's LINKS names a file of that directory by its exact digits.
pub fn check(image: &[u8], directory: &[u8]) -> Result<(), LinkRefusal>
    ensures { done_told result ≡ link_answer (check_links directory.now) image.now }
{
    let mut file = [0u8; 256];
    let size = link_files::load(image, directory, &mut file)?;
    if size < 256 {
        return link_checks::check_file(image, directory, &file[..size]);
    }
    check_long(image, directory)
}
