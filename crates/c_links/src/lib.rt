// The link list of a directory as C gets it (02 §4; `zealfs_c` names the functions for C), numbers for rows, three each: the accession's count of digits, its
// value, the figure. None has a `requires`: whatever the bytes, a function returns the code of the list's answer and leaves images and numbers as it says.
#![tactic(auto)]

ghost use Rattle.std.specs.Prelude.{◌≡◌};
ghost use Rattle.link_list.specs.Links.{read_links, write_links, find_link, check_links, link_answer, link_after};
ghost use Rattle.link_judge.specs.Judged.{rows_of};
ghost use Rattle.link_looks.specs.Looks.{numbers_after};
ghost use Rattle.link_codes.specs.Codes.{link_code_of};
ghost use Rattle.codes.specs.Outs.{number_out, figure_out};

// Reads the rows to the front of the numbers. out: how many rows.
pub fn read(image: &[u8], directory: &[u8], numbers: &mut [u64], out: &mut [u64; 1]) -> u64
    ensures value { result ≡ link_code_of (link_answer (read_links directory.now (rows_of numbers.old)) image.now) }
    ensures out_after { out.new ≡ number_out (link_answer (read_links directory.now (rows_of numbers.old)) image.now) }
    ensures numbers_after { numbers.new ≡ numbers_after directory.now image.now numbers.old }
{
    match links::read(image, directory, numbers) {
        Ok(rows) => {
            *out = [rows as u64];
            0
        }
        Err(r) => {
            *out = [0];
            link_codes::code(r)
        }
    }
}

// Writes the rows in the place of any that were there, with a new date.
pub fn write(image: &mut [u8], directory: &[u8], date: &[u8], numbers: &[u64]) -> u64
    ensures value { result ≡ link_code_of (link_answer (write_links directory.now date.now (rows_of numbers.now)) image.old) }
    ensures image_after { image.new ≡ link_after (write_links directory.now date.now (rows_of numbers.now)) image.old }
{
    link_codes::done_code(links::write(image, directory, date, numbers))
}

// out: 1 if the accession has a row, its figure.
pub fn find(image: &[u8], directory: &[u8], count: u64, value: u64, out: &mut [u64; 2]) -> u64
    ensures value { result ≡ link_code_of (link_answer (find_link directory.now count value) image.now) }
    ensures out_after { out.new ≡ figure_out (link_answer (find_link directory.now count value) image.now) }
{
    match links::find(image, directory, count, value) {
        Ok(Some(figure)) => {
            *out = [1, figure];
            0
        }
        Ok(None) => {
            *out = [0, 0];
            0
        }
        Err(r) => {
            *out = [0; 2];
            link_codes::code(r)
        }
    }
}

// Checks that every row names a file of the directory.
pub fn check(image: &[u8], directory: &[u8]) -> u64
    ensures { result ≡ link_code_of (link_answer (check_links directory.now) image.now) }
{
    link_codes::done_code(links::check(image, directory))
}
