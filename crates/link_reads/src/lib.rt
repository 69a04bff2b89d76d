// A file LINKS read and searched once its bytes are there (02 §4), over a slice of numbers, three a row: the file is judged whole, then its rows are put
// at the front of the numbers, or one accession is looked for.
#![tactic(auto)]

ghost use Rattle.std.specs.Prelude.{◌≡◌};
ghost use Rattle.link_answers.specs.Answers.{read_told, find_told};
ghost use Rattle.link_reads.specs.Reads.{read_in, numbers_in, find_in};

use link_answers::LinkRefusal;

// The rows of a file put at the front of the numbers.
#[tactic(auto, using(crate::proofs::InFile::read_in_is, crate::proofs::InFile::numbers_in_is))]
pub fn read_file(file: &[u8], numbers: &mut [u64]) -> Result<usize, LinkRefusal>
    ensures result_value { read_told result ≡ read_in file.now numbers.old }
    ensures numbers_after { numbers.new ≡ numbers_in file.now numbers.old }
{
    let rows = link_rows::judge_file(file)?;
    if numbers.len() / 3 < rows {
        return Err(LinkRefusal::ListTooShort);
    }
    link_rows::place_numbers(file, rows, numbers);
    Ok(rows)
}

// The figure of an accession in a file.
pub fn find_in_file(file: &[u8], count: u64, value: u64) -> Result<Option<u64>, LinkRefusal>
    ensures { find_told result ≡ find_in file.now count value }
{
    Ok(link_rows::figure_in(file, link_rows::judge_file(file)?, count, value))
}
