// The rows of the link list as bytes (02 §4): rows read from a file and written to one, and a file judged, over slices of bytes and of numbers, three
// a row. What each function answers is said by the definitions of `link_list`.
#![tactic(auto)]

ghost use Rattle.std.specs.Prelude.{◌≡◌, ◌+◌, ◌*◌, ◌≤◌, true, length, drop};
ghost use Rattle.std.proofs.Math.Option.{none};
ghost use Rattle.volume.specs.Bytes.{put};
ghost use Rattle.link_list.specs.Coding.{in_range, row_bytes, take_row, file_of};
ghost use Rattle.link_list.specs.Judging.{read_list, bad_row};
ghost use Rattle.link_list.specs.Links.{figure_of, is_accession};
ghost use Rattle.link_judge.specs.Judged.{rows_of};
ghost use Rattle.link_rows.specs.Told.{row_told, RowFits, step_at, steps_from, numbers_of, file_told, counted, figure_told, Packs};

use link_judge::RowFault;
use link_list::Row;

// A row and where the next one begins.
#[derive(Clone, Copy)]
pub struct Step {
    pub row: Row,
    pub next: usize,
}

// The row that begins at a byte.
pub fn row_at(s: &[u8], at: usize) -> Option<Step>
    ensures { (row_told s.now result ≡ take_row (drop at s.now)) × RowFits s.now result }
{
    let count = link_numbers::number_at(s, at, 8)?;
    let value = link_numbers::number_at(s, count.next, 8)?;
    let figure = link_numbers::number_at(s, value.next, 8)?;
    let row = Row {
        count: count.value,
        value: value.value,
        figure: figure.value,
    };
    if !link_judge::in_range(row) {
        return None;
    }
    Some(Step {
        row,
        next: figure.next,
    })
}

// The row that begins at a byte, for a file that was judged; where there is none, a row of zeros at the same byte.
pub fn row_from(s: &[u8], at: usize) -> Step
    ensures { result ≡ step_at s.now at }
{
    row_at(s, at).unwrap_or(Step {
        row: link_judge::no_row(),
        next: at,
    })
}

// A file is judged whole: so many rows, or the first bad one, a broken one by the byte at which it begins.
pub fn judge_file(file: &[u8]) -> Result<usize, RowFault>
    ensures { file_told result ≡ counted 0 (read_list file.now) }
{
    let mut at = 0;
    let mut i = 0;
    let mut last = None;
    while at < file.len() {
        let step = row_at(file, at).ok_or(RowFault::Broken(at))?;
        if !link_judge::follows(last, step.row) {
            return Err(RowFault::NotAbove(i));
        }
        last = Some(step.row);
        at = step.next;
        i += 1;
    }
    Ok(i)
}

// So many rows of a file that was judged, three numbers each; what stands past them is kept.
pub fn place_numbers(file: &[u8], count: usize, numbers: &mut [u64])
    requires { 3 * count ≤ length numbers.old }
    ensures { numbers.new ≡ put 0 (numbers_of (steps_from file.now count 0)) numbers.old }
{
    let mut at = 0;
    for i in 0..count {
        let step = row_from(file, at);
        numbers[3 * i] = step.row.count;
        numbers[3 * i + 1] = step.row.value;
        numbers[3 * i + 2] = step.row.figure;
        at = step.next;
    }
}

fn is_accession(row: Row, count: u64, value: u64) -> bool
    ensures { result ≡ is_accession count value row }
{
    row.count == count && row.value == value
}

// The figure of an accession, if one of the first rows of a file that was judged has it.
pub fn figure_in(file: &[u8], rows: usize, count: u64, value: u64) -> Option<u64>
    ensures { figure_told result ≡ figure_of count value (steps_from file.now rows 0) }
{
    let mut at = 0;
    for _ in 0..rows {
        let step = row_from(file, at);
        if is_accession(step.row, count, value) {
            return Some(step.row.figure);
        }
        at = step.next;
    }
    None
}

// A row that may be written, put at a byte; the byte behind it. Each of its numbers has at most 8 bytes.
pub fn put_row(bytes: &mut [u8], at: usize, row: Row) -> usize
    requires { (at + 24 ≤ length bytes.old) × (in_range row ≡ true) }
    ensures value { result ≡ at + length (row_bytes row) }
    ensures bytes_after { bytes.new ≡ put at (row_bytes row) bytes.old }
{
    let behind_count = link_numbers::put_number(bytes, at, row.count);
    let behind_value = link_numbers::put_number(bytes, behind_count, row.value);
    link_numbers::put_number(bytes, behind_value, row.figure)
}

// The file of a list that may be written, put at the front of the bytes: how many bytes it has, or none where it is within 24 of being too long for them.
pub fn pack_numbers(numbers: &[u64], bytes: &mut [u8]) -> Option<usize>
    requires { bad_row (rows_of numbers.now) ≡ none }
    ensures { Packs (file_of (rows_of numbers.now)) bytes.old bytes.new result }
{
    let mut at = 0;
    for i in 0..numbers.len() / 3 {
        if bytes.len() - at < 24 {
            return None;
        }
        at = put_row(bytes, at, link_judge::row_of(numbers, i));
    }
    Some(at)
}
