// The rows of the link list judged (02 §4): the range of a row, the order of two, and a list that is to be written, over a slice of numbers, three a
// row. What each function answers is said by the definitions of `link_list`.
#![tactic(auto)]

ghost use Rattle.std.specs.Prelude.{◌≡◌, ◌+◌, ◌*◌, ◌≤◌, ◌^◌, length};
ghost use Rattle.link_list.specs.Coding.{in_range, above};
ghost use Rattle.link_list.specs.Judging.{follows, bad_row};
ghost use Rattle.link_judge.specs.Judged.{no_row, before_of, unjudged, judged_next, judged_from, judged_told, list_told, row_numbered, rows_of};

use link_list::Row;

fn power_of_ten(k: u64) -> u64
    requires { k ≤ 16 }
    ensures { result ≡ 10 ^ k }
{
    if k == 0 {
        return 1;
    }
    10 * power_of_ten(k - 1)
}

// The numbers of a row are such as a list may hold.
pub fn in_range(row: Row) -> bool
    ensures { result ≡ in_range row }
{
    let count = row.count;
    if count < 1 {
        return false;
    }
    if 16 < count {
        return false;
    }
    if power_of_ten(count) <= row.value {
        return false;
    }
    row.figure < 0x1_0000_0000
}

pub fn no_row() -> Row
    ensures { result ≡ no_row }
{
    Row {
        count: 0,
        value: 0,
        figure: 0,
    }
}

fn is_above(low: Row, high: Row) -> bool
    ensures { result ≡ above low high }
{
    if low.count < high.count {
        return true;
    }
    if low.count != high.count {
        return false;
    }
    low.value < high.value
}

// The row is above the last one, if there was any.
#[tactic(auto, unfolding(link_list::specs::Judging::follows))]
pub fn follows(last: Option<Row>, row: Row) -> bool
    ensures { result ≡ follows (before_of last) row }
{
    last.is_none_or(|low| is_above(low, row))
}

// What is wrong with a row: a number out of range, or it is not above the one before. By its number, or in a file that is read the first by the byte at
// which it begins.
#[derive(Clone, Copy)]
pub enum RowFault {
    Broken(usize),
    NotAbove(usize),
}

// How far a list is judged that is to be written: its first fault, and the row before the next.
#[derive(Clone, Copy)]
pub struct Judged {
    pub fault: Option<RowFault>,
    pub last: Option<Row>,
}

pub fn fresh() -> Judged
    ensures { result ≡ unjudged }
{
    Judged {
        fault: None,
        last: None,
    }
}

// One row more, of number i.
#[tactic(auto, unfolding(crate::specs::Judged::judged_next))]
pub fn judge_row(judged: Judged, i: usize, row: Row) -> Judged
    ensures { result ≡ judged_next judged i row }
{
    if judged.fault.is_some() {
        return judged;
    }
    let last = judged.last;
    if !in_range(row) {
        return Judged {
            fault: Some(RowFault::Broken(i)),
            last,
        };
    }
    if !follows(last, row) {
        return Judged {
            fault: Some(RowFault::NotAbove(i)),
            last,
        };
    }
    Judged {
        fault: None,
        last: Some(row),
    }
}

// Row i of a slice of numbers, three a row.
pub fn row_of(numbers: &[u64], i: usize) -> Row
    requires { 3 * i + 3 ≤ length numbers.now }
    ensures { result ≡ row_numbered numbers.now i }
{
    let count = numbers[3 * i];
    let value = numbers[3 * i + 1];
    let figure = numbers[3 * i + 2];
    Row {
        count,
        value,
        figure,
    }
}

// A list that is to be written is judged whole, also past its first fault.
fn judge_numbers(numbers: &[u64]) -> Judged
    ensures { result ≡ judged_from 0 unjudged (rows_of numbers.now) }
{
    let mut state = fresh();
    for i in 0..numbers.len() / 3 {
        state = judge_row(state, i, row_of(numbers, i));
    }
    state
}

// What a list's judging comes to.
pub fn judgement(judged: Judged) -> Result<(), RowFault>
    ensures { list_told result ≡ judged_told judged }
{
    match judged.fault {
        None => Ok(()),
        Some(fault) => Err(fault),
    }
}

// The first bad row of a list that is to be written, if there is one.
pub fn judge_list(numbers: &[u64]) -> Result<(), RowFault>
    ensures { list_told result ≡ bad_row (rows_of numbers.now) }
{
    judgement(judge_numbers(numbers))
}
