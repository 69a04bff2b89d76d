// Dates of entries: century, year in century, month, day, weekday, hour, minute and second, each a byte of two BCD digits.
// Every function answers what the model says of the bytes and changes none; the public one answers for any bytes.
#![tactic(auto)]

ghost use Rattle.std.specs.Prelude.{◌≡◌, ◌<◌, length};
ghost use Rattle.volume.specs.Lists.{all};
ghost use Rattle.model.specs.Date.{is_bcd, bcd, between, is_leap, days_in, year_of, good_date};
ghost use Rattle.dates.specs.Parts.{good_day, good_time};

// Both half bytes are decimal digits.
#[tactic(auto, using(crate::proofs::Digits::high_wrong, crate::proofs::Digits::high_right))]
fn is_bcd(x: u8) -> bool
    ensures { result ≡ is_bcd x }
{
    if 9 < x / 16 {
        return false;
    }
    x % 16 <= 9
}

fn all_bcd(date: &[u8]) -> bool
    ensures { result ≡ all is_bcd date.now }
{
    date.iter().all(|x| is_bcd(*x))
}

// The number that two digits mean; half bytes above 9 count alike. The bound is for the sum of a year.
fn bcd(x: u8) -> usize
    ensures { (result ≡ bcd x) × (result < 256) }
{
    let digits = usize::from(x);
    digits / 16 * 10 + digits % 16
}

fn bcd_between(low: usize, high: usize, x: u8) -> bool
    ensures { result ≡ between low high (bcd x) }
{
    let number = bcd(x);
    if number < low {
        return false;
    }
    number <= high
}

// Divisible by 4, and not by 100 unless by 400.
fn is_leap(year: usize) -> bool
    ensures { result ≡ is_leap year }
{
    if year % 4 != 0 {
        return false;
    }
    if year % 100 != 0 {
        return true;
    }
    year % 400 == 0
}

// Any number that is no month has 31 days, as in the model.
fn days_in(year: usize, month: usize) -> usize
    ensures { result ≡ days_in year month }
{
    match month {
        2 => if is_leap(year) { 29 } else { 28 },
        4 | 6 | 9 | 11 => 30,
        _ => 31,
    }
}

fn year_of(date: &[u8]) -> usize
    requires { length date.now ≡ 8 }
    ensures { result ≡ year_of date.now }
{
    bcd(date[0]) * 100 + bcd(date[1])
}

// The month first: `days_in` is asked of months 1 to 12 alone.
fn is_day(date: &[u8]) -> bool
    requires { length date.now ≡ 8 }
    ensures { result ≡ good_day date.now }
{
    if !bcd_between(1, 12, date[2]) {
        return false;
    }
    let last = days_in(year_of(date), bcd(date[2]));
    bcd_between(1, last, date[3])
}

fn is_time(date: &[u8]) -> bool
    requires { length date.now ≡ 8 }
    ensures { result ≡ good_time date.now }
{
    if !bcd_between(0, 23, date[5]) {
        return false;
    }
    if !bcd_between(0, 59, date[6]) {
        return false;
    }
    bcd_between(0, 59, date[7])
}

// The weekday is any two digits: nothing compares it with the day.
pub fn good_date(date: &[u8]) -> bool
    ensures { result ≡ good_date date.now }
{
    if date.len() != 8 {
        return false;
    }
    if !all_bcd(date) {
        return false;
    }
    if !is_day(date) {
        return false;
    }
    is_time(date)
}
