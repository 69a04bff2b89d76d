// The numbers of the link list as bytes (02 §4): one read, one put, and the digits of an accession put. What each function answers is said by the
// definitions of `link_list`.
#![tactic(auto)]

ghost use Rattle.std.specs.Prelude.{◌≡◌, ◌+◌, ◌≤◌, ◌<◌, ◌^◌, length, drop};
ghost use Rattle.volume.specs.Bytes.{put};
ghost use Rattle.link_list.specs.Coding.{groups, take_number, accession};
ghost use Rattle.link_numbers.specs.Told.{number_told, NumberFits, Short, joined_to};

// A number and the byte behind it.
#[derive(Clone, Copy)]
pub struct Number {
    pub value: u64,
    pub next: usize,
}

// The seven bits of a byte with more behind it, and 128 times the number there. In the shortest form that one is not 0.
#[tactic(auto, using(crate::proofs::Turns::joins_zero))]
fn joined(byte: u64, rest: Option<Number>) -> Option<Number>
    requires { Short rest }
    ensures { result ≡ joined_to byte rest }
{
    let higher = rest?;
    if higher.value == 0 {
        return None;
    }
    Some(Number {
        value: byte % 128 + 128 * higher.value,
        next: higher.next,
    })
}

// A number of at most so many bytes, the shortest form only.
fn number_from(s: &[u8], at: usize, most: usize) -> Option<Number>
    requires { most ≤ 8 }
    ensures { (number_told s.now result ≡ take_number most (drop at s.now)) × NumberFits s.now most result }
{
    if most == 0 {
        return None;
    }
    let byte = u64::from(*s.get(at)?);
    if byte < 128 {
        return Some(Number {
            value: byte,
            next: at + 1,
        });
    }
    let rest = number_from(s, at + 1, most - 1);
    joined(byte, rest)
}

// The same, for the second byte of a number.
fn number_behind(s: &[u8], at: usize, most: usize) -> Option<Number>
    requires { most ≤ 8 }
    ensures { (number_told s.now result ≡ take_number most (drop at s.now)) × NumberFits s.now most result }
{
    if most == 0 {
        return None;
    }
    let byte = u64::from(*s.get(at)?);
    if byte < 128 {
        return Some(Number {
            value: byte,
            next: at + 1,
        });
    }
    let rest = number_from(s, at + 1, most - 1);
    joined(byte, rest)
}

// The same. The first two bytes, and nearly no number has more, are read by functions that do not call themselves: the back end puts those in the place of
// their call, so that where the next number begins is not told through memory, which would have to be waited for.
pub fn number_at(s: &[u8], at: usize, most: usize) -> Option<Number>
    requires { most ≤ 8 }
    ensures { (number_told s.now result ≡ take_number most (drop at s.now)) × NumberFits s.now most result }
{
    if most == 0 {
        return None;
    }
    let byte = u64::from(*s.get(at)?);
    if byte < 128 {
        return Some(Number {
            value: byte,
            next: at + 1,
        });
    }
    let rest = number_behind(s, at + 1, most - 1);
    joined(byte, rest)
}

// A number in its shortest form, put at a byte; the byte behind it.
pub fn put_number(bytes: &mut [u8], at: usize, number: u64) -> usize
    requires { (at + 8 ≤ length bytes.old) × (number < 128 ^ 8) }
    ensures value { result ≡ at + length (groups 8 number) }
    ensures bytes_after { bytes.new ≡ put at (groups 8 number) bytes.old }
{
    let mut rest = number;
    let mut place = at;
    while 128 <= rest {
        bytes[place] = (128 + rest % 128) as u8;
        rest /= 128;
        place += 1;
    }
    bytes[place] = rest as u8;
    place + 1
}

// The digits of an accession, exactly so many, put at a byte.
pub fn put_digits(bytes: &mut [u8], at: usize, count: usize, value: u64)
    requires { at + count ≤ length bytes.old }
    ensures { bytes.new ≡ put at (accession count value) bytes.old }
{
    let mut rest = value;
    for left in (0..count).rev() {
        bytes[at + left] = (48 + rest % 10) as u8;
        rest /= 10;
    }
}
