// Words of up to 64 bits: their bytes read from a position on, bit j of the word being bit j mod 8 of the j div 8-th byte; their ones and zeros counted, and
// the lowest zero found. What a bit stands for is no matter of this crate.
#![tactic(auto)]

ghost use Rattle.std.specs.Prelude.{◌≡◌, ◌+◌, ◌%◌, ◌^◌, ◌<◌, ◌≤◌, length};
ghost use Rattle.std.specs.Int.Count.{ones};
ghost use Rattle.words.specs.Words.{Holds, Ends};

// The value of bit k.
pub fn weight(k: usize) -> usize
    requires { k < 64 }
    ensures { result ≡ 2 ^ k }
{
    1 << k
}

fn bits16(image: &[u8], at: usize) -> usize
    requires { at + 2 ≤ length image.now }
    ensures { Holds image.now at 16 result × (result < 65536) }
{
    usize::from(image[at]) + 256 * usize::from(image[at + 1])
}

fn bits32(image: &[u8], at: usize) -> usize
    requires { at + 4 ≤ length image.now }
    ensures { Holds image.now at 32 result × (result < 4294967296) }
{
    bits16(image, at) + 65536 * bits16(image, at + 2)
}

pub fn bits64(image: &[u8], at: usize) -> usize
    requires { at + 8 ≤ length image.now }
    ensures { Holds image.now at 64 result }
{
    bits32(image, at) + 4294967296 * bits32(image, at + 4)
}

fn one_bits(word: usize) -> usize
    ensures { (result ≡ ones word) × (result ≤ 64) }
{
    word.count_ones() as usize
}

// The zeros among the lowest k bits of a word, as what the ones leave of k.
pub fn zeros_among(word: usize, k: usize) -> usize
    requires { k ≤ 64 }
    ensures { result + ones (word % 2 ^ k) ≡ k }
{
    if k == 64 {
        return 64 - one_bits(word);
    }
    k - one_bits(word % weight(k))
}

// The place of a word's lowest zero, 64 if there is none: the zeros of its complement end there.
pub fn lowest_zero(word: usize) -> usize
    ensures { Ends 64 word result }
{
    (!word).trailing_zeros() as usize
}
