// Lists one image: reads it from standard input and writes its listing to standard output, a window at a time.
#![tactic(auto)]

ghost use Rattle.std.specs.Prelude.{◌<◌, ◌≤◌, IfOk, length, take};
ghost use Rattle.std.specs.Io.KnownBytes.{Consumes, IsAtEnd};

use std::io;

// Reads until the buffer is full or the input ends, and answers how many bytes came. They stand at the front of the buffer.
fn read_full<R: io::Read>(input: &mut R, buffer: &mut [u8]) -> io::Result<usize>
    ensures within { IfOk result (λ n. n ≤ length buffer.new) }
    ensures bytes { IfOk result
        (λ n. Consumes (R.remaining input.old) (R.remaining input.new) (take n buffer.new)) }
    ensures end { IfOk result (λ n. n < length buffer.new → IsAtEnd (R.remaining input.new)) }
{
    let mut done = 0;
    while done < buffer.len() {
        let n = input.read(&mut buffer[done..])?;
        if n == 0 {
            return Ok(done);
        }
        done += n;
    }
    Ok(done)
}

// Writes the window of the listing from byte `from` on, and answers whether more may follow: the window was full.
fn write_part<W: io::Write>(out: &mut W, image: &[u8], from: usize) -> io::Result<bool> {
    let mut part = [0u8; 65536];
    let n = listing_text::listing_part(image, from, &mut part);
    out.write_all(&part[..n])?;
    Ok(n == 65536)
}

// A proved loop has to end: no listing is as long as so many windows, and `from` does not wrap.
fn write_all_parts<W: io::Write>(out: &mut W, image: &[u8]) -> io::Result<()> {
    for window in 0..0x100_0000_0000 {
        if !write_part(out, image, window * 65536)? {
            break;
        }
    }
    Ok(())
}

// A byte more than an image may have is read, so longer input has no allowed length.
fn main(rt: HostRuntime) -> io::Result<()> {
    let mut image = [0u8; 65537];
    let got = read_full(&mut rt.stdin(), &mut image)?;
    write_all_parts(&mut rt.stdout(), &image[..got])
}
