// Makes the sample image by the library's own calls and writes it to standard output: paper 01's example of a listing,
// /0042 of 256 bytes, the directory /A, and /A/7 of 0 bytes, on 2,048 bytes.
#![tactic(auto)]

use fields::Position;
use refusals::Refusal;
use std::io::{self, Write};

// The bytes 0 to 255 in order.
fn counted() -> [u8; 256] {
    let mut bytes = [0u8; 256];
    for (byte, number) in bytes.iter_mut().zip(0u8..=255) {
        *byte = number;
    }
    bytes
}

fn make_sample(image: &mut [u8]) -> Result<(), Refusal> {
    // 7 November 2026, a Saturday, at noon
    let date = [0x20, 0x26, 0x11, 0x07, 0x07, 0x12, 0x00, 0x00];
    zealfs::format(image)?;
    zealfs::make_file(image, b"/0042", &date)?;
    zealfs::write(image, b"/0042", Position(0), &counted())?;
    zealfs::make_directory(image, b"/A", &date)?;
    zealfs::make_file(image, b"/A/7", &date)
}

fn main(rt: HostRuntime) -> io::Result<()> {
    let mut image = [0u8; 2048];
    if make_sample(&mut image).is_err() {
        return Err(io::Error::other("a call on the sample image was refused"));
    }
    rt.stdout().write_all(&image)
}
