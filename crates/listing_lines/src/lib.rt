// The lines of a listing (01, "At the bench") poured into a window piece by piece: bytes, numbers in decimal, and whole lines.
// A function says which text it pours, by the definitions of the model's `Listing`; what the window then holds says `poured` of specs/.
#![tactic(auto)]

ghost use Rattle.std.specs.Prelude.{◌≡◌, [], ◌∷◌, ◌++◌};
ghost use Rattle.model.specs.Text.{text};
ghost use Rattle.model.specs.Listing.{digits, decimal, newline, line};
ghost use Rattle.listing_lines.specs.Window.{window, poured};

// How far a window is: so many bytes of the text are still to be skipped, and so many stand in the buffer.
#[derive(Clone, Copy)]
pub struct Sink {
    pub skip: usize,
    pub done: usize,
}

// A piece before or behind the window costs no copy. Nothing is asked of the sink, so a full buffer is no special case for a caller.
pub fn pour(out: &mut [u8], sink: Sink, piece: &[u8]) -> Sink
    ensures { window result out.new ≡ poured piece.now (window sink out.old) }
{
    let skip = sink.skip;
    let done = sink.done;
    if piece.len() <= skip {
        return Sink {
            skip: skip - piece.len(),
            done,
        };
    }
    if out.len() <= done {
        return Sink { skip: 0, done };
    }
    let count = (piece.len() - skip).min(out.len() - done);
    let end = skip + count;
    pages::copy_in(out, done, &piece[skip..end]);
    Sink {
        skip: 0,
        done: done + count,
    }
}

pub fn pour_byte(out: &mut [u8], sink: Sink, byte: u8) -> Sink
    ensures { window result out.new ≡ poured (byte ∷ []) (window sink out.old) }
{
    let piece = [byte];
    pour(out, sink, &piece)
}

// The number in decimal, in at most so many digits: the higher ones come first.
fn pour_digits(out: &mut [u8], sink: Sink, places: usize, n: usize) -> Sink
    ensures { window result out.new ≡ poured (digits places n) (window sink out.old) }
{
    if places == 0 {
        return sink;
    }
    let digit = (48 + n % 10) as u8;
    if n < 10 {
        return pour_byte(out, sink, digit);
    }
    let sink = pour_digits(out, sink, places - 1, n / 10);
    pour_byte(out, sink, digit)
}

pub fn pour_decimal(out: &mut [u8], sink: Sink, n: usize) -> Sink
    ensures { window result out.new ≡ poured (decimal n) (window sink out.old) }
{
    pour_digits(out, sink, 8, n)
}

pub fn pour_line(out: &mut [u8], sink: Sink, kind: u8, size: usize, path: &[u8]) -> Sink
    ensures { window result out.new ≡ poured (line (kind ∷ []) size path.now) (window sink out.old) }
{
    let sink = pour_byte(out, sink, kind);
    let sink = pour_byte(out, sink, b' ');
    let sink = pour_decimal(out, sink, size);
    let sink = pour_byte(out, sink, b' ');
    let sink = pour(out, sink, path);
    pour_byte(out, sink, b'\n')
}

// The first line of a sound image's listing.
pub fn pour_counts(out: &mut [u8], sink: Sink, pages: usize, free: usize) -> Sink
    ensures { window result out.new ≡
        poured (text "pages " ++ decimal pages ++ text " free " ++ decimal free ++ newline) (window sink out.old) }
{
    let sink = pour(out, sink, b"pages ");
    let sink = pour_decimal(out, sink, pages);
    let sink = pour(out, sink, b" free ");
    let sink = pour_decimal(out, sink, free);
    pour_byte(out, sink, b'\n')
}
