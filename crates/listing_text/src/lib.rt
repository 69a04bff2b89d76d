// The listing of an image (01, "At the bench"), a window at a time: there is no heap, and a listing may be megabytes long.
// The public function has no `requires`. A private one that writes text says which, by the definitions of the model's `Listing`;
// what the window then holds says `poured` of `listing_lines`.
#![tactic(auto)]

ghost use Rattle.std.specs.Prelude.{◌≡◌, ◌++◌, length, T};
ghost use Rattle.volume.specs.Bytes.{put};
ghost use Rattle.model.specs.Layout.{page_count};
ghost use Rattle.model.specs.Sound.{sound};
ghost use Rattle.model.specs.Tree.{free_number};
ghost use Rattle.model.specs.Image.{tree_of};
ghost use Rattle.model.specs.Text.{text};
ghost use Rattle.model.specs.Listing.{decimal, newline, tree_lines, listing};
ghost use Rattle.model.specs.Meaning.{copied};
ghost use Rattle.refusals.specs.Told.{told};
ghost use Rattle.listing_lines.specs.Window.{window, poured};

use fields::Page;
use listing_lines::Sink;
use refusals::Refusal;

fn list_refused(out: &mut [u8], sink: Sink, refusal: Refusal) -> Sink
    ensures { window result out.new ≡
        poured (text "refused " ++ decimal (told refusal).number ++ newline) (window sink out.old) }
{
    let sink = listing_lines::pour(out, sink, b"refused ");
    let sink = listing_lines::pour_decimal(out, sink, usize::from(refusals::number(refusal)));
    listing_lines::pour_byte(out, sink, b'\n')
}

// No directory of a sound image lies deeper than there are pages, of which there are at most 256.
fn list_sound(image: &[u8], pages: usize, free: usize, out: &mut [u8], sink: Sink) -> Sink
    requires { T (sound image.now) × (pages ≡ page_count image.now) × (free ≡ free_number (tree_of image.now)) }
    ensures { window result out.new ≡ poured (tree_lines (tree_of image.now)) (window sink out.old) }
{
    let sink = listing_lines::pour_counts(out, sink, pages, free);
    let mut path = [0u8; 4352];
    listing_rows::list_directory(image, Page(0), pages, &mut path, 0, out, sink)
}

fn list_image(image: &[u8], out: &mut [u8], sink: Sink) -> Sink
    ensures { window result out.new ≡ poured (listing image.now) (window sink out.old) }
{
    match zealfs::verdict(image) {
        Ok(counts) => list_sound(image, counts.pages, counts.free, out, sink),
        Err(refusal) => list_refused(out, sink, refusal),
    }
}

// Copies to the front of `out` the bytes of the image's listing from byte `from` on, as many as there are and as `out` has room for,
// and answers how many.
pub fn listing_part(image: &[u8], from: usize, out: &mut [u8]) -> usize
    ensures { (result ≡ length (copied (listing image.now) from out.old))
        × (out.new ≡ put 0 (copied (listing image.now) from out.old) out.old) }
{
    let sink = Sink {
        skip: from,
        done: 0,
    };
    let listed = list_image(image, out, sink);
    listed.done
}
