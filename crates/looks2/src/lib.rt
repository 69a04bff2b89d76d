// Two calls that look at a cartridge of version 2 (paper 02 §12): verdict and find; list stands in `listed2`, read in `reads2`. Neither has a `requires`: whatever
// the bytes, a call answers what the model's `answer` says of version 2. The image is lent for reading.
#![tactic(auto)]

ghost use Rattle.std.specs.Prelude.{◌≡◌};
ghost use Rattle.model.specs.Call.{verdict, find};
ghost use Rattle.model.specs.MeaningOf.{answer};
ghost use Rattle.model2.specs.Calls.{v2};
ghost use Rattle.answers2.specs.Answers.{verdict_answer, find_answer};

use outcomes::{Counts, Found, Kind};
use paths::Place;
use refusals2::Refusal;

// Whether the image is sound; every other call but format asks this first.
#[tactic(auto, using(crate::proofs::Verdicts::judged_told, crate::proofs::Verdicts::judged_refused))]
pub fn verdict(image: &[u8]) -> Result<Counts, Refusal>
    ensures { verdict_answer result ≡ answer v2 verdict image.now }
{
    let judged = judge2::judge_image(image)?;
    Ok(Counts {
        pages: judged.cartridge.pages,
        free: judged.free,
    })
}

// Kind, size, lock and date of what a path leads to; a directory's size is that of a page. The root has no entry; its date is zeros.
pub fn find(image: &[u8], path: &[u8]) -> Result<Found, Refusal>
    ensures { find_answer result ≡ answer v2 (find path.now) image.now }
{
    let arrived = places2::arrive(image, path)?;
    let size = arrived.cartridge.shape.size;
    match arrived.place {
        Place::Root => Ok(Found {
            kind: Kind::Directory,
            size,
            date: [0u8; 8],
        }),
        Place::File(target) => {
            let locked = fields::is_locked(image, target.entry);
            let date = fields2::date_of(image, target.entry);
            Ok(Found {
                kind: Kind::File { locked },
                size: target.size,
                date,
            })
        }
        Place::Directory(target) => {
            let date = fields2::date_of(image, target.entry);
            Ok(Found {
                kind: Kind::Directory,
                size,
                date,
            })
        }
    }
}
