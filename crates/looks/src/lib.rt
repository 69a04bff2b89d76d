// Two calls that look: verdict and find; list stands in `listed`, read in `reads`. Neither has a `requires`: whatever the bytes, a call answers what the
// model's `answer` says. The image is lent for reading.
#![tactic(auto)]

ghost use Rattle.std.specs.Prelude.{◌≡◌};
ghost use Rattle.model.specs.Call.{verdict, find};
ghost use Rattle.model.specs.Meaning.{answer};
ghost use Rattle.answers.specs.Answers.{verdict_answer, find_answer};

use outcomes::{Counts, Found, Kind};
use paths::Place;
use refusals::Refusal;

// Whether the image is sound; every other call but format asks this first.
#[tactic(auto, using(crate::proofs::Verdicts::judged_told))]
pub fn verdict(image: &[u8]) -> Result<Counts, Refusal>
    ensures { verdict_answer result ≡ answer verdict image.now }
{
    judge::judge_image(image)
}

// Kind, size, lock and date of what a path leads to. The root has no entry; its date is zeros.
pub fn find(image: &[u8], path: &[u8]) -> Result<Found, Refusal>
    ensures { find_answer result ≡ answer (find path.now) image.now }
{
    match places::arrive(image, path)? {
        Place::Root => {
            Ok(Found {
                kind: Kind::Directory,
                size: 256,
                date: [0u8; 8],
            })
        }
        Place::File(target) => {
            let locked = fields::is_locked(image, target.entry);
            Ok(Found {
                kind: Kind::File { locked },
                size: target.size,
                date: fields::date_of(image, target.entry),
            })
        }
        Place::Directory(target) => {
            Ok(Found {
                kind: Kind::Directory,
                size: 256,
                date: fields::date_of(image, target.entry),
            })
        }
    }
}
