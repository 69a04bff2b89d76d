// What the calls of the link list answer (02 §4): `Answers` has the model's answer that a result stands for.
#![tactic(auto)]

ghost use Rattle.std.specs.Prelude.{◌≡◌};
ghost use Rattle.link_answers.specs.Answers.{row_refused};
ghost use Rattle.link_answers.specs.declared.LinkRefusal.TheVariants.{Base};

use link_judge::RowFault;
use refusals::Refusal;

// Why a call says no: the base's own refusal, or one of the link list's.
#[derive(Clone, Copy)]
pub enum LinkRefusal {
    Base(Refusal),
    // 21: a broken row. In reading the byte of the file at which it begins, in writing its number.
    BrokenRow(usize),
    // 22: a row that is not above the one before; its number.
    NotAbove(usize),
    // 24: the list is too short for the rows.
    ListTooShort,
    // 23: a row without a file; its number.
    NoFile(usize),
}

impl From<Refusal> for LinkRefusal {
    ghost from_gives = { λ refusal r. r ≡ Base refusal };

    fn from(refusal: Refusal) -> LinkRefusal {
        Self::Base(refusal)
    }
}

impl From<RowFault> for LinkRefusal {
    ghost from_gives = { λ fault r. r ≡ row_refused fault };

    fn from(fault: RowFault) -> LinkRefusal {
        match fault {
            RowFault::Broken(at) => Self::BrokenRow(at),
            RowFault::NotAbove(i) => Self::NotAbove(i),
        }
    }
}
