// What was made on both sides.
use ledger_book::{Answers, Page, Refusal};
use longrun_draws::{Lengths, Request};

// Both numbers, where the sides differ or something is not as it must be.
#[derive(Clone, Copy)]
pub struct Difference {
    pub of_library: u64,
    pub of_ledger: u64,
}

// The number that the library returned, and the difference, if there is one. A number and no `Refusal` (d): what a side returns is compared
// and shown, also where no refusal has it.
#[derive(Clone, Copy)]
pub struct Verdict {
    pub number: u64,
    pub difference: Option<Difference>,
}

impl Verdict {
    pub fn new(of_library: u64, of_ledger: u64, agree: bool) -> Verdict {
        let difference = Difference {
            of_library,
            of_ledger,
        };
        Verdict {
            number: of_library,
            difference: (!agree).then_some(difference),
        }
    }

    pub fn is_accepted(&self) -> bool {
        self.number == 0
    }

    pub fn is_refused_by(&self, refusal: Refusal) -> bool {
        self.number == refusal as u64
    }
}

// A call: the image that it found, the one that it left, and the library's answer.
#[derive(Drop)]
pub struct Made {
    pub request: Request,
    pub before: Page,
    pub after: Page,
    pub answer: Page,
    pub verdict: Verdict,
}

// A table of calls, with the library's answers, and whether its calls by themselves say that the image is bad.
#[derive(Drop)]
pub struct MadeTable {
    pub lengths: Lengths,
    pub bad_image: bool,
    pub answers: Answers,
    pub verdict: Verdict,
}

// The figures of shortfalls, asked for with so many bytes of the image and of a buffer for figures; they are the library's.
#[derive(Drop)]
pub struct Asked {
    pub image_length: u64,
    pub room: u64,
    pub figures: Page,
    pub verdict: Verdict,
}
