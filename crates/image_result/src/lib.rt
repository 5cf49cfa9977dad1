// What reading or writing an image comes to, with document 01's numbers and places ("Refused because of the input").
#![tactic(auto)]

ghost use Rattle.std.specs.Prelude.{◌≡◌, Err};
ghost use Rattle.image_result.specs.ImageResult.{result_number, result_place};

// Done, or a refusal.
pub type ImageResult = Result<(), ImageFault>;

// Document 01's number of what reading or writing an image comes to; 0 where it is done.
pub fn number(outcome: ImageResult) -> u32
    ensures { result ≡ result_number outcome }
{
    outcome.err().map_or(0, |fault| fault.number())
}

// The place that document 01 names in brackets; 0 where it is done.
pub fn place(outcome: ImageResult) -> usize
    ensures { result ≡ result_place outcome }
{
    outcome.err().map_or(0, |fault| fault.place())
}

// A refusal with its place.
#[derive(Clone, Copy)]
pub enum ImageFault {
    EndsEarly(usize),
    NotShortest(usize),
    OutOfRange(usize),
    LeftOver(usize),
    NoRoom(usize),
    // 21: a landing count or a landing block
    BadLanding(usize),
}

impl ImageFault {
    // Document 01's number of a refusal.
    pub fn number(self) -> u32
        ensures { result ≡ result_number (Err self) }
    {
        match self {
            ImageFault::EndsEarly(_) => 1,
            ImageFault::NotShortest(_) => 2,
            ImageFault::OutOfRange(_) => 3,
            ImageFault::LeftOver(_) => 4,
            ImageFault::NoRoom(_) => 14,
            ImageFault::BadLanding(_) => 21,
        }
    }

    // The place that document 01 names in brackets.
    pub fn place(self) -> usize
        ensures { result ≡ result_place (Err self) }
    {
        match self {
            ImageFault::EndsEarly(place)
            | ImageFault::NotShortest(place)
            | ImageFault::OutOfRange(place)
            | ImageFault::LeftOver(place)
            | ImageFault::NoRoom(place)
            | ImageFault::BadLanding(place) => place,
        }
    }
}
