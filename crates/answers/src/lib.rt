// The answers of all calls: a place, or a refusal with its code and place, and both in one number; and why the check refuses a sheet.
#![tactic(auto)]

ghost use Rattle.std.specs.Prelude.{◌≡◌, ◌<◌};
ghost use Rattle.answers.specs.Answers.{in_one, packed, code_of_result, place_of_result};
ghost use Rattle.answers.specs.Results.{code_number, refusal_of, answer_of};
ghost use Rattle.answers.specs.Searches.{place_bound};

// The places that a code has: a result is code * PLACES + place.
const PLACES: u64 = 4294967296;

// The codes of refusals (docs/SHEETS.md, "Codes").
#[derive(Clone, Copy, Debug, PartialEq, Eq)]
pub enum Code {
    SheetLength = 1,
    SheetHeader = 2,
    SheetRecord = 3,
    SheetNaming = 4,
    SheetType = 5,
    SheetDepth = 6,
    SheetTyping = 7,
    WrongStimulus = 8,
    WrongInput = 9,
    WrongOutputLength = 10,
    WrongNextLength = 11,
    NoFile = 12,
    WrongText = 13,
    WrongName = 14,
    NoRoom = 15,
    WrongWords = 16,
    WrongRecordedLength = 17,
    NewSheetRefused = 18,
    LabelTwice = 19,
    TooManyInputs = 20,
    NoOutputLeaf = 21,
    NotForSets = 22,
}

impl Code {
    pub fn number(self) -> u64
        ensures { result ≡ code_number self }
    {
        self as u64
    }
}

// Why a call is refused, and where.
#[derive(Clone, Copy, Debug, PartialEq, Eq)]
pub struct Refusal {
    pub code: Code,
    pub place: u32,
}

// The answer of a call: the place that it gives, or a refusal.
pub type Answer = Result<u32, Refusal>;

// Why the check refuses a sheet; each case but the first two holds the record at fault.
#[derive(Clone, Copy, Debug, PartialEq, Eq)]
pub enum Fault {
    WrongLength,
    WrongHeader,
    WrongRecord(u32),
    WrongNaming(u32),
    WrongType(u32),
    TooDeep(u32),
    IllTyped(u32),
}

// The answer of the check: the output type's record, or a fault.
pub type Verdict = Result<usize, Fault>;

impl From<Fault> for Refusal {
    ghost from_gives = { λ fault r. r ≡ refusal_of fault };

    fn from(fault: Fault) -> Refusal {
        match fault {
            Fault::WrongLength => Refusal {
                code: Code::SheetLength,
                place: 0,
            },
            Fault::WrongHeader => Refusal {
                code: Code::SheetHeader,
                place: 0,
            },
            Fault::WrongRecord(place) => Refusal {
                code: Code::SheetRecord,
                place,
            },
            Fault::WrongNaming(place) => Refusal {
                code: Code::SheetNaming,
                place,
            },
            Fault::WrongType(place) => Refusal {
                code: Code::SheetType,
                place,
            },
            Fault::TooDeep(place) => Refusal {
                code: Code::SheetDepth,
                place,
            },
            Fault::IllTyped(place) => Refusal {
                code: Code::SheetTyping,
                place,
            },
        }
    }
}

// A code and a place in one number.
pub fn in_one(code: u64, place: u64) -> u64
    requires { (code < 256) × (place < place_bound) }
    ensures { result ≡ in_one code place }
{
    code * PLACES + place
}

// The code and the place of an answer in one number.
pub fn packed(answer: Answer) -> u64
    ensures { result ≡ packed (answer_of answer) }
{
    match answer {
        Ok(place) => u64::from(place),
        Err(refusal) => in_one(refusal.code.number(), u64::from(refusal.place)),
    }
}

// The code of a result, and its place: what `in_one` put together.
pub fn code_of(res: u64) -> u64
    ensures { result ≡ code_of_result res }
{
    res / PLACES
}

pub fn place_of(res: u64) -> u64
    ensures { result ≡ place_of_result res }
{
    res % PLACES
}
