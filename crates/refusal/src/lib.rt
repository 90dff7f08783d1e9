// Document 01's refusals: the reasons, their numbers, the one function that makes a refusal, the one that makes the first part of an
// answer, and the answer of a call that fills a lent output.

#![tactic(auto)]

ghost use Rattle.std.specs.Prelude.{◌≡◌};
ghost use Rattle.refusal.specs.Numbers.{number_of, refusal, outcome_of};
ghost use Rattle.refusal.specs.Lengths.{length_answer};

// The reason of a refusal, in the order of document 01's table.
#[derive(Clone, Copy)]
pub enum Reason {
    // The module has over 16,777,216 bytes.
    TooLong,
    // Under 8 bytes, or not DBM0.
    NotAModule,
    // The version or the revision is out of range.
    Version,
    // A chunk's header or data is cut.
    ChunkCut,
    // An identifier is not four letters A to Z.
    Identifier,
    // A covered chunk occurs a second time.
    Repeated,
    // SONG, INST, PATT or SMPL before INFO.
    BeforeInfo,
    // A mandatory chunk is missing.
    Missing,
    // The length of NAME or INFO is wrong.
    FixedLength,
    // A number of INFO is out of range.
    InfoRange,
    // Blocks do not fill the chunk, or the flags of a sample are not 1, 2 or 4.
    Blocks,
    // A playlist entry, a sample or an envelope's instrument does not exist.
    Reference,
    // Another field is out of range.
    FieldRange,
    // A loop lies outside its sample.
    Loop,
    // A packed stream is broken.
    Stream,
    // Rows over 65,535, tracks not even in 4 to 254, or the packer's input is not rows × tracks × 6 bytes.
    Sizes,
    // The output is shorter than needed.
    Room,
    // No such song, entry, instrument, envelope, pattern, sample, frame, row or track.
    NotThere,
    // The number of bytes of new frames is odd.
    OddFrames,
}

// A refusal: document 01's number, and the place. It has the number and not the reason, because the answers for C promise every number.
#[derive(Clone, Copy)]
pub struct Refusal {
    pub number: u8,
    pub place: usize,
}

// The first part of every answer: the refusal's number and place, 0 and 0 if there is none.
#[repr(C)]
#[derive(Clone, Copy)]
pub struct Outcome {
    pub number: u64,
    pub place: usize,
}

// The answer of a call that fills a lent output: the length written, 0 on a refusal.
#[repr(C)]
#[derive(Clone, Copy)]
pub struct LengthAnswer {
    pub outcome: Outcome,
    pub length: usize,
}

impl From<Reason> for u8 {
    // The number of a reason.
    ghost from_gives = { λ reason given. given ≡ number_of reason };

    fn from(reason: Reason) -> u8 {
        match reason {
            Reason::TooLong => 1,
            Reason::NotAModule => 2,
            Reason::Version => 3,
            Reason::ChunkCut => 4,
            Reason::Identifier => 5,
            Reason::Repeated => 6,
            Reason::BeforeInfo => 7,
            Reason::Missing => 8,
            Reason::FixedLength => 9,
            Reason::InfoRange => 10,
            Reason::Blocks => 11,
            Reason::Reference => 12,
            Reason::FieldRange => 13,
            Reason::Loop => 14,
            Reason::Stream => 15,
            Reason::Sizes => 16,
            Reason::Room => 17,
            Reason::NotThere => 18,
            Reason::OddFrames => 19,
        }
    }
}

// The refusal for a reason at a place.
pub fn refuse(reason: Reason, place: usize) -> Refusal
    ensures { result ≡ refusal reason place }
{
    Refusal {
        number: u8::from(reason),
        place,
    }
}

impl From<Result<(), Refusal>> for Outcome {
    // The first part of an answer. Every one is made here.
    ghost from_gives = { λ verdict given. given ≡ outcome_of verdict };

    fn from(verdict: Result<(), Refusal>) -> Outcome {
        match verdict {
            Ok(()) => Outcome {
                number: 0,
                place: 0,
            },
            Err(r) => Outcome {
                number: r.number as u64,
                place: r.place,
            },
        }
    }
}

impl From<Result<usize, Refusal>> for LengthAnswer {
    // The answer of a call that fills an output, or refuses to.
    ghost from_gives = { λ answer given. given ≡ length_answer answer };

    fn from(answer: Result<usize, Refusal>) -> LengthAnswer {
        match answer {
            Ok(length) => LengthAnswer {
                outcome: Outcome::from(Ok(())),
                length,
            },
            Err(r) => LengthAnswer {
                outcome: Outcome::from(Err(r)),
                length: 0,
            },
        }
    }
}
