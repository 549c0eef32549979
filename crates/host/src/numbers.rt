// Document 01's numbers for what is answered, as the functions for C give them.
ghost use Rattle.std.specs.Prelude.{◌≡◌, cond};
ghost use Rattle.writer.specs.Writing.{answer_of as written_of};
ghost use Rattle.rules.specs.Calls.{refusal_in, length_in};

use rules::Answer;
use writer::Writing;

// What document 01 has an answer tell: its number, the length that it gives, the place and the hyphens before it.
#[derive(Clone, Copy)]
pub(crate) struct Told {
    pub number: usize,
    pub size: usize,
    pub place: usize,
    pub hyphens: usize,
}

pub(crate) fn tell(a: Answer) -> Told
    ensures { (result.number ≡ (refusal_in a).number) × (result.size ≡ length_in a) × (result.place ≡ (refusal_in a).place) × (result.hyphens ≡ (refusal_in a).before) }
{
    match a {
        Answer::Done(n) => Told {
            number: 0,
            size: n,
            place: 0,
            hyphens: 0,
        },
        Answer::NotRead(place, before) => Told {
            number: 1,
            size: 0,
            place,
            hyphens: before,
        },
        Answer::NoRoom => Told {
            number: 2,
            size: 0,
            place: 0,
            hyphens: 0,
        },
        Answer::WrongUnits => Told {
            number: 3,
            size: 0,
            place: 0,
            hyphens: 0,
        },
        Answer::Stale => Told {
            number: 4,
            size: 0,
            place: 0,
            hyphens: 0,
        },
        Answer::NothingUnanswered => Told {
            number: 5,
            size: 0,
            place: 0,
            hyphens: 0,
        },
        Answer::WrongAnswer => Told {
            number: 6,
            size: 0,
            place: 0,
            hyphens: 0,
        },
        Answer::NamedAlready => Told {
            number: 7,
            size: 0,
            place: 0,
            hyphens: 0,
        },
        Answer::TooManyUnanswered => Told {
            number: 8,
            size: 0,
            place: 0,
            hyphens: 0,
        },
        Answer::TooFarBack => Told {
            number: 9,
            size: 0,
            place: 0,
            hyphens: 0,
        },
        Answer::ConditionFails => Told {
            number: 10,
            size: 0,
            place: 0,
            hyphens: 0,
        },
        Answer::TableFull => Told {
            number: 11,
            size: 0,
            place: 0,
            hyphens: 0,
        },
        Answer::NotFormed => Told {
            number: 12,
            size: 0,
            place: 0,
            hyphens: 0,
        },
        Answer::BreaksRule => Told {
            number: 13,
            size: 0,
            place: 0,
            hyphens: 0,
        },
        Answer::BadNames => Told {
            number: 14,
            size: 0,
            place: 0,
            hyphens: 0,
        },
    }
}

// Document 01's number of what a writer answers, and the length.
pub(crate) fn written_number(v: Writing) -> usize
    ensures { result ≡ (written_of v).number }
{
    match v {
        Writing::Written(n) => 0,
        Writing::BreaksRule => 13,
        Writing::NoRoom => 2,
    }
}

pub(crate) fn written_size(v: Writing) -> usize
    ensures { result ≡ (written_of v).size }
{
    match v {
        Writing::Written(n) => n,
        Writing::BreaksRule => 0,
        Writing::NoRoom => 0,
    }
}

// What a check found, by document 01's numbers.
pub(crate) fn found(ok: bool) -> usize
    ensures { result ≡ cond ok 0 12 }
{
    if ok {
        return 0;
    }
    12
}
