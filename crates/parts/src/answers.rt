// What the calls answer.
ghost use Rattle.std.specs.Prelude.{◌≡◌};
ghost use Rattle.parts.specs.Answers.{number_of_refusal, number_of_answer, amount_of_answer};

use crate::registers::Register;

// The questions of document 01, each named by what a "no" means.
#[derive(Clone, Copy, PartialEq, Eq)]
pub enum Refusal {
    NotInOrder,
    OutOfLimits,
    PointClosed,
    PointOpen,
    NotOnFile,
    BelowCommitment,
    NotOffered,
    OutsideYear,
    Late,
    NotHeld,
    NotCovered,
    NothingFree,
    LedgerFull,
    UserRepeated,
    YearNotLater,
}

impl From<Refusal> for u8 {
    // The number of the question that was answered no.
    ghost from_gives = { λ why number. number ≡ number_of_refusal why };

    fn from(why: Refusal) -> u8 {
        match why {
            Refusal::NotInOrder => 1,
            Refusal::OutOfLimits => 2,
            Refusal::PointClosed => 3,
            Refusal::PointOpen => 4,
            Refusal::NotOnFile => 5,
            Refusal::BelowCommitment => 6,
            Refusal::NotOffered => 7,
            Refusal::OutsideYear => 8,
            Refusal::Late => 9,
            Refusal::NotHeld => 10,
            Refusal::NotCovered => 11,
            Refusal::NothingFree => 12,
            Refusal::LedgerFull => 13,
            Refusal::UserRepeated => 14,
            Refusal::YearNotLater => 15,
        }
    }
}

// The calls take the register by value and two lists beside it, as a host in C has them. One struct of all three would not serve, since
// a list that one call writes another only reads.
//
// What a call that takes the register gives back: the register as it then is, and the answer, an amount or nothing more than that
// the call is accepted.
//
// The six changing calls share no frame. One that takes what a call does as a closure could not say that a refusal leaves the lists that
// the closure holds (tried at `open_point`), and one that takes the lists would need them to write, where some calls only read.
#[derive(Drop)]
pub struct Answered<T> {
    pub register: Register,
    pub answer: Result<T, Refusal>,
}

impl<T> Answered<T> {
    ghost use Rattle.std.specs.Prelude.{Err};

    // What a refused call gives back: the register comes back as it was.
    pub fn refused(register: Register, why: Refusal) -> Answered<T>
        ensures register { result.register ≡ register }
        ensures answer { result.answer ≡ Err why }
    {
        Answered {
            register,
            answer: Err(why),
        }
    }
}

// 0 where a call is accepted, else the number of the question that was answered no.
pub fn answer_number<T>(answer: &Result<T, Refusal>) -> u8
    ensures { result ≡ number_of_answer answer.now }
{
    match answer {
        Ok(_) => 0,
        Err(why) => u8::from(*why),
    }
}

// The amount granted, ceded or reported; of a refused call it is 0.
pub fn answer_amount(answer: &Result<u32, Refusal>) -> u32
    ensures { result ≡ amount_of_answer answer.now }
{
    answer.unwrap_or(0)
}
