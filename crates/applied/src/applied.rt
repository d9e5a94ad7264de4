// What the changing calls give back, in one form for all of them.
ghost use Rattle.applied.specs.Telling.{TellsNumber, TellsAmount};

use parts::{Answered, Register};

// What a call gives back: the register as it then is, the number, and the amount granted or ceded, else 0. Numbers and no `Result`,
// since C programs are given it.
#[repr(C)]
#[derive(Drop)]
pub struct Applied {
    pub register: Register,
    pub number: u8,
    pub amount: u32,
}

// What a call without an amount gives back. Two conversions, since an answer of nothing has no amount to be taken for 0.
impl From<Answered<()>> for Applied {
    ghost from_gives = { TellsNumber };

    fn from(filed: Answered<()>) -> Applied {
        Applied {
            register: filed.register,
            number: parts::answer_number(&filed.answer),
            amount: 0,
        }
    }
}

// What a request or a cession gives back, with the amount granted or ceded.
impl From<Answered<u32>> for Applied {
    ghost from_gives = { TellsAmount };

    fn from(granted: Answered<u32>) -> Applied {
        Applied {
            register: granted.register,
            number: parts::answer_number(&granted.answer),
            amount: parts::answer_amount(&granted.answer),
        }
    }
}
