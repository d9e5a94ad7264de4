// The report of a free amount.
ghost use Rattle.std.specs.Prelude.{◌≡◌};
ghost use Rattle.parts.specs.Registers.{state};
ghost use Rattle.parts.specs.Answers.{number_of_answer, amount_of_answer};
ghost use Rattle.register.specs.Reports.{report_number, report_amount};

use register::{Refusal, Register, View};

// What a report gives: the number, and the free amount, 0 for a refusal.
#[repr(C)]
#[derive(Drop)]
pub struct Reported {
    pub number: u8,
    pub amount: u32,
}

impl From<Result<u32, Refusal>> for Reported {
    ghost from_gives = { λ answer told. (told.number ≡ number_of_answer answer) × (told.amount ≡ amount_of_answer answer) };

    fn from(answer: Result<u32, Refusal>) -> Reported {
        Reported {
            number: register::answer_number(&answer),
            amount: register::answer_amount(&answer),
        }
    }
}

// The free amount of a point and gas-day.
pub fn ylgrandi_report(r: Register, free: &[u32], ledger: &[u32], point: u8, day: u16) -> Reported
    ensures number { result.number ≡ report_number (state r free.now ledger.now) point day }
    ensures amount { result.amount ≡ report_amount (state r free.now ledger.now) point day }
{
    let v = View {
        register: &r,
        free,
        ledger,
    };
    Reported::from(register::report_free(v, point, day))
}
