// The call: a request is decided, and what is granted is booked.
ghost use Rattle.std.specs.Prelude.{◌≡◌};
ghost use Rattle.parts.specs.Registers.{state};
ghost use Rattle.parts.specs.Answers.{number_of_answer, amount_of_answer};
ghost use Rattle.requests.specs.RequestCapacity.{request_number, request_amount, request_after};

use products::Request;
use register::{Answered, Register, View};

// Requests an amount: granted is the asked amount, or the smallest free amount of the span if that is less.
pub fn request_capacity(
    r: Register,
    free: &mut [u32],
    ledger: &mut [u32],
    q: Request,
) -> Answered<u32>
    ensures number { number_of_answer result.answer ≡ request_number (state r free.old ledger.old) q }
    ensures amount { amount_of_answer result.answer ≡ request_amount (state r free.old ledger.old) q }
    ensures state { state result.register free.new ledger.new ≡ request_after
        (state r free.old ledger.old) q }
{
    let v = View {
        register: &r,
        free,
        ledger,
    };
    match request_decision::decide(v, q) {
        Ok(granted) => Answered {
            register: conferral::book(r, free, ledger, granted),
            answer: Ok(granted.amount),
        },
        Err(why) => Answered::refused(r, why),
    }
}
