// The fresh register.
ghost use Rattle.std.specs.Prelude.{◌≡◌};
ghost use Rattle.parts.specs.Registers.{state};
ghost use Rattle.parts.specs.Answers.{number_of_answer};
ghost use Rattle.register.specs.Fresh.{fresh_number, fresh_after};

use parts::{Answered, LEDGER, Refusal, TABLE, blank};
use tables::clear;

// Are the year and the lengths of both lists within limits?
#[tactic(auto, unfolding(crate::specs::Fresh::fresh_number))]
fn fresh_answer(year: u16, free: &[u32], ledger: &[u32]) -> Result<(), Refusal>
    ensures { number_of_answer result ≡ fresh_number year free.now ledger.now }
{
    if !calendar::is_thermal_year(year) | (free.len() != TABLE) | (ledger.len() != LEDGER) {
        return Err(Refusal::OutOfLimits);
    }
    Ok(())
}

// A register of a year with no point open, no user on file, an empty ledger and nothing free. A refused one is of year 0, which
// no call takes, and leaves both lists: a host in C is given a register by value also where it is refused.
#[tactic(auto, using(crate::proofs::FreshLaws::fresh_exits))]
pub fn fresh_register(year: u16, free: &mut [u32], ledger: &mut [u32]) -> Answered<()>
    ensures number { number_of_answer result.answer ≡ fresh_number year free.old ledger.old }
    ensures state { state result.register free.new ledger.new ≡ fresh_after year free.old ledger.old }
{
    if let Err(why) = fresh_answer(year, free, ledger) {
        return Answered::refused(blank(0), why);
    }
    clear(free);
    clear(ledger);
    Answered {
        register: blank(year),
        answer: Ok(()),
    }
}
