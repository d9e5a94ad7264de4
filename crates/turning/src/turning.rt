// Turn the year.
ghost use Rattle.std.specs.Prelude.{◌≡◌};
ghost use Rattle.parts.specs.Registers.{state, state_in};
ghost use Rattle.parts.specs.Answers.{number_of_answer};
ghost use Rattle.turning.specs.TurnYear.{turn_number, settled_accounts, turned_register, turn_after};

use register::{Account, Answered, Refusal, Register, View};

// Questions 1, 2 and 15.
#[tactic(auto, unfolding(crate::specs::TurnYear::turn_number))]
fn turn_answer(v: View, year: u16) -> Result<(), Refusal>
    ensures { number_of_answer result ≡ turn_number (state_in v.entry) year }
{
    if !register::in_order(v) {
        return Err(Refusal::NotInOrder);
    }
    if !calendar::is_thermal_year(year) {
        return Err(Refusal::OutOfLimits);
    }
    if year <= v.register.year {
        return Err(Refusal::YearNotLater);
    }
    Ok(())
}

// The commitments of all accounts become 0, in place: as a new list they would be copied to the stack several times. Each account is
// written whole, which takes less of it than a field alone.
fn settle_accounts(accounts: &mut [Account; register::USERS])
    ensures { accounts.new ≡ settled_accounts accounts.old }
{
    for a in accounts.iter_mut() {
        *a = Account {
            commitment: 0,
            ..*a
        };
    }
}

// The register of the new year: commitments are 0 and no line is used.
fn turned_register(mut r: Register, year: u16) -> Register
    ensures { result ≡ turned_register r year }
{
    r.year = year;
    settle_accounts(&mut r.accounts);
    r.lines = 0;
    r
}

// Turns the register to a later year: totals are free again and the ledger is empty.
#[tactic(auto, using(crate::proofs::TurnLaws::turn_exits))]
pub fn turn_year(r: Register, free: &mut [u32], ledger: &mut [u32], year: u16) -> Answered<()>
    ensures number { number_of_answer result.answer ≡ turn_number (state r free.old ledger.old) year }
    ensures state { state result.register free.new ledger.new ≡ turn_after
        (state r free.old ledger.old) year }
{
    let v = View {
        register: &r,
        free,
        ledger,
    };
    if let Err(why) = turn_answer(v, year) {
        return Answered::refused(r, why);
    }
    register::free_table(free, register::days_of_year(year), &r.points);
    register::clear(ledger);
    Answered {
        register: turned_register(r, year),
        answer: Ok(()),
    }
}
