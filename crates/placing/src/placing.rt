// Place guarantee.
ghost use Rattle.std.specs.Prelude.{◌≡◌, ◌<◌};
ghost use Rattle.parts.specs.Limits.{user_count};
ghost use Rattle.parts.specs.Registers.{state, state_in, account_at, with_account};
ghost use Rattle.parts.specs.Answers.{number_of_answer};
ghost use Rattle.placing.specs.PlaceGuarantee.{place_fields, place_number, pledged, place_after};

use register::{Answered, Refusal, Register, View};

// A guarantee to be placed for a user.
#[derive(Clone, Copy)]
pub struct Guarantee {
    pub user: u8,
    pub guarantee: u64,
}

impl Guarantee {
    // Question 2.
    fn is_within_limits(self) -> bool
        ensures { result ≡ place_fields self.user self.guarantee }
    {
        register::names_user(self.user) & (self.guarantee <= register::MOST_GUARANTEE)
    }
}

// Questions 1, 2 and 6.
#[tactic(auto, unfolding(crate::specs::PlaceGuarantee::place_number))]
fn place_answer(v: View, g: Guarantee) -> Result<(), Refusal>
    ensures { number_of_answer result ≡ place_number (state_in v.entry) g.user g.guarantee }
{
    if !register::in_order(v) {
        return Err(Refusal::NotInOrder);
    }
    if !g.is_within_limits() {
        return Err(Refusal::OutOfLimits);
    }
    if g.guarantee < v.register.accounts[g.user as usize].commitment {
        return Err(Refusal::BelowCommitment);
    }
    Ok(())
}

// The register with the user on file and that guarantee. His commitment stays.
fn with_user_on_file(mut r: Register, g: Guarantee) -> Register
    requires { g.user < user_count }
    ensures { result ≡ with_account r g.user (pledged (account_at r.accounts g.user) g.guarantee) }
{
    let a = &mut r.accounts[g.user as usize];
    a.on_file = 1;
    a.guarantee = g.guarantee;
    r
}

// Puts a user on file, or replaces his guarantee.
#[tactic(auto, using(crate::proofs::PlaceLaws::place_exits))]
pub fn place_guarantee(r: Register, free: &[u32], ledger: &[u32], g: Guarantee) -> Answered<()>
    ensures number { number_of_answer result.answer ≡ place_number
        (state r free.now ledger.now) g.user g.guarantee }
    ensures state { state result.register free.now ledger.now ≡ place_after
        (state r free.now ledger.now) g.user g.guarantee }
{
    let v = View {
        register: &r,
        free,
        ledger,
    };
    if let Err(why) = place_answer(v, g) {
        return Answered::refused(r, why);
    }
    Answered {
        register: with_user_on_file(r, g),
        answer: Ok(()),
    }
}
