// What an accepted cession does, and the call.
ghost use Rattle.std.specs.Prelude.{◌≡◌, true, ◌≤◌, ◌+◌};
ghost use Rattle.parts.specs.Limits.{line_count, most_guarantee};
ghost use Rattle.parts.specs.Registers.{state, with_lines};
ghost use Rattle.parts.specs.Answers.{number_of_answer, amount_of_answer};
ghost use Rattle.conferral.specs.Bookings.{covers};
ghost use Rattle.cession_decision.specs.CessionQuestions.{cession_fields, receiver_of};
ghost use Rattle.cessions.specs.CedeCapacity.{charge_moved, annual_line, with_two_lines, cession_number, cession_amount, cession_after};

use cession_decision::Cession;
use register::{Answered, Line, Register, View};

// The register with a charge moved from the commitment of the giver to that of the receiver, and two lines more.
fn moved_register(mut r: Register, c: Cession, charge: u64) -> Register
    requires fields { cession_fields c ≡ true }
    requires guarantee { (receiver_of r c).guarantee ≤ most_guarantee }
    requires covered { covers (receiver_of r c) charge ≡ true }
    requires lines { r.lines + 2 ≤ line_count }
    ensures { result ≡ with_lines (charge_moved r c charge) (r.lines + 2) }
{
    r.accounts[c.giver as usize] = r.accounts[c.giver as usize].discharged(charge);
    r.accounts[c.receiver as usize] = r.accounts[c.receiver as usize].charged(charge);
    r.lines += cession_decision::LINES_WRITTEN as u16;
    r
}

// An annual ledger line. It is no grant's, since the amount of one of the two is negative.
fn annual_line(user: u8, point: u8, first: u16, amount: i32) -> Line
    ensures { result ≡ annual_line user point first amount }
{
    Line {
        user: user as u32,
        point: point as u32,
        kind: register::ANNUAL as u32,
        first: first as u32,
        amount,
    }
}

// Writes two lines from line n on.
fn write_two_lines(ledger: &mut [u32], n: u16, before: Line, after: Line)
    ensures { ledger.new ≡ with_two_lines ledger.old n before after }
{
    register::write_line(ledger, n as usize, before);
    register::write_line(ledger, n as usize + 1, after);
}

// Cedes an amount: its charge moves from the giver's commitment to the receiver's, and two annual lines are written, minus then
// plus. The free amounts don't move, and are lent to be read.
pub fn cede_capacity(r: Register, free: &[u32], ledger: &mut [u32], c: Cession) -> Answered<u32>
    ensures number { number_of_answer result.answer ≡ cession_number (state r free.now ledger.old) c }
    ensures amount { amount_of_answer result.answer ≡ cession_amount (state r free.now ledger.old) c }
    ensures state { state result.register free.now ledger.new ≡ cession_after
        (state r free.now ledger.old) c }
{
    let v = View {
        register: &r,
        free,
        ledger,
    };
    match cession_decision::decide(v, c) {
        Ok(h) => {
            let amount = c.amount as i32;
            let minus = annual_line(c.giver, c.point, h.first, -amount);
            let plus = annual_line(c.receiver, c.point, h.first, amount);
            write_two_lines(ledger, r.lines, minus, plus);
            Answered {
                register: moved_register(r, c, h.charge),
                answer: Ok(c.amount as u32),
            }
        }
        Err(why) => Answered::refused(r, why),
    }
}
