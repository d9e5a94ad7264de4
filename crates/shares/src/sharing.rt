// What each line of a batch gets: pro quota, rounded down.
//
// What the questions answered to a line stays its number, 0 where it passed them: the list of numbers is lent by the host, and keeps it
// from one step to the next.
ghost use Rattle.std.specs.Prelude.{◌≡◌, ◌<◌, ◌≤◌, ◌^◌, length};
ghost use Rattle.parts.specs.Limits.{most_amount};
ghost use Rattle.amounts.specs.Ranges.{replaced};
ghost use Rattle.shares.specs.Shares.{counted, pro_quota, share_if, number_if};
ghost use Rattle.shares.specs.Steps.{sum_in, share_in, number_in, Passing};

use register::Refusal;

// What counts of a line's asked amount in the sum, by the number that the questions gave the line.
fn counted_amount(number: u8, asked: u64) -> u64
    ensures { result ≡ counted number asked }
{
    if number == 0 {
        return asked;
    }
    0
}

// The sum of the asked amounts of the lines whose number is 0.
pub(crate) fn sum_asked(asked: &[u64], numbers: &[u8]) -> u64
    requires { sum_in numbers.now asked.now < 2 ^ 64 }
    ensures { result ≡ sum_in numbers.now asked.now }
{
    numbers
        .iter()
        .zip(asked)
        .map(|(number, asked)| counted_amount(*number, *asked))
        .sum()
}

// What a line gets that asked for an amount within limits: all of it where the sum is free, and else its part of what is free.
fn pro_quota(free: u32, sum: u64, asked: u64) -> u32
    requires { asked ≤ most_amount }
    ensures { result ≡ pro_quota free sum asked }
{
    if sum <= free as u64 {
        return asked as u32;
    }
    (asked * (free as u64) / sum) as u32
}

// The share of a line, by the number that the questions gave it.
fn share_if(number: u8, free: u32, sum: u64, asked: u64) -> u32
    requires { number ≡ 0 → asked ≤ most_amount }
    ensures { result ≡ share_if free sum number asked }
{
    if number != 0 {
        return 0;
    }
    pro_quota(free, sum, asked)
}

// The number of a line with that share: 12 where it passed the questions and gets nothing.
fn number_if(number: u8, share: u32) -> u8
    ensures { result ≡ number_if number share }
{
    if (number == 0) & (share == 0) {
        return u8::from(Refusal::NothingFree);
    }
    number
}

// The shares and the numbers of all lines, by the numbers that the questions gave them.
#[tactic(auto, using(crate::proofs::LoopLaws::shares_here))]
pub(crate) fn share_out(asked: &[u64], shares: &mut [u32], numbers: &mut [u8], free: u32, sum: u64)
    requires { (length shares.old ≡ length asked.now) × ((length numbers.old ≡ length asked.now) × Passing numbers.old
        asked.now) }
    ensures shares { shares.new ≡ replaced shares.old 0 (length asked.now)
        (share_in free sum numbers.old asked.now) }
    ensures numbers { numbers.new ≡ replaced numbers.old 0 (length asked.now)
        (number_in free sum numbers.old asked.now) }
{
    // By place: of what is written through a `zip` of `iter_mut` nothing is known to a proof, and the old numbers are asked for.
    for i in 0..asked.len() {
        let number = numbers[i];
        let share = share_if(number, free, sum, asked[i]);
        shares[i] = share;
        numbers[i] = number_if(number, share);
    }
}
