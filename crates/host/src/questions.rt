// Two questions of document 01 by themselves.
ghost use Rattle.std.specs.Prelude.{◌≡◌};
ghost use Rattle.parts.specs.Registers.{state};
ghost use Rattle.order.specs.Order.{in_order};
ghost use Rattle.holdings.specs.Holdings.{held_answer, short_day};

use holdings::Holding;
use register::{Register, View};

// No gas-day has this number. It stands for `None`: the types here are those of the C interface, which has no `Option`.
const NO_DAY: u32 = 65_536;

// Question 1: is the register in order?
pub fn ylgrandi_in_order(r: Register, free: &[u32], ledger: &[u32]) -> bool
    ensures { result ≡ in_order (state r free.now ledger.now) }
{
    register::in_order(View {
        register: &r,
        free,
        ledger,
    })
}

// Question 10: the first gas-day of the span on which the user holds less than the amount; 65,536 where there is none. In a register
// that is not in order a line counts only where it begins in the year.
pub fn ylgrandi_first_short_day(year: u16, lines: u16, ledger: &[u32], h: Holding) -> u32
    ensures { result ≡ short_day (held_answer year lines ledger.now h) }
{
    holdings::first_short_day(year, lines, ledger, h).map_or(NO_DAY, u32::from)
}
