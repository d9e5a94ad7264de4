// The lent ledger: five numbers for each line, in turn. Nothing outside this file knows where a field stands in a line.
ghost use Rattle.std.specs.Prelude.{◌≡◌};
ghost use Rattle.ledger.specs.Ledger.{Holds, has_line, fields_at, with_fields, line_at, with_line};

use parts::LINE;

// A line as a value. Kind 1 is annual, 2 month, 3 day, a number as it stands in lent memory, which may have any other; `first` is the
// first gas-day.
#[repr(C)]
#[derive(Clone, Copy, Default)]
pub struct Line {
    pub user: u32,
    pub point: u32,
    pub kind: u32,
    pub first: u32,
    pub amount: i32,
}

// Whether the list has a line i, whole.
fn holds_line(ledger: &[u32], i: usize) -> bool
    ensures { result ≡ has_line ledger.now i }
{
    i < ledger.len() / LINE
}

// Line i of a list that has it. Read by index: as five numbers by `first_chunk`, question 1 on lines of mixed kinds misses its bar of
// speed.
#[tactic(auto, unfolding(crate::specs::Ledger::fields_at))]
fn fields_at(ledger: &[u32], i: usize) -> Line
    requires { Holds ledger.now i }
    ensures { result ≡ fields_at ledger.now i }
{
    let at = LINE * i;
    Line {
        user: ledger[at],
        point: ledger[at + 1],
        kind: ledger[at + 2],
        first: ledger[at + 3],
        amount: ledger[at + 4].cast_signed(),
    }
}

// Line i; past the end a line of zeros, by a rule of the project: all that is public is total, and a number read past the end is 0.
#[tactic(auto, unfolding(crate::specs::Ledger::line_at))]
pub fn line_at(ledger: &[u32], i: usize) -> Line
    ensures { result ≡ line_at ledger.now i }
{
    if holds_line(ledger, i) {
        return fields_at(ledger, i);
    }
    Line::default()
}

// The fields are written as they are read, by index: copying an array of five is no plainer, and would need a law that the copy is five
// stores.
#[tactic(auto, unfolding(crate::specs::Ledger::with_fields))]
fn write_fields(ledger: &mut [u32], i: usize, l: Line)
    requires { Holds ledger.old i }
    ensures { ledger.new ≡ with_fields ledger.old i l }
{
    let at = LINE * i;
    ledger[at] = l.user;
    ledger[at + 1] = l.point;
    ledger[at + 2] = l.kind;
    ledger[at + 3] = l.first;
    ledger[at + 4] = l.amount.cast_unsigned();
}

// Writes line i; past the end nothing is written.
#[tactic(auto, unfolding(crate::specs::Ledger::with_line))]
pub fn write_line(ledger: &mut [u32], i: usize, l: Line)
    ensures { ledger.new ≡ with_line ledger.old i l }
{
    if holds_line(ledger, i) {
        write_fields(ledger, i, l);
    }
}
