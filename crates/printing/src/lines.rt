// Position, number and amount in decimal, by one space.
//
// The digits are written here: a `write!` of the line would answer a `Result` of which no clause of std says that it is `Ok` where there
// is room, so that the proof that a line is always whole does not close (tried), and the proved crates stand on no crate for it.
ghost use Rattle.std.specs.Prelude.{◌≡◌, ◌+◌, ◌≤◌, ◌<◌, length, set};
ghost use Rattle.std.proofs.lemmas.List.Edits.{sets};
ghost use Rattle.printing.specs.Lines.{last_digit, decimal_in, ended_by, answer_line, bytes_with, place_after};

// No line is longer: three numbers of at most ten digits and the bytes that end them.
pub const LINE: usize = 33;

// Digits that a number of 32 bits can have before its last one.
const MORE_DIGITS: usize = 9;

fn last_digit(n: u32) -> u8
    ensures { result ≡ last_digit n }
{
    b'0' + (n % 10) as u8
}

// The buffer and a place go in, and the next place comes back. Each of these functions asks for the room of what it writes itself, so that
// a struct of buffer and place would have no bound of its own to keep.
fn put_byte(b: u8, out: &mut [u8], at: usize) -> usize
    requires { at < length out.old }
    ensures place { result ≡ at + 1 }
    ensures bytes { out.new ≡ set out.old at b }
{
    out[at] = b;
    at + 1
}

// Writes a number in decimal, in at most `more` digits and the last one.
fn put_decimal(n: u32, more: usize, out: &mut [u8], at: usize) -> usize
    requires { at + more < length out.old }
    ensures place { result ≡ at + length (decimal_in more n) }
    ensures bytes { out.new ≡ sets out.old at (decimal_in more n) }
{
    if (n < 10) | (more == 0) {
        return put_byte(last_digit(n), out, at);
    }
    let next = put_decimal(n / 10, more - 1, out, at);
    put_byte(last_digit(n), out, next)
}

// Writes a number in decimal and a byte after it.
fn put_number(n: u32, end: u8, out: &mut [u8], at: usize) -> usize
    requires { at + 11 ≤ length out.old }
    ensures place { result ≡ at + length (ended_by n end) }
    ensures bytes { out.new ≡ sets out.old at (ended_by n end) }
    ensures bound { result ≤ at + 11 }
{
    let next = put_decimal(n, MORE_DIGITS, out, at);
    put_byte(end, out, next)
}

// Writes the three numbers of a line.
fn put_numbers(position: u32, number: u32, amount: u32, out: &mut [u8], at: usize) -> usize
    requires { at + 33 ≤ length out.old }
    ensures place { result ≡ at + length (answer_line position number amount) }
    ensures bytes { out.new ≡ sets out.old at (answer_line position number amount) }
    ensures bound { result ≤ at + 33 }
{
    let second = put_number(position, b' ', out, at);
    let third = put_number(number, b' ', out, second);
    put_number(amount, b'\n', out, third)
}

// Writes a line from a place on, and answers the place after it. Where fewer than 33 bytes are left it writes nothing and answers the
// same place, which is the one after no bytes: an `Option` would say no more. The number is given, and no answer, since a record that is
// no call has a number too.
#[tactic(auto, using(crate::proofs::WritingLaws::put_or_kept))]
pub fn put_line(position: u32, number: u8, amount: u32, out: &mut [u8], at: usize) -> usize
    ensures place { result ≡ place_after out.old at (answer_line position number amount) }
    ensures bytes { out.new ≡ bytes_with out.old at (answer_line position number amount) }
    ensures bound { result ≤ at + 33 }
{
    if out.len() < LINE || out.len() - LINE < at {
        return at;
    }
    put_numbers(position, u32::from(number), amount, out, at)
}
