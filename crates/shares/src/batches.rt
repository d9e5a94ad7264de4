// The lines of a batch, as they are lent.
ghost use Rattle.std.specs.Prelude.{◌≡◌, length};
ghost use Rattle.shares.specs.ShareLines.{lengths_fit};

// A batch has at most so many lines.
pub const MOST_LINES: usize = 64;

// A batch at a point: the user and the asked amount of each line, in two lists of equal length. That they are of one length is
// question 2, and so no invariant. The lists for shares and numbers stand beside it, since they are written; the numbers are those of
// the host's list, 0 where a line passed its questions.
#[derive(Clone, Copy)]
pub struct Batch<'a> {
    pub point: u8,
    pub users: &'a [u8],
    pub asked: &'a [u64],
}

// Question 2 of the lengths of the four lists.
pub fn lengths_fit(users: usize, asked: usize, shares: usize, numbers: usize) -> bool
    ensures { result ≡ lengths_fit users asked shares numbers }
{
    ((1 <= users) & (users <= MOST_LINES))
        & ((asked == users) & (shares == users) & (numbers == users))
}

impl Batch<'_> {
    // The same of a batch: the lists for shares and numbers have so many places.
    pub fn lengths_fit(self, shares: usize, numbers: usize) -> bool
        ensures { result ≡ lengths_fit (length self.entry.users.now) (length self.entry.asked.now) shares numbers }
    {
        lengths_fit(self.users.len(), self.asked.len(), shares, numbers)
    }
}
