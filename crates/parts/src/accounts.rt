// Accounts of the users.
ghost use Rattle.std.specs.Prelude.{◌≡◌};
ghost use Rattle.parts.specs.Charges.{charged, discharged};
ghost use Rattle.parts.specs.Accounts.{is_on_file, account_ok};

use crate::limits::MOST_GUARANTEE;

// A user is on file where `on_file` is 1: a number, since a host in C passes the register by value. Guarantee and commitment are in
// millionths of a euro.
#[repr(C)]
#[derive(Clone, Copy, Default, PartialEq, Eq)]
pub struct Account {
    pub on_file: u8,
    pub guarantee: u64,
    pub commitment: u64,
}

impl Account {
    pub fn is_on_file(self) -> bool
        ensures { result ≡ is_on_file self }
    {
        self.on_file == 1
    }

    // Not on file with nothing set, or on file within the limits.
    pub fn is_in_order(self) -> bool
        ensures { result ≡ account_ok self }
    {
        (self == Account::default())
            | self.is_on_file()
                & (self.guarantee <= MOST_GUARANTEE)
                & (self.commitment <= self.guarantee)
    }

    // The account with a charge in its commitment. A sum past 64 bits is the largest number, which no guarantee covers.
    pub fn charged(self, charge: u64) -> Account
        ensures { result ≡ charged self charge }
    {
        Account {
            commitment: self.commitment.saturating_add(charge),
            ..self
        }
    }

    // The account with a charge out of its commitment. A difference below 0 is 0.
    pub fn discharged(self, charge: u64) -> Account
        ensures { result ≡ discharged self charge }
    {
        Account {
            commitment: self.commitment.saturating_sub(charge),
            ..self
        }
    }
}
