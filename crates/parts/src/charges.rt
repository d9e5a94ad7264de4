// Charges.
ghost use Rattle.std.specs.Prelude.{◌≡◌};
ghost use Rattle.parts.specs.Charges.{charge_word};

// Amount × days × rate, in millionths of a euro. A charge past 64 bits is the largest number, which no guarantee covers.
pub fn charge_of(amount: u32, days: u16, rate: u32) -> u64
    ensures { result ≡ charge_word amount days rate }
{
    let volume = (amount as u64) * (days as u64);
    volume.saturating_mul(rate as u64)
}
