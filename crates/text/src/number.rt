// Reading a number of a line.
// Assumes nothing.
ghost use Rattle.std.specs.Prelude.{◌≡◌};
ghost use Rattle.text.specs.Numbers.{number_of};

use words::refusal::Refusal;

// How many digits a number may have.
pub const DIGITS: usize = 6;

// A number of 1 to 6 decimal digits; leading zeros are digits like others.
pub fn number(digits: &[u8]) -> Result<usize, Refusal>
    ensures { result ≡ number_of digits.now }
{
    if digits.is_empty() || digits.len() > DIGITS {
        return Err(Refusal::BadLine);
    }
    digits.iter().try_fold(0, |value, digit| match digit {
        b'0'..=b'9' => Ok(value * 10 + usize::from(*digit - b'0')),
        _ => Err(Refusal::BadLine),
    })
}
