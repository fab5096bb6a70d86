// Sizes, as decimal digits.
ghost use Rattle.std.specs.Prelude.{◌≡◌};
ghost use Rattle.cli.specs.Number.{decimal_digit, digits_on, number_within};

#[derive(Clone, Copy, PartialEq, Eq, Debug)]
pub enum NumberError {
    // it isn't one or more decimal digits
    NoDigits,
    // it is above or below the bounds
    OutOfRange,
}

fn decimal_digit(b: u8) -> Option<u32>
    ensures { result ≡ decimal_digit b }
{
    char::from(b).to_digit(10)
}

// The number that digits write, if it isn't above `high`.
fn decimal(digits: &[u8], high: u32) -> Result<u32, NumberError>
    ensures { result ≡ digits_on high 0 digits.now }
{
    let mut n: u64 = 0;
    for b in digits {
        let digit = decimal_digit(*b).ok_or(NumberError::NoDigits)?;
        n = n * 10 + u64::from(digit);
        if n > u64::from(high) {
            return Err(NumberError::OutOfRange);
        }
    }
    Ok(n as u32)
}

// The number that digits write, if it is from `low` to `high`.
pub fn parse_number(digits: &[u8], low: u32, high: u32) -> Result<u32, NumberError>
    ensures value { result ≡ number_within low high digits.now }
{
    if digits.is_empty() {
        return Err(NumberError::NoDigits);
    }
    let n = decimal(digits, high)?;
    if n < low {
        return Err(NumberError::OutOfRange);
    }
    Ok(n)
}
