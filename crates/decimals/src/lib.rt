// Numbers as decimal digits: in a fixed number of places, and without leading zeros.
#![tactic(auto)]

ghost use Rattle.std.specs.Prelude.{◌≡◌, length};
ghost use Rattle.std.specs.Option.{option_map};
ghost use Rattle.decimals.specs.Digits.{numeral, number as plain_number, clipped, all_read, led, padded, WrittenBack, ReadBack};

// The number that one to nine digits write; no other bytes write one.
pub fn read_digits(digits: &[u8]) -> Option<u32>
    ensures { result ≡ numeral digits.now }
{
    if digits.is_empty() || digits.len() > 9 {
        return None;
    }
    let mut number = 0u32;
    for digit in digits {
        number = number * 10 + char::from(*digit).to_digit(10)?;
    }
    Some(number)
}

// The number that the bytes write, where each is a digit; one that does not fit is read as the largest that does.
fn read_all(digits: &[u8]) -> Option<u32>
    ensures { result ≡ all_read digits.now }
{
    let mut value = 0u32;
    for digit in digits {
        value = value
            .saturating_mul(10)
            .saturating_add(char::from(*digit).to_digit(10)?);
    }
    Some(value)
}

// There is a first digit, and it is no zero with others after it.
fn is_led(digits: &[u8]) -> bool
    ensures { result ≡ led digits.now }
{
    match digits {
        [] | [b'0', _, ..] => false,
        [_, ..] => true,
    }
}

// The number that digits write without leading zero, however many they are; one that does not fit is read as the largest that does.
#[tactic(auto, unfolding(crate::specs::Digits::number))]
pub fn read_number(digits: &[u8]) -> Option<u32>
    ensures { result ≡ option_map clipped (plain_number digits.now) }
{
    if !is_led(digits) {
        return None;
    }
    read_all(digits)
}

// Fills the places with the last digits of the number.
pub fn write_digits(places: &mut [u8], number: u32)
    ensures { places.new ≡ padded (length places.old) number }
{
    let mut left = number;
    for i in (0..places.len()).rev() {
        places[i] = b'0' + (left % 10) as u8;
        left /= 10;
    }
}

// A number that fits its places is read back from them, and digits are what is written of the number that they write.
pub fn written_digits_read_back()
    ensures written { WrittenBack }
    ensures read { ReadBack }
{}
