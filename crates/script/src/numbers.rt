ghost use Rattle.std.specs.Prelude.{◌≡◌, ◌+◌, ◌*◌, ◌^◌, ◌⊎◌, Some};
ghost use Rattle.script.specs.Numbers.{decimal_digit, hex_digit_of, paired, hex_bytes, under, number_of, positive, negative, signed_of, Adds};

use crate::unread::Unread;

// A digit in decimal or in hexadecimal.
fn digit(byte: u8, radix: u32) -> Option<u32>
    requires { (radix ≡ 10) ⊎ (radix ≡ 16) }
    ensures decimal { radix ≡ 10 → result ≡ decimal_digit byte }
    ensures hexadecimal { radix ≡ 16 → result ≡ hex_digit_of byte }
{
    char::from(byte).to_digit(radix)
}

// The byte of two digits.
fn hex_byte(high: u8, low: u8) -> Option<u8>
    ensures { result ≡ paired (hex_digit_of high) (hex_digit_of low) }
{
    let high = digit(high, 16)?;
    let low = digit(low, 16)?;
    Some((16 * high + low) as u8)
}

// A number of one digit or more that fits 32 bits.
pub(crate) fn number(word: &[u8]) -> Option<u32>
    ensures { result ≡ number_of word.now }
{
    if word.is_empty() {
        return None;
    }
    let mut n = 0;
    for byte in word {
        n = with_digit(n, digit(*byte, 10)?)?;
    }
    Some(n)
}

// A number with one digit more, if it fits.
fn with_digit(n: u32, digit: u32) -> Option<u32>
    ensures { result ≡ under (2 ^ 32) (Some (n * 10 + digit)) }
{
    n.checked_mul(10)?.checked_add(digit)
}

// A number with a minus before, or without, that fits 32 bits with its sign.
pub(crate) fn signed(word: &[u8]) -> Option<i32>
    ensures { result ≡ signed_of word.now }
{
    match word {
        [b'-', digits @ ..] => minus(number(digits)?),
        _ => plus(number(word)?),
    }
}

fn plus(n: u32) -> Option<i32>
    ensures { result ≡ positive (Some n) }
{
    i32::try_from(n).ok()
}

fn minus(n: u32) -> Option<i32>
    ensures { result ≡ negative (Some n) }
{
    i32::try_from(-i64::from(n)).ok()
}

// Puts the bytes of a word behind others.
pub(crate) fn push_hex(bytes: &mut Vec<u8>, word: &[u8]) -> Result<(), Unread>
    ensures { Adds result bytes.old.items (hex_bytes word.now) bytes.new.items }
{
    let (pairs, rest) = word.as_chunks::<2>();
    for [high, low] in pairs {
        let byte = hex_byte(*high, *low).ok_or(Unread::Unreadable)?;
        bytes.push(byte)?;
    }
    if rest.is_empty() {
        Ok(())
    } else {
        Err(Unread::Unreadable)
    }
}
