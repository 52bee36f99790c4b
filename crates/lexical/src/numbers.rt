// Numbers as text: an optional minus, one to five digits, and optionally a point with one to three digits.
ghost use Rattle.std.specs.Prelude.{◌≡◌, ◌==◌, ◌^◌, ◌<◌, ◌≤◌, true, length, MatchOption};
ghost use Rattle.std.specs.List.{position};
ghost use Rattle.lexical.specs.Numbers.{Means, most_fraction, valued, scaled, first_point, fraction, thousandths, has_minus, signed, exact, number};

use crate::kinds::{is_digit, is_hyphen, is_point};
use crate::rounding::hundredths;

// The most digits before the point, and after it.
const MOST_WHOLE: usize = 5;

const MOST_FRACTION: usize = 3;

// The value of one to `most` digits. Nine always fit the answer.
fn figures(digits: &[u8], most: usize) -> Option<u32>
    requires { most ≤ 9 }
    ensures value { result ≡ valued most digits.now }
    ensures small { MatchOption result Unit (λ n. (length digits.now ≤ most) × (n < 10 ^ length digits.now)) }
{
    if digits.is_empty() || digits.len() > most {
        return None;
    }
    // A `for`, which `try_fold` would say no plainer.
    let mut n = 0;
    for b in digits {
        if !is_digit(*b) {
            return None;
        }
        n = n * 10 + u32::from(*b - b'0');
    }
    Some(n)
}

// The place of the first point.
fn first_point(bytes: &[u8]) -> Option<usize>
    ensures { result ≡ position (λ b. b == 46) bytes.now }
{
    bytes.iter().position(|b| is_point(*b))
}

// Digits after the point with the value n, in thousandths.
fn scale(n: u32, digits: usize) -> u32
    requires { (digits ≤ most_fraction) × (n < 10 ^ digits) }
    ensures { result ≡ scaled n digits }
{
    n * 10u32.pow((MOST_FRACTION - digits) as u32)
}

// What stands from the point on, in thousandths; nothing is zero.
fn fraction(part: &[u8]) -> Option<u32>
    ensures value { result ≡ fraction part.now }
    ensures small { MatchOption result Unit (λ n. n < 1000) }
{
    let [_, digits @ ..] = part else {
        return Some(0);
    };
    let n = figures(digits, MOST_FRACTION)?;
    Some(scale(n, digits.len()))
}

// A number without its sign, in thousandths.
fn thousandths(bytes: &[u8]) -> Option<u32>
    ensures value { result ≡ thousandths bytes.now }
    ensures small { MatchOption result Unit (λ n. n < 10 ^ 8) }
{
    let (whole, part) = bytes.split_at(first_point(bytes).unwrap_or(bytes.len()));
    let whole = figures(whole, MOST_WHOLE)?;
    let part = fraction(part)?;
    Some(whole * 1000 + part)
}

// A number in thousandths.
fn exact(bytes: &[u8]) -> Option<i32>
    ensures { result ≡ exact bytes.now }
{
    match bytes {
        [sign, size @ ..] if is_hyphen(*sign) => Some(-(thousandths(size)? as i32)),
        _ => Some(thousandths(bytes)? as i32),
    }
}

// A number in hundredths, rounded to the nearest, a half away from zero; none where the bytes are no number.
pub fn number(bytes: &[u8]) -> Option<i32>
    ensures means { Means bytes.now result }
    ensures value { result ≡ number bytes.now }
{
    exact(bytes).map(hundredths)
}
