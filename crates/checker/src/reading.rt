// Reading words and numbers at the front of a text: each function hands on the text behind what it read. Digits are read one by
// one, since the library's `parse` takes a plus and zeros in front.
ghost use Rattle.std.specs.Prelude.{◌≡◌, ◌^◌, ◌<◌, ◌≤◌, MatchOption};
ghost use Rattle.checker.specs.Reading.{seen, rest_seen, after, digits, number, below, above, whole, index, digit};
ghost use Rattle.checker.specs.Reading.{hundredths, owed_price, paid_price, price, largest};

use hour::ZERO_PRICE;

const LARGEST: u128 = u64::MAX as u128;

const WIDEST: u128 = i128::MAX as u128;

const NO_MONEY: u128 = ZERO_PRICE as u128;

// The text behind a word.
pub fn after<'a>(word: &str, bytes: &'a [u8]) -> Option<&'a [u8]>
    ensures { rest_seen result ≡ after word.now bytes.now }
{
    bytes.strip_prefix(word.as_bytes())
}

// A number goes on with the digits at the front.
fn digits<'a>(limit: u128, first: u128, bytes: &'a [u8]) -> Option<(u128, &'a [u8])>
    requires { (9 ≤ limit) × ((limit < 2 ^ 127) × (first ≤ limit)) }
    ensures value { seen result ≡ digits limit first bytes.now }
    ensures small { MatchOption result (9 ≤ limit) (λ p. p.0 ≤ limit) }
{
    let mut n = first;
    let mut rest = bytes;
    while let Some((b, behind)) = rest.split_first() {
        if !b.is_ascii_digit() {
            return Some((n, rest));
        }
        let d = u128::from(*b - b'0');
        if n > (limit - d) / 10 {
            return None;
        }
        n = n * 10 + d;
        rest = behind;
    }
    Some((n, rest))
}

// A number with no zero in front.
pub fn number<'a>(limit: u128, bytes: &'a [u8]) -> Option<(u128, &'a [u8])>
    requires { (9 ≤ limit) × (limit < 2 ^ 127) }
    ensures value { seen result ≡ number limit bytes.now }
    ensures small { MatchOption result (9 ≤ limit) (λ p. p.0 ≤ limit) }
{
    let (b, rest) = bytes.split_first()?;
    if *b == b'0' {
        return Some((0, rest));
    }
    if !b.is_ascii_digit() {
        return None;
    }
    digits(limit, u128::from(*b - b'0'), rest)
}

// The text behind the number k.
pub fn index<'a>(k: usize, bytes: &'a [u8]) -> Option<&'a [u8]>
    ensures { rest_seen result ≡ index k bytes.now }
{
    let (n, rest) = number(LARGEST, bytes)?;
    if n == k as u128 { Some(rest) } else { None }
}

// A number of 64 bits.
pub fn amount<'a>(bytes: &'a [u8]) -> Option<(u64, &'a [u8])>
    ensures { seen result ≡ number largest bytes.now }
{
    let (n, rest) = number(LARGEST, bytes)?;
    Some((n as u64, rest))
}

// What follows a minus: no 0.
fn below<'a>(bytes: &'a [u8]) -> Option<(i128, &'a [u8])>
    ensures { seen result ≡ below bytes.now }
{
    let (n, rest) = number(WIDEST, bytes)?;
    if n == 0 {
        return None;
    }
    Some((-(n as i128), rest))
}

fn above<'a>(bytes: &'a [u8]) -> Option<(i128, &'a [u8])>
    ensures { seen result ≡ above bytes.now }
{
    let (n, rest) = number(WIDEST, bytes)?;
    Some((n as i128, rest))
}

// A number that may have a minus.
pub fn whole<'a>(bytes: &'a [u8]) -> Option<(i128, &'a [u8])>
    ensures { seen result ≡ whole bytes.now }
{
    match after("-", bytes) {
        Some(rest) => below(rest),
        None => above(bytes),
    }
}

fn digit<'a>(bytes: &'a [u8]) -> Option<(u64, &'a [u8])>
    ensures value { seen result ≡ digit bytes.now }
    ensures small { MatchOption result (9 ≤ 9) (λ p. p.0 ≤ 9) }
{
    let (b, rest) = bytes.split_first()?;
    if b.is_ascii_digit() {
        Some((u64::from(*b - b'0'), rest))
    } else {
        None
    }
}

// Units, a point and two digits.
fn hundredths<'a>(bytes: &'a [u8]) -> Option<(u128, &'a [u8])>
    ensures value { seen result ≡ hundredths bytes.now }
    ensures small { MatchOption result (9 ≤ 9) (λ p. p.0 < 2 ^ 127) }
{
    let (units, rest) = number(LARGEST, bytes)?;
    let rest = after(".", rest)?;
    let (tens, rest) = digit(rest)?;
    let (ones, rest) = digit(rest)?;
    Some((units * 100 + u128::from(tens) * 10 + u128::from(ones), rest))
}

// A price below nothing: not 0, and no further below than a price goes.
fn owed_price<'a>(bytes: &'a [u8]) -> Option<(u64, &'a [u8])>
    ensures { seen result ≡ owed_price bytes.now }
{
    let (money, rest) = hundredths(bytes)?;
    if money == 0 {
        return None;
    }
    if money <= NO_MONEY {
        Some(((NO_MONEY - money) as u64, rest))
    } else {
        None
    }
}

fn paid_price<'a>(bytes: &'a [u8]) -> Option<(u64, &'a [u8])>
    ensures { seen result ≡ paid_price bytes.now }
{
    let (money, rest) = hundredths(bytes)?;
    if NO_MONEY + money <= LARGEST {
        Some(((NO_MONEY + money) as u64, rest))
    } else {
        None
    }
}

// A price that is shown as money.
pub fn price<'a>(bytes: &'a [u8]) -> Option<(u64, &'a [u8])>
    ensures { seen result ≡ price bytes.now }
{
    match after("-", bytes) {
        Some(rest) => owed_price(rest),
        None => paid_price(bytes),
    }
}
