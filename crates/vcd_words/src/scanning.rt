// The bytes of a word, up to a separator or the slice's end.
ghost use Rattle.std.specs.Prelude.{◌+◌, ◌*◌, min, ◌≡◌, true, ◌&&◌, ◌||◌, length, drop, eqb};
ghost use Rattle.recording.specs.Words.{separator};
ghost use Rattle.recording.specs.Values.{is_digit, is_bit, is_definite, bit_of, bit_number};
ghost use Rattle.vcd_words.specs.Partial.{run, spell_high, spell_low, with_digit, more_digits, with_known_bit, more_bits, begun_with};
ghost use Rattle.vcd_words.specs.Partial.{counted_of, partial_with, empty, extended_by};

use crate::{Number, Partial, Scanned, Spelled};

// 2^56: what is kept of a number of eight bytes when a byte is added.
const SEVEN: u64 = 1 << 56;

// Nothing is read of a word yet.
pub fn nothing() -> Partial
    ensures { result ≡ empty }
{
    partial_with(0, 0, 0, 0, None)
}

// Most bytes of a text are above the space, the highest separator.
pub fn is_separator(b: u8) -> bool
    ensures { result ≡ separator b }
{
    b <= b' ' && matches!(b, b' ' | b'\t' | b'\r' | b'\n')
}

// The bytes up to a separator, or all: where they end, and what is kept of the last sixteen bytes after them, two numbers of eight. One loop
// does both, since a word may be long.
fn spell(text: &[u8], high: u64, low: u64) -> Spelled
    ensures { (result.end ≡ length (run text.now)) × (result.high ≡ spell_high high low (run text.now)) ×
        (result.low ≡ spell_low low (run text.now)) }
{
    let mut high = high;
    let mut low = low;
    for (i, b) in text.iter().enumerate() {
        if is_separator(*b) {
            return Spelled { end: i, high, low };
        }
        high = high % SEVEN * 256 + low / SEVEN;
        low = low % SEVEN * 256 + u64::from(*b);
    }
    Spelled {
        end: text.len(),
        high,
        low,
    }
}

// ---- decimal numbers

pub fn is_digit(b: u8) -> bool
    ensures { result ≡ is_digit b }
{
    b.is_ascii_digit()
}

// A digit more, of a number that is none above 2^64 - 1. Most are below a tenth of that, where any digit fits: one test, and a branch.
#[tactic(auto, unfolding(crate::specs::Partial::with_digit))]
fn with_digit(n: Option<u64>, b: u8) -> Option<u64>
    requires { is_digit b ≡ true }
    ensures { result ≡ with_digit n b }
{
    let value = n?;
    let digit = u64::from(b - b'0');
    if value < u64::MAX / 10 {
        Some(10 * value + digit)
    } else {
        value.checked_mul(10)?.checked_add(digit)
    }
}

fn digits(bytes: &[u8], n: Option<u64>) -> Option<Number>
    ensures { result ≡ more_digits n bytes.now }
{
    let mut sum = n;
    for b in bytes {
        if !is_digit(*b) {
            return None;
        }
        sum = with_digit(sum, *b);
    }
    Some(Number::Decimal(sum))
}

// ---- vectors

pub fn is_bit(b: u8) -> bool
    ensures { result ≡ is_bit b }
{
    matches!(b, b'0' | b'1' | b'x' | b'X' | b'z' | b'Z')
}

pub fn still_known(known: bool, b: u8) -> bool
    ensures { result ≡ (known && is_definite (bit_of b)) }
{
    known && matches!(b, b'0' | b'1')
}

pub fn with_bit(value: u64, b: u8) -> u64
    ensures { result ≡ min 65535 (2 * value + bit_number (bit_of b)) }
{
    let bit = u64::from(b == b'1');
    value.saturating_mul(2).saturating_add(bit).min(65535)
}

// A bit more, of a number that is none after an x or z.
#[tactic(auto, unfolding(crate::specs::Partial::with_known_bit))]
pub fn with_known_bit(n: Option<u16>, b: u8) -> Option<u16>
    ensures { result ≡ with_known_bit n b }
{
    let number = u64::from(n?);
    still_known(true, b).then_some(with_bit(number, b) as u16)
}

// As digits, but with another test, step, type and variant: one loop that takes these four would be no plainer.
fn bits(bytes: &[u8], n: Option<u16>) -> Option<Number>
    ensures { result ≡ more_bits n bytes.now }
{
    let mut sum = n;
    for b in bytes {
        if !is_bit(*b) {
            return None;
        }
        sum = with_known_bit(sum, *b);
    }
    Some(Number::Binary(sum))
}

// ---- a word

// The number after the first byte.
#[tactic(auto, unfolding(crate::specs::Partial::begun_with))]
fn begun(b: u8) -> Option<Number>
    ensures { result ≡ begun_with b }
{
    if is_binary(b) {
        Some(Number::Binary(Some(0)))
    } else if b == b'#' {
        Some(Number::Decimal(Some(0)))
    } else if is_digit(b) {
        Some(Number::Decimal(Some(u64::from(b - b'0'))))
    } else {
        None
    }
}

// The number after more bytes.
#[tactic(auto, unfolding(crate::specs::Partial::counted_of))]
fn counted(bytes: &[u8], n: Option<Number>) -> Option<Number>
    ensures { result ≡ counted_of n bytes.now }
{
    match n? {
        Number::Decimal(sum) => digits(bytes, sum),
        Number::Binary(sum) => bits(bytes, sum),
    }
}

// b or B.
pub fn is_binary(first: u8) -> bool
    ensures { result ≡ (eqb first 98 || eqb first 66) }
{
    matches!(first, b'b' | b'B')
}

// The length, held at 256.
fn longer(length: u16, more: usize) -> u16
    ensures { result ≡ min 256 (length + more) }
{
    usize::from(length).saturating_add(more).min(256) as u16
}

// The bytes of a word from an offset on, up to a separator or the slice's end, added to what is kept of the word.
pub fn scan(text: &[u8], from: usize, p: Partial) -> Scanned
    ensures { (result.end ≡ from + length (run (drop from text.now))) ×
        (result.partial ≡ extended_by p (run (drop from text.now))) }
{
    let Some(rest) = text.get(from..) else {
        return Scanned {
            end: from,
            partial: p,
        };
    };
    let spelled = spell(rest, p.high, p.low);
    Scanned {
        end: from + spelled.end,
        partial: extended(p, &rest[..spelled.end], spelled),
    }
}

// What is kept of a word, with bytes added of which the last sixteen are spelled.
fn extended(p: Partial, bytes: &[u8], spelled: Spelled) -> Partial
    requires { (spelled.high ≡ spell_high p.high p.low bytes.now) × (spelled.low ≡ spell_low p.low bytes.now) }
    ensures { result ≡ extended_by p bytes.now }
{
    let [b, others @ ..] = bytes else {
        return p;
    };
    let Spelled { high, low, .. } = spelled;
    let length = longer(p.length, bytes.len());
    if p.length == 0 {
        let number = counted(others, begun(*b));
        partial_with(length, *b, high, low, number)
    } else {
        let number = counted(bytes, p.number);
        partial_with(length, p.first, high, low, number)
    }
}

fn partial_with(length: u16, first: u8, high: u64, low: u64, number: Option<Number>) -> Partial
    ensures { result ≡ partial_with length first high low number }
{
    Partial {
        length,
        first,
        high,
        low,
        number,
    }
}
