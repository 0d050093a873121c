// Decimal numbers.
ghost use Rattle.std.specs.Prelude.{◌≡◌};
ghost use Rattle.text.specs.Number.{meets, digits_most, reaches, can_meet, end_of, decimal_at, number_for, number_at};

use crate::Read;

// What is asked of a number: nothing; to be the count of a range set; to be at most, or at least, another number.
#[derive(Clone, Copy)]
pub enum Need {
    Any,
    Count,
    AtMost(u32),
    AtLeast(u32),
}

const LARGEST: u64 = 4294967295;

// The most digits of a number.
const MOST_DIGITS: u32 = 10;

// A number but 0 can always go on to be at least this: it can get nine digits.
const ALWAYS_REACHED: u32 = 100000000;

#[tactic(auto, unfolding(crate::specs::Number::meets))]
fn meets(need: Need, v: u32) -> bool
    ensures { result ≡ meets need v }
{
    match need {
        Need::Any => true,
        Need::Count => v % 2 == 0 && 2 <= v,
        Need::AtMost(high) => v <= high,
        Need::AtLeast(low) => low <= v,
    }
}

// Some number that begins with the digits of v is at least low.
fn can_reach(v: u32, low: u32) -> bool
    ensures { result ≡ reaches digits_most low v v }
{
    if low <= v {
        return true;
    }
    if v == 0 {
        return false;
    }
    if low <= ALWAYS_REACHED {
        return true;
    }
    let mut first = v as u64;
    let mut last = v as u64;
    for _ in 0..MOST_DIGITS {
        if low as u64 <= last {
            return true;
        }
        if LARGEST < first * 10 {
            return false;
        }
        first *= 10;
        last = last * 10 + 9;
    }
    low as u64 <= last
}

// Some number that begins with the digits of v is what is asked for.
#[tactic(auto, unfolding(crate::specs::Number::can_meet))]
fn can_meet(need: Need, v: u32) -> bool
    ensures { result ≡ can_meet need v }
{
    match need {
        Need::Any => true,
        Need::Count => v != 0 && (v % 2 == 0 || v as u64 * 10 <= LARGEST),
        Need::AtMost(high) => v <= high,
        Need::AtLeast(low) => can_reach(v, low),
    }
}

// A number that ends before position i.
#[tactic(auto, unfolding(crate::specs::Number::end_of))]
fn number_end(need: Need, v: u32, i: usize) -> Read<u32>
    ensures { result ≡ end_of need v i }
{
    if meets(need, v) { Ok((v, i)) } else { Err(i) }
}

// The value of the digit at a position.
#[tactic(auto, unfolding(crate::specs::Number::decimal_at))]
fn digit_at(s: &[u8], i: usize) -> Option<u8>
    ensures { result ≡ decimal_at s.now i }
{
    match s.get(i) {
        Some(b @ b'0'..=b'9') => Some(b - b'0'),
        _ => None,
    }
}

// After each digit it looks whether a number that is asked for can still follow: where none can, that digit is the fault. It is compiled into its
// callers, so that nothing is left of the look where nothing is asked. The position is counted, since it is what is answered.
#[inline(always)]
#[tactic(auto, using(crate::proofs::DigitLaws::decimal_most))]
fn read_digits(s: &[u8], at: usize, need: Need) -> Read<u32>
    ensures { result ≡ number_for need s.now at }
{
    let Some(first) = digit_at(s, at) else {
        return Err(at);
    };
    let mut value = first as u64;
    if !can_meet(need, value as u32) {
        return Err(at);
    }
    let mut i = at + 1;
    while let Some(digit) = digit_at(s, i) {
        let longer = value * 10 + digit as u64;
        if value == 0 || LARGEST < longer || !can_meet(need, longer as u32) {
            return Err(i);
        }
        value = longer;
        i += 1;
    }
    number_end(need, value as u32, i)
}

// Of its own, since few numbers are read so, and the readers of all others stay short.
#[inline(never)]
fn read_watched(s: &[u8], at: usize, need: Need) -> Read<u32>
    ensures { result ≡ number_for need s.now at }
{
    read_digits(s, at, need)
}

pub fn read_number(s: &[u8], at: usize) -> Read<u32>
    ensures { result ≡ number_at s.now at }
{
    read_digits(s, at, Need::Any)
}

// The fault is the first byte at which no number that is asked for could go on. Nearly every number is as it should be, and is read without a
// look at the need; one that is not is read again for its fault.
pub fn read_number_for(s: &[u8], at: usize, need: Need) -> Read<u32>
    ensures { result ≡ number_for need s.now at }
{
    let read = read_number(s, at);
    match read {
        Ok((v, _)) if meets(need, v) => read,
        _ => read_watched(s, at, need),
    }
}
