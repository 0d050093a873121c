// A line and its fields, which are parted by one space each and count from 0.

// The line from field k on, empty where there are fewer.
pub fn rest(line: &[u8], k: usize) -> &[u8] {
    let mut left = line;
    for _ in 0..k {
        let Some(space) = left.iter().position(|b| *b == b' ') else {
            return &[];
        };
        left = &left[space + 1..];
    }
    left
}

// Field k, empty where there are fewer.
pub fn field(line: &[u8], k: usize) -> &[u8] {
    line.split(|b| *b == b' ').nth(k).unwrap_or(&[])
}

// The digits at the front of a text as a number, as many of them as 64 bits hold.
fn decimal(text: &[u8]) -> usize {
    let mut n: usize = 0;
    for byte in text {
        let Some(digit) = char::from(*byte).to_digit(10) else {
            return n;
        };
        let Some(longer) = n
            .checked_mul(10)
            .and_then(|m| m.checked_add(digit as usize))
        else {
            return n;
        };
        n = longer;
    }
    n
}

// Field k as a number, 0 where there is none.
pub fn number(line: &[u8], k: usize) -> usize {
    decimal(field(line, k))
}
