// The answer line.
ghost use Rattle.std.specs.Prelude.{◌+◌, ◌≤◌, ◌≡◌, length};
ghost use Rattle.std.proofs.Math.Seq.{paste};
ghost use Rattle.io.specs.Counts.{IsPrefixLen};
ghost use Rattle.state.specs.Refusals.{has_byte};
ghost use Rattle.decisions.specs.Answer.{decimal, most_digits, refused_word, number_line, refused_line, fault_line, refusal_line, answer_line, line_of};
ghost use Rattle.decisions.specs.Loading.{load_line, loading_line};

use state::Refusal;
use state::refusals::Reason;
use updater::Outcome;

// `refused `, three numbers, the spaces between them and an LF.
const LINE_BYTES: usize = 71;

// A line at the start of a buffer, with zeros past it.
#[derive(Clone, Copy)]
pub struct Line {
    pub bytes: [u8; LINE_BYTES],
    pub length: usize,
}

// Puts a text at a place of a buffer, and answers where it ends.
fn put(out: &mut [u8], at: usize, text: &[u8]) -> usize
    requires { at + length text.now ≤ length out.old }
    ensures value { result ≡ at + length text.now }
    ensures out_after { out.new ≡ paste out.old at text.now (length text.now) }
{
    let end = at + text.len();
    out[at..end].copy_from_slice(text);
    end
}

fn put_decimal(out: &mut [u8], at: usize, n: u64) -> usize
    requires { at + most_digits ≤ length out.old }
    ensures value { (result ≡ at + length (decimal n)) × (result ≤ at + most_digits) }
    ensures out_after { out.new ≡ paste out.old at (decimal n) (length (decimal n)) }
{
    let mut digits = [0; 20];
    let k = io::decimal(n, &mut digits);
    put(out, at, &digits[..k])
}

fn number_line(word: &[u8], n: u64) -> Line
    requires { length word.now ≤ length refused_word }
    ensures value { result ≡ line_of (number_line word.now n) }
    ensures prefix_len { IsPrefixLen result.length result.bytes }
{
    let mut bytes = [0; LINE_BYTES];
    let a = put(&mut bytes, 0, word);
    let b = put_decimal(&mut bytes, a, n);
    let length = put(&mut bytes, b, b"\n");
    Line { bytes, length }
}

fn refused_line(number: usize, line: usize) -> Line
    ensures value { result ≡ line_of (refused_line number line) }
    ensures prefix_len { IsPrefixLen result.length result.bytes }
{
    let mut bytes = [0; LINE_BYTES];
    let a = put(&mut bytes, 0, b"refused ");
    let b = put_decimal(&mut bytes, a, number as u64);
    let c = put(&mut bytes, b, b" ");
    let d = put_decimal(&mut bytes, c, line as u64);
    let length = put(&mut bytes, d, b"\n");
    Line { bytes, length }
}

// A refusal with the byte of its fault.
fn fault_line(number: usize, line: usize, byte: usize) -> Line
    ensures value { result ≡ line_of (fault_line number line byte) }
    ensures prefix_len { IsPrefixLen result.length result.bytes }
{
    let mut bytes = [0; LINE_BYTES];
    let a = put(&mut bytes, 0, b"refused ");
    let b = put_decimal(&mut bytes, a, number as u64);
    let c = put(&mut bytes, b, b" ");
    let d = put_decimal(&mut bytes, c, line as u64);
    let e = put(&mut bytes, d, b" ");
    let f = put_decimal(&mut bytes, e, byte as u64);
    let length = put(&mut bytes, f, b"\n");
    Line { bytes, length }
}

fn has_byte(number: usize) -> bool
    ensures { result ≡ has_byte number }
{
    number == Reason::HeaderForm.number() || number == Reason::LineForm.number()
}

#[tactic(auto, unfolding(crate::specs::Answer::refusal_line))]
fn refusal_line(refusal: Refusal) -> Line
    ensures value { result ≡ line_of (refusal_line refusal) }
    ensures prefix_len { IsPrefixLen result.length result.bytes }
{
    if has_byte(refusal.number) {
        return fault_line(refusal.number, refusal.line, refusal.byte);
    }
    refused_line(refusal.number, refusal.line)
}

// What is printed for an outcome and all bytes taken.
pub fn answer_line(outcome: Outcome, taken: u64) -> Line
    ensures value { result ≡ line_of (answer_line outcome taken) }
    ensures prefix_len { IsPrefixLen result.length result.bytes }
{
    match outcome {
        Outcome::Done => number_line(b"done ", taken),
        Outcome::More => number_line(b"more ", taken),
        Outcome::Stop => number_line(b"stop ", taken),
        Outcome::Refused(refusal) => refusal_line(refusal),
    }
}

// What is printed for a load: its blocks, or the number of its refusal.
pub fn load_line(number: usize, blocks: usize) -> Line
    ensures value { result ≡ line_of (load_line number blocks) }
    ensures prefix_len { IsPrefixLen result.length result.bytes }
{
    if number != 0 {
        return number_line(b"refused ", number as u64);
    }
    number_line(b"loaded ", blocks as u64)
}

// The same by what a load came to: the image's blocks, or why it was refused.
pub fn loading_line(loaded: Result<usize, Reason>) -> Line
    ensures value { result ≡ line_of (loading_line loaded) }
    ensures prefix_len { IsPrefixLen result.length result.bytes }
{
    match loaded {
        Ok(blocks) => load_line(0, blocks),
        Err(reason) => load_line(reason.number(), 0),
    }
}
