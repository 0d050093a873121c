// What a call leaves, printed.
use records::streams::{Hex, say};
use state::State;
use state::limits::BLOCK_BYTES;
use updater::{Called, Outcome};

fn say_outcome(out: &impl Print, outcome: Outcome) {
    let _ = match outcome {
        Outcome::Done => print!(out; "  done"),
        Outcome::More => print!(out; "  more"),
        Outcome::Stop => print!(out; "  stop"),
        Outcome::Refused(r) => print!(out; "  refused {} {} {}", r.number, r.line, r.byte),
    };
}

// The letter that a block is filled with, if it is.
fn letter_of(block: &[u8]) -> Option<u8> {
    let (first, rest) = block.split_first()?;
    if !rest.iter().all(|b| b == first) {
        return None;
    }
    Some(if *first == 0 { b'0' } else { *first })
}

fn say_block(out: &impl Print, block: &[u8]) {
    match letter_of(block) {
        Some(letter) => say(out, &[letter]),
        None => {
            let digest = sha1_digest::digest(block);
            let _ = print!(out; "[{}]", Hex(&digest[..4]));
        }
    }
}

fn say_area(out: &impl Print, label: &str, area: &[u8]) {
    let _ = print!(out; ", {label} ");
    for block in area.chunks(BLOCK_BYTES) {
        say_block(out, block);
    }
}

pub(crate) fn report(
    out: &impl Print,
    called: Called,
    image: &[u8],
    stash: &[u8],
    work: &[u8],
    res: &[u8],
) {
    say_outcome(out, called.outcome);
    let taken = called.taken;
    let _ = print!(out; ", taken {taken}");
    say_area(out, "image", image);
    say_area(out, "stash", stash);
    say_area(out, "work", work);
    say_area(out, "result", res);
    say(out, b"\n");
}

// What a stop leaves to save, besides stashes and position.
pub(crate) fn say_state(out: &impl Print, s: &State) {
    let _ = println!(out;
        "    line {}, stashes {}, total {}, ready {}, stretches {}",
        s.line, s.table.count, s.total, s.ready, s.stretches
    );
}
