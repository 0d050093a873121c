// States that no call gave.
use records::fields::{field, number};
use state::{Lengths, Refusal, State};
use text::hash::read_hash;

pub(crate) fn set(s: &mut State, name: &[u8], n: usize) {
    match name {
        b"at" => s.at = n,
        b"line" => s.line = n,
        b"into" => s.into = n,
        b"count" => s.table.count = n,
        b"total" => s.total = n,
        b"ready" => s.ready = n,
        b"stretches" => s.stretches = n,
        _ => {}
    }
}

// A text that is no hash holds a stash of zeros.
pub(crate) fn hold_one(s: &mut State, line: &[u8]) {
    let read = read_hash(field(line, 1), 0);
    let hash = read.map_or([0; 20], |(hash, _)| hash);
    s.table.hold(hash, number(line, 2));
}

pub(crate) fn refusal_in(line: &[u8]) -> Refusal {
    Refusal {
        number: number(line, 1),
        line: number(line, 2),
        byte: number(line, 3),
    }
}

pub(crate) fn lengths_in(line: &[u8]) -> Lengths {
    Lengths {
        list: number(line, 1),
        image: number(line, 2),
        stash: number(line, 3),
        work: number(line, 4),
        result: number(line, 5),
        patch: number(line, 6),
    }
}
