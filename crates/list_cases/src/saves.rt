// Saved forms, read back as they are and damaged.
use records::buffers::part;
use saved::{SAVED_BYTES, restore, restore_in_place, save, save_in_place};
use state::State;
use std::fmt;

const LONGER: usize = SAVED_BYTES + 1;

// The state goes on from what is read back from its saved form.
pub(crate) fn save_and_restore(out: &impl Print, state: &mut State) {
    let bytes = save(state);
    let number = match restore(&bytes) {
        Ok(read) => {
            *state = read;
            0
        }
        Err(reason) => reason.number(),
    };
    let length = bytes.len();
    let _ = println!(out; "  saved {length}, restored {number}");
}

// What reading damaged bytes comes to: they are refused, they are the saved form of the state that is read, or they are neither.
#[derive(Clone, Copy)]
enum Read {
    Refused,
    Other,
    Neither,
}

// As a number.
impl fmt::Display for Read {
    fn fmt<W: fmt::Write>(&self, f: &mut fmt::Formatter<W>) -> fmt::Result {
        match self {
            Read::Refused => write!(f, "0"),
            Read::Other => write!(f, "1"),
            Read::Neither => write!(f, "2"),
        }
    }
}

// How many damaged forms came to each.
#[derive(Clone, Copy, Default)]
struct Tally {
    refused: usize,
    other: usize,
    neither: usize,
}

impl Tally {
    fn count(&mut self, read: Read) {
        let n = match read {
            Read::Refused => &mut self.refused,
            Read::Other => &mut self.other,
            Read::Neither => &mut self.neither,
        };
        *n = n.saturating_add(1);
    }
}

// The state that damaged bytes are read over, and the saved form of it: one of each for all of them, since there are thousands.
#[derive(Clone, Copy)]
struct Reader {
    state: State,
    form: [u8; SAVED_BYTES],
}

impl Reader {
    fn read_back(&mut self, bytes: &[u8]) -> Read {
        match restore_in_place(bytes, &mut self.state) {
            Err(_) => Read::Refused,
            Ok(()) => {
                save_in_place(&mut self.form, &self.state);
                if bytes == self.form.as_slice() {
                    Read::Other
                } else {
                    Read::Neither
                }
            }
        }
    }

    // Each byte altered in turn.
    fn alter_each(&mut self, saved: &[u8; SAVED_BYTES]) -> Tally {
        let mut bytes = *saved;
        let mut tally = Tally::default();
        for (k, byte) in saved.iter().enumerate() {
            bytes[k] = *byte ^ 1;
            tally.count(self.read_back(&bytes));
            bytes[k] = *byte;
        }
        tally
    }

    fn read_longer(&mut self, saved: &[u8; SAVED_BYTES]) -> Read {
        let mut longer = [0; LONGER];
        longer[..SAVED_BYTES].copy_from_slice(saved);
        self.read_back(&longer)
    }
}

// Each byte altered in turn, a byte cut off, and one added.
pub(crate) fn damage(out: &impl Print, state: &State) {
    let saved = save(state);
    let mut reader = Reader {
        state: *state,
        form: saved,
    };
    let t = reader.alter_each(&saved);
    let short = reader.read_back(part(&saved, 0, SAVED_BYTES - 1));
    let long = reader.read_longer(&saved);
    let _ = println!(out;
        "  damaged: refused {}, other states {}, neither {}; a byte short {short}, a byte long {long}",
        t.refused, t.other, t.neither
    );
}
