// The updater and the reader of sparse images for C and Rust: numbers, slices and arrays, which cross alike on every 64-bit little-endian
// machine. A state crosses as its saved form, and is changed where that lies. `muongrabi_c` exports each function here under its name.
#![tactic(auto)]

ghost use Rattle.std.specs.Prelude.{◌≡◌, length};
ghost use Rattle.sha1_digest.specs.Sha1.{sha1};
ghost use Rattle.transfer_list.specs.Opening.{lengths_of};
ghost use Rattle.updater.specs.Areas.{areas_of};
ghost use Rattle.saved.specs.Saved.{FormOf};
ghost use Rattle.sparse.specs.Loading.{load_refusal, loaded_image};
ghost use Rattle.muongrabi.specs.Abi.{abi};
ghost use Rattle.muongrabi.specs.Answers.{answer_of, Opens, Calls, Runs};
ghost use Rattle.muongrabi.specs.Fields.{numbers_of, state_from, fields_as, fields_over};

use saved::{SAVED_BYTES, no_state, restore_in_place, save_in_place};
use sequence::run_pieces;
use state::limits::{MOST_STASHES, TABLE_BYTES};
use state::refusals::Refused;
use state::stashes::Table;
use state::{Lengths, Refusal, State};
use updater::{Outcome, call};

const ABI: usize = 6;

// The outcomes as numbers, which cross to C.
const DONE: u64 = 0;

const MORE: u64 = 1;

const REFUSED: u64 = 2;

const STOP: u64 = 3;

// The numbers of an opening's answer: number, line and byte of the refusal.
pub const OPENING_NUMBERS: usize = 3;

// The numbers of a call's answer: outcome; number, line and byte of the refusal; bytes taken.
pub const ANSWER_NUMBERS: usize = 5;

// The numbers of a state besides its tables, in the order of its saved form.
pub const STATE_NUMBERS: usize = 16;

fn to_answer(outcome: Outcome, taken: usize) -> [u64; ANSWER_NUMBERS]
    ensures { result ≡ answer_of outcome taken }
{
    match outcome {
        Outcome::Done => [DONE, 0, 0, 0, taken as u64],
        Outcome::More => [MORE, 0, 0, 0, taken as u64],
        Outcome::Stop => [STOP, 0, 0, 0, taken as u64],
        Outcome::Refused(refusal) => [
            REFUSED,
            refusal.number as u64,
            refusal.line as u64,
            refusal.byte as u64,
            taken as u64,
        ],
    }
}

// The ABI's number. The name has it too, so that what was built for another one does not link.
pub fn muongrabi_abi_6() -> usize
    ensures { result ≡ abi }
{
    ABI
}

// The SHA-1 digest of the bytes.
pub fn muongrabi_digest(bytes: &[u8], out: &mut [u8; 20])
    ensures { out.new ≡ sha1 bytes.now }
{
    *out = sha1_digest::digest(bytes);
}

// Opens a list over areas and patch data of the given lengths in bytes. The state is written whole, whatever it held.
pub fn muongrabi_open(
    list: &[u8],
    image: usize,
    stash: usize,
    work: usize,
    res: usize,
    patch: usize,
    state: &mut [u8; SAVED_BYTES],
    answer: &mut [u64; OPENING_NUMBERS],
)
    ensures { Opens list.now (lengths_of list.now image stash work res patch) state.new answer.new }
{
    let opened = transfer_list::open(list, image, stash, work, res, patch);
    save_in_place(state, &opened);
    *answer = [
        opened.refusal.number as u64,
        opened.refusal.line as u64,
        opened.refusal.byte as u64,
    ];
}

// One call with one piece of new data, from the state whose saved form is lent; after it these bytes are the saved form of the state that it
// left. Where they are no state's saved form: 20, and nothing is changed.
pub fn muongrabi_call(
    list: &[u8],
    image: &mut [u8],
    stash: &mut [u8],
    work: &mut [u8],
    res: &mut [u8],
    patch: &[u8],
    piece: &[u8],
    state: &mut [u8; SAVED_BYTES],
    answer: &mut [u64; ANSWER_NUMBERS],
)
    ensures { Calls list.now piece.now (areas_of image.old stash.old work.old res.old patch.now) state.old (areas_of image.new stash.new work.new res.new patch.now) state.new answer.new }
{
    let mut kept = no_state();
    match restore_in_place(state, &mut kept) {
        Ok(()) => {
            let called = call(list, image, stash, work, res, patch, piece, &mut kept);
            save_in_place(state, &kept);
            *answer = to_answer(called.outcome, called.taken);
        }
        Err(reason) => {
            let refused = Refused {
                reason,
                line: 0,
                byte: 0,
            };
            *answer = to_answer(Outcome::Refused(refused.refusal()), 0);
        }
    }
}

// Opens the list and makes the calls: a piece of each given length, cut short where the bytes end, and then one with what is left; after a stop
// it calls on. The state is that after the last call, whatever it held.
pub fn muongrabi_run(
    list: &[u8],
    image: &mut [u8],
    stash: &mut [u8],
    work: &mut [u8],
    res: &mut [u8],
    patch: &[u8],
    bytes: &[u8],
    cuts: &[usize],
    state: &mut [u8; SAVED_BYTES],
    answer: &mut [u64; ANSWER_NUMBERS],
)
    ensures { Runs list.now bytes.now (areas_of image.old stash.old work.old res.old patch.now) (areas_of image.new stash.new work.new res.new patch.now) state.new answer.new }
{
    let ran = run_pieces(list, image, stash, work, res, patch, bytes, cuts);
    save_in_place(state, &ran.state);
    *answer = to_answer(ran.called.outcome, ran.called.taken);
}

// The state with these tables and numbers.
fn state_from<'a>(
    hashes: &'a [u8; TABLE_BYTES],
    sizes: &'a [usize; MOST_STASHES],
    numbers: &'a [usize; STATE_NUMBERS],
) -> State
    ensures { result ≡ state_from hashes.now sizes.now numbers.now }
{
    State {
        table: Table {
            hashes: *hashes,
            sizes: *sizes,
            count: numbers[0],
        },
        line: numbers[1],
        at: numbers[2],
        into: numbers[3],
        total: numbers[4],
        ready: numbers[5],
        stretches: numbers[6],
        refusal: Refusal {
            number: numbers[7],
            line: numbers[8],
            byte: numbers[9],
        },
        lengths: Lengths {
            list: numbers[10],
            image: numbers[11],
            stash: numbers[12],
            work: numbers[13],
            result: numbers[14],
            patch: numbers[15],
        },
    }
}

fn numbers_of(state: &State) -> [usize; STATE_NUMBERS]
    ensures { result ≡ numbers_of state.now }
{
    [
        state.table.count,
        state.line,
        state.at,
        state.into,
        state.total,
        state.ready,
        state.stretches,
        state.refusal.number,
        state.refusal.line,
        state.refusal.byte,
        state.lengths.list,
        state.lengths.image,
        state.lengths.stash,
        state.lengths.work,
        state.lengths.result,
        state.lengths.patch,
    ]
}

// The saved form of the state with these tables and numbers.
pub fn muongrabi_save(
    hashes: &[u8; TABLE_BYTES],
    sizes: &[usize; MOST_STASHES],
    numbers: &[usize; STATE_NUMBERS],
    out: &mut [u8; SAVED_BYTES],
)
    ensures { FormOf out.new (state_from hashes.now sizes.now numbers.now) }
{
    save_in_place(out, &state_from(hashes, sizes, numbers));
}

// The tables and numbers of the state whose saved form the bytes are, with number 0; or 20, and nothing is changed.
pub fn muongrabi_restore(
    bytes: &[u8],
    hashes: &mut [u8; TABLE_BYTES],
    sizes: &mut [usize; MOST_STASHES],
    numbers: &mut [usize; STATE_NUMBERS],
) -> usize
    ensures { fields_as result hashes.new sizes.new numbers.new ≡ fields_over hashes.old sizes.old numbers.old bytes.now }
{
    let mut state = no_state();
    if let Err(reason) = restore_in_place(bytes, &mut state) {
        return reason.number();
    }
    // The numbers first: else a table is compiled to a `memmove` from the lent bytes, as these may lie over it for all the compiler knows.
    *numbers = numbers_of(&state);
    *hashes = state.table.hashes;
    *sizes = state.table.sizes;
    0
}

// Reads a sparse file over an image, and gives the number of the refusal, 0 for none.
pub fn muongrabi_sparse_load(file: &[u8], image: &mut [u8]) -> u32
    ensures number { result ≡ load_refusal file.now (length image.old) }
    ensures image_after { image.new ≡ loaded_image file.now image.old }
{
    match sparse::load(file, image) {
        Ok(()) => 0,
        Err(reason) => reason.number() as u32,
    }
}
