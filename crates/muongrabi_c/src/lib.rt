// The exports for C and Rust: each function of `muongrabi` under its own name, with its contract. A slice crosses as a pointer and a length, an
// array as a pointer.
#![tactic(auto)]

ghost use Rattle.std.specs.Prelude.{◌≡◌, length};
ghost use Rattle.sha1_digest.specs.Sha1.{sha1};
ghost use Rattle.transfer_list.specs.Opening.{lengths_of};
ghost use Rattle.updater.specs.Areas.{areas_of};
ghost use Rattle.saved.specs.Saved.{FormOf};
ghost use Rattle.sparse.specs.Loading.{load_refusal, loaded_image};
ghost use Rattle.muongrabi.specs.Abi.{abi};
ghost use Rattle.muongrabi.specs.Answers.{Opens, Calls, Runs};
ghost use Rattle.muongrabi.specs.Fields.{state_from, fields_as, fields_over};

use muongrabi::{ANSWER_NUMBERS, OPENING_NUMBERS, STATE_NUMBERS};
use saved::SAVED_BYTES;
use state::limits::{MOST_STASHES, TABLE_BYTES};

// The ABI's number. The name has it too, so that what was built for another one does not link.
#[unsafe(no_mangle)]
pub extern "C" fn muongrabi_abi_6() -> usize
    ensures { result ≡ abi }
{
    muongrabi::muongrabi_abi_6()
}

// The SHA-1 digest of the bytes.
#[unsafe(no_mangle)]
pub extern "C" fn muongrabi_digest(bytes: &[u8], out: &mut [u8; 20])
    ensures { out.new ≡ sha1 bytes.now }
{
    muongrabi::muongrabi_digest(bytes, out);
}

// Opens a list over areas and patch data of the given lengths in bytes. The state is written whole, whatever it held.
#[unsafe(no_mangle)]
pub extern "C" fn muongrabi_open(
    list: &[u8],
    image: usize,
    stash: usize,
    work: usize,
    res: usize,
    patch: usize,
    state: &mut [u8; SAVED_BYTES],
    answer: &mut [u64; OPENING_NUMBERS],
)
    ensures { Opens list.now (lengths_of list.now image stash work res patch) state.new answer.new }
{
    muongrabi::muongrabi_open(list, image, stash, work, res, patch, state, answer);
}

// One call with one piece of new data, from the state whose saved form is lent; after it these bytes are the saved form of the state that it
// left. Where they are no state's saved form: 20, and nothing is changed.
#[unsafe(no_mangle)]
pub extern "C" fn muongrabi_call(
    list: &[u8],
    image: &mut [u8],
    stash: &mut [u8],
    work: &mut [u8],
    res: &mut [u8],
    patch: &[u8],
    piece: &[u8],
    state: &mut [u8; SAVED_BYTES],
    answer: &mut [u64; ANSWER_NUMBERS],
)
    ensures { Calls list.now piece.now (areas_of image.old stash.old work.old res.old patch.now) state.old (areas_of image.new stash.new work.new res.new patch.now) state.new answer.new }
{
    muongrabi::muongrabi_call(list, image, stash, work, res, patch, piece, state, answer);
}

// Opens the list and makes the calls: a piece of each given length, cut short where the bytes end, and then one with what is left; after a stop
// it calls on. The state is that after the last call, whatever it held.
#[unsafe(no_mangle)]
pub extern "C" fn muongrabi_run(
    list: &[u8],
    image: &mut [u8],
    stash: &mut [u8],
    work: &mut [u8],
    res: &mut [u8],
    patch: &[u8],
    bytes: &[u8],
    cuts: &[usize],
    state: &mut [u8; SAVED_BYTES],
    answer: &mut [u64; ANSWER_NUMBERS],
)
    ensures { Runs list.now bytes.now (areas_of image.old stash.old work.old res.old patch.now) (areas_of image.new stash.new work.new res.new patch.now) state.new answer.new }
{
    muongrabi::muongrabi_run(
        list, image, stash, work, res, patch, bytes, cuts, state, answer,
    );
}

// The saved form of the state with these tables and numbers.
#[unsafe(no_mangle)]
pub extern "C" fn muongrabi_save(
    hashes: &[u8; TABLE_BYTES],
    sizes: &[usize; MOST_STASHES],
    numbers: &[usize; STATE_NUMBERS],
    out: &mut [u8; SAVED_BYTES],
)
    ensures { FormOf out.new (state_from hashes.now sizes.now numbers.now) }
{
    muongrabi::muongrabi_save(hashes, sizes, numbers, out);
}

// The tables and numbers of the state whose saved form the bytes are, with number 0; or 20, and nothing is changed.
#[unsafe(no_mangle)]
pub extern "C" fn muongrabi_restore(
    bytes: &[u8],
    hashes: &mut [u8; TABLE_BYTES],
    sizes: &mut [usize; MOST_STASHES],
    numbers: &mut [usize; STATE_NUMBERS],
) -> usize
    ensures { fields_as result hashes.new sizes.new numbers.new ≡ fields_over hashes.old sizes.old numbers.old bytes.now }
{
    muongrabi::muongrabi_restore(bytes, hashes, sizes, numbers)
}

// Reads a sparse file over an image, and gives the number of the refusal, 0 for none.
#[unsafe(no_mangle)]
pub extern "C" fn muongrabi_sparse_load(file: &[u8], image: &mut [u8]) -> u32
    ensures number { result ≡ load_refusal file.now (length image.old) }
    ensures image_after { image.new ≡ loaded_image file.now image.old }
{
    muongrabi::muongrabi_sparse_load(file, image)
}
