// What is decided about the files of an update.
#![tactic(auto)]

ghost use Rattle.std.specs.Prelude.{◌≡◌};
ghost use Rattle.state.specs.Refusals.{number_of, refusal_from, checked_refusal};
ghost use Rattle.state.specs.States.{refusing};
ghost use Rattle.decisions.specs.Program.{is_image, size_refusal, patch_length, opened_with, is_stop, calls_on};

use state::State;
use state::limits::BLOCK_BYTES;
use state::refusals::{Reason, Refused};
use updater::Outcome;

pub mod answer;
pub mod loading;

pub const LIST_BYTES: usize = 4096;

pub const IMAGE_BLOCKS: usize = 8;

pub const IMAGE_BYTES: usize = IMAGE_BLOCKS * BLOCK_BYTES;

pub const AREA_BYTES: usize = 3 * BLOCK_BYTES;

pub const PATCH_BYTES: usize = 4096;

// Whole blocks, and not over the most.
fn is_image(bytes: usize) -> bool
    ensures { result ≡ is_image bytes }
{
    bytes % BLOCK_BYTES == 0 && bytes <= IMAGE_BYTES
}

// What the lengths of list and image are refused for.
pub fn check_sizes(list: usize, image: usize) -> Result<(), Refused>
    ensures { checked_refusal result ≡ size_refusal list image }
{
    let image_fits = is_image(image);
    let list_fits = list <= LIST_BYTES;
    if !image_fits {
        return Err(refused(Reason::AreaSize));
    }
    if !list_fits {
        return Err(refused(Reason::ListLength));
    }
    Ok(())
}

// Refused with no line.
fn refused(reason: Reason) -> Refused
    ensures { refusal_from result ≡ refusing (number_of reason) 0 }
{
    Refused {
        reason,
        line: 0,
        byte: 0,
    }
}

// The bytes of patch data that a patch file of that length gives.
pub fn patch_length(bytes: usize) -> usize
    ensures { result ≡ patch_length bytes }
{
    bytes.min(PATCH_BYTES)
}

// Opens the list over an image and patch data of those lengths and the program's own areas.
pub fn open_list(list: &[u8], image: usize, patch: usize) -> State
    ensures { result ≡ opened_with list.now image patch }
{
    transfer_list::open(list, image, AREA_BYTES, AREA_BYTES, AREA_BYTES, patch)
}

// Whether the run stopped for saving, and goes on with what is left of the piece.
pub fn is_stop(outcome: Outcome) -> bool
    ensures { result ≡ is_stop outcome }
{
    matches!(outcome, Outcome::Stop)
}

// Whether the next piece is read; the last one had n bytes.
pub fn calls_on(outcome: Outcome, n: usize) -> bool
    ensures { result ≡ calls_on outcome n }
{
    matches!(outcome, Outcome::More) && n != 0
}
