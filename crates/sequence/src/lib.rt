// An opening and the calls over new data that is cut into pieces.
#![tactic(auto)]

ghost use Rattle.std.specs.Prelude.{◌≡◌, ◌+◌, ◌-◌, ◌≤◌, min};
ghost use Rattle.updater.specs.Areas.{areas_of};
ghost use Rattle.updater.specs.Calls.{called_with, result_of};
ghost use Rattle.updater.specs.Steps.{config_of};
ghost use Rattle.sequence.specs.Cuts.{CallsOn, run_all, RunMeets};

use state::State;
use transfer_list::open;
use updater::{Called, Outcome, call, typed};

// The state after an opening and its calls, and what they gave back.
#[derive(Clone, Copy)]
pub struct Finished {
    pub state: State,
    pub called: Called,
}

// Where a piece of n bytes ends that starts at `from`, in data of `len` bytes.
fn piece_end(from: usize, n: usize, len: usize) -> usize
    requires { from ≤ len }
    ensures { result ≡ from + min n (len - from) }
{
    from + n.min(len - from)
}

// Calls until one does not stop for saving: after a stop another, with the bytes of the piece that are not taken.
fn call_on(
    list: &[u8],
    image: &mut [u8],
    stash: &mut [u8],
    work: &mut [u8],
    res: &mut [u8],
    patch: &[u8],
    piece: &[u8],
    state: &mut State,
) -> Called
    ensures { CallsOn list.now piece.now (config_of (areas_of image.old stash.old work.old res.old patch.now) state.old) (result_of (areas_of image.new stash.new work.new res.new patch.now) (called_with state.new result)) }
{
    typed(&*state);
    let mut taken = 0;
    loop {
        let called = call(list, image, stash, work, res, patch, &piece[taken..], state);
        taken += called.taken;
        let Outcome::Stop = called.outcome else {
            return Called {
                outcome: called.outcome,
                taken,
            };
        };
    }
}

// Opens the list and calls, past every stop, with a piece of each given length, cut short where the data ends, and then with what is left.
pub fn run_pieces(
    list: &[u8],
    image: &mut [u8],
    stash: &mut [u8],
    work: &mut [u8],
    res: &mut [u8],
    patch: &[u8],
    bytes: &[u8],
    cuts: &[usize],
) -> Finished
    ensures result_after { result_of (areas_of image.new stash.new work.new res.new patch.now) (called_with result.state result.called) ≡ run_all list.now (areas_of image.old stash.old work.old res.old patch.now) bytes.now }
    ensures run_meets { RunMeets list.now (areas_of image.old stash.old work.old res.old patch.now) bytes.now (result_of (areas_of image.new stash.new work.new res.new patch.now) (called_with result.state result.called)) }
{
    let mut state = open(
        list,
        image.len(),
        stash.len(),
        work.len(),
        res.len(),
        patch.len(),
    );
    if state.refusal.number != 0 {
        let outcome = Outcome::Refused(state.refusal);
        let called = Called { outcome, taken: 0 };
        return Finished { state, called };
    }
    let mut total = 0;
    let mut from = 0;
    for cut in cuts {
        let end = piece_end(from, *cut, bytes.len());
        let piece = &bytes[from..end];
        let called = call_on(list, image, stash, work, res, patch, piece, &mut state);
        total += called.taken;
        from = end;
    }
    let rest = &bytes[from..];
    let last = call_on(list, image, stash, work, res, patch, rest, &mut state);
    let called = Called {
        outcome: last.outcome,
        taken: total + last.taken,
    };
    Finished { state, called }
}
