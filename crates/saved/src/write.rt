// Records, each put after the bytes up to its position.
ghost use Rattle.std.specs.Prelude.{◌≡◌, ◌++◌, [], ◌+◌, ◌*◌, ◌≤◌, length, take};
ghost use Rattle.text.specs.Below.{AllBelow};
ghost use Rattle.saved.specs.Layout.{mark_bytes, letter_h, word_bytes, word_bound};
ghost use Rattle.saved.specs.Saved.{bytes_of, words_of, record_of};

use crate::layout::{LETTER_H, LETTER_S, MARK_BYTES, WORD_BYTES};

fn put_mark(to: &mut [u8], at: usize, letter: u8)
    requires { at + mark_bytes ≤ length to.old }
    ensures { take (at + mark_bytes) to.new ≡ take at to.old ++ record_of letter [] }
{
    to[at] = LETTER_S;
    to[at + 1] = letter;
}

#[tactic(auto, using(crate::proofs::PutLaws::word_put))]
fn put_word(to: &mut [u8], at: usize, x: usize)
    requires { at + word_bytes ≤ length to.old }
    ensures { take (at + word_bytes) to.new ≡ take at to.old ++ bytes_of word_bytes x }
{
    to[at..at + WORD_BYTES].copy_from_slice(&x.to_le_bytes());
}

// The table of hashes after its mark. That its bytes are bytes is known here, where they are read, and wanted of a saved form.
#[tactic(auto, using(crate::proofs::PutLaws::table_put, crate::proofs::WordLaws::below_each))]
pub(crate) fn put_hashes(to: &mut [u8], at: usize, hashes: &[u8])
    requires { at + (mark_bytes + length hashes.now) ≤ length to.old }
    ensures to_after { take (at + (mark_bytes + length hashes.now)) to.new
        ≡ take at to.old ++ record_of letter_h hashes.now }
    ensures all_below { AllBelow 256 hashes.now }
{
    put_mark(to, at, LETTER_H);
    let body = at + MARK_BYTES;
    to[body..body + hashes.len()].copy_from_slice(hashes);
}

// Numbers after a mark. That they have 64 bits is known here, where they are read, and wanted of a saved form.
#[tactic(auto, using(crate::proofs::PutLaws::row_put, crate::proofs::WordLaws::below_each), unfolding(crate::specs::Saved::words_of))]
pub(crate) fn put_numbers(to: &mut [u8], at: usize, letter: u8, from: &[usize])
    requires { at + (mark_bytes + word_bytes * length from.now) ≤ length to.old }
    ensures to_after { take (at + (mark_bytes + word_bytes * length from.now)) to.new
        ≡ take at to.old ++ record_of letter (words_of from.now) }
    ensures all_below { AllBelow word_bound from.now }
{
    put_mark(to, at, letter);
    let body = at + MARK_BYTES;
    for (i, x) in from.iter().enumerate() {
        put_word(to, body + WORD_BYTES * i, *x);
    }
}
