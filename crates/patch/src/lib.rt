// Patches in bsdiff's way: records that make a result of a source.
#![tactic(auto)]

ghost use Rattle.std.specs.Prelude.{◌≡◌, length};
ghost use Rattle.text.specs.Choice.{pick};
ghost use Rattle.patch.specs.Patch.{is_patch, patched_by};

use crate::position::ORIGIN;
use crate::records::read_record;
use crate::write::write_records;

mod added;
mod position;
mod records;
mod write;

// Whether a patch is well formed and makes `size` bytes. It goes over the whole patch; each record says where the next one starts.
fn is_patch(patch: &[u8], size: usize) -> bool
    ensures { result ≡ is_patch patch.now size }
{
    let mut at = 0;
    let mut position = ORIGIN;
    let mut total = 0;
    while at < patch.len() {
        let Some(found) = read_record(patch, at, position) else {
            return false;
        };
        at = found.end;
        position = found.next;
        total += found.end - found.adds;
    }
    total == size
}

// Makes a result of a source; `false` for a malformed patch and for one that makes more bytes or fewer. Then the result is left as it
// was: the whole patch is checked before a byte is written.
pub fn apply(patch: &[u8], source: &[u8], res: &mut [u8]) -> bool
    ensures value { result ≡ is_patch patch.now (length res.old) }
    ensures res_after { res.new ≡ pick (is_patch patch.now (length res.old)) (patched_by patch.now source.now) res.old }
{
    if !is_patch(patch, res.len()) {
        return false;
    }
    write_records(patch, source, res);
    true
}
