// The records of a patch, written.
ghost use Rattle.std.specs.Prelude.{◌≡◌, ◌≤◌, length};
ghost use Rattle.patch.specs.Patch.{records_of, record_result, record_size, result_size, patched_by};

use crate::added::add_from;
use crate::position::ORIGIN;
use crate::records::{Record, read_record};
use copy::copy_in;

// What a record makes, over a part that has room for just that.
fn write_record(part: &mut [u8], patch: &[u8], source: &[u8], found: Record)
    requires inside { (found.adds ≤ found.extras) × (found.extras ≤ found.end) × (found.end ≤ length patch.now) }
    requires room { length part.old ≡ record_size found }
    ensures { part.new ≡ record_result patch.now source.now found }
{
    let n = found.extras - found.adds;
    add_from(
        &mut part[..n],
        source,
        &patch[found.adds..found.extras],
        found.position,
    );
    copy_in(&mut part[n..], &patch[found.extras..found.end]);
}

// The records over a result of their sizes, one after the other, up to one that is malformed: of a checked patch none is. Each says where the
// next one starts.
pub(crate) fn write_records(patch: &[u8], source: &[u8], res: &mut [u8])
    requires { length res.old ≡ result_size (records_of patch.now).list }
    ensures { res.new ≡ patched_by patch.now source.now }
{
    let mut at = 0;
    let mut position = ORIGIN;
    let mut out = 0;
    while at < patch.len() {
        let Some(found) = read_record(patch, at, position) else {
            return;
        };
        let end = out + (found.end - found.adds);
        write_record(&mut res[out..end], patch, source, found);
        at = found.end;
        position = found.next;
        out = end;
    }
}
