// The message schedule: FIPS 180-4, 6.1.2, 1.
ghost use Rattle.std.specs.Prelude.{◌≡◌, length};
ghost use Rattle.sha1_digest.specs.Sha1 as Sha1;

use crate::word::load;

// Puts the schedule of a block into w.
pub(crate) fn schedule(w: &mut [u32; 80], block: &[u8])
    requires { length block.now ≡ 64 }
    ensures { w.new ≡ Sha1.schedule block.now 0 80 }
{
    'first: for t in 0..16 {
        w[t] = load(block, 4 * t);
    }
    'later: for t in 16..80 {
        w[t] = (w[t - 3] ^ w[t - 8] ^ w[t - 14] ^ w[t - 16]).rotate_left(1);
    }
}
