// Patch bytes added to those of a source.
ghost use Rattle.std.specs.Prelude.{◌≡◌, ◌≤◌, length};
ghost use Rattle.patch.specs.Position.{origin};
ghost use Rattle.patch.specs.Added.{added};

use crate::position::ORIGIN;
use copy::copy_in;

// Patch bytes added to the first bytes of a source that has as many.
#[tactic(auto, using(crate::proofs::AddedLaws::add_more, crate::proofs::AddedLaws::add_all))]
fn add_each(to: &mut [u8], source: &[u8], adds: &[u8])
    requires { (length to.old ≡ length adds.now) × (length adds.now ≤ length source.now) }
    ensures { to.new ≡ added source.now origin adds.now }
{
    for i in 0..adds.len() {
        to[i] = source[i].wrapping_add(adds[i]);
    }
}

// The same of any source: past its end the patch bytes stay as they are.
fn add_first(to: &mut [u8], source: &[u8], adds: &[u8])
    requires { length to.old ≡ length adds.now }
    ensures { to.new ≡ added source.now origin adds.now }
{
    let inside = source.len().min(adds.len());
    add_each(&mut to[..inside], source, &adds[..inside]);
    copy_in(&mut to[inside..], &adds[inside..]);
}

// The same from any position: before the source too they stay as they are.
pub(crate) fn add_from(to: &mut [u8], source: &[u8], adds: &[u8], position: usize)
    requires { length to.old ≡ length adds.now }
    ensures { to.new ≡ added source.now position adds.now }
{
    if position < ORIGIN {
        let before = (ORIGIN - position).min(adds.len());
        copy_in(&mut to[..before], &adds[..before]);
        add_first(&mut to[before..], source, &adds[before..]);
    } else {
        let start = (position - ORIGIN).min(source.len());
        add_first(to, &source[start..], adds);
    }
}
