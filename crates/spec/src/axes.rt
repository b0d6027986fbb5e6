// The rules of decompose: its axes and its offset.
ghost use Rattle.std.specs.Prelude.{◌≡◌, ◌+◌, ◌≤◌, ◌<◌};
ghost use Rattle.lists.specs.Lists.{any};
ghost use Rattle.spec.specs.Record.{records_of};
ghost use Rattle.spec.specs.Refusal.{bad_radix, overlaps, bad_axis, bad_offset};
ghost use Rattle.spec.specs.Code.{as_record, reaches_over};

use crate::numbers::power;
use crate::records::{Record, a_at, b_at};

// radix ≥ 2 and radix − 1 < 2^width; 0 is absent.
fn bad_radix(width: usize, radix: i64) -> bool
    requires { width < 64 }
    ensures { result ≡ bad_radix width radix }
{
    if radix == 0 {
        return false;
    }
    if radix < 2 {
        return true;
    }
    power(width) <= (radix - 1) as u64
}

// Axis m shares a bit with one of the axes before it.
fn overlaps_any(m: Record, before: &[u8]) -> bool
    requires { m.b + m.a ≤ 63 }
    ensures { result ≡ any (overlaps (as_record m)) (records_of before.now) }
{
    (0..before.len() / 32).any(|i| {
        let shift = b_at(before, i);
        let end = shift + a_at(before, i);
        !((m.b + m.a <= shift) | (end <= m.b))
    })
}

// width 1..63, shift + width ≤ 63, the radix, and no overlap with an axis before it.
pub(crate) fn bad_axis(m: Record, before: &[u8]) -> bool
    ensures { result ≡ bad_axis (records_of before.now) (as_record m) }
{
    if m.a == 0 || 63 < m.a || 63 - m.a < m.b {
        return true;
    }
    bad_radix(m.a, m.p) || overlaps_any(m, before)
}

// An axis reaches above bit `top`.
fn reaches_over(axes: &[u8], top: usize) -> bool
    ensures { result ≡ reaches_over top (records_of axes.now) }
{
    (0..axes.len() / 32).any(|i| top < b_at(axes, i) + a_at(axes, i))
}

// q is −1..63, and not below the highest shift + width.
pub(crate) fn bad_offset(axes: &[u8], q: i64) -> bool
    ensures { result ≡ bad_offset (records_of axes.now) q }
{
    if q == -1 {
        return false;
    }
    if (q < 0) | (63 < q) {
        return true;
    }
    reaches_over(axes, q as usize)
}
