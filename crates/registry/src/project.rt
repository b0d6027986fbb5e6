// The four projections of a row.
ghost use Rattle.std.specs.Prelude.{◌≡◌, true, map, ◌+◌, ◌*◌, ◌/◌, ◌<◌, ◌^◌, pos, ◌-ℤ◌, length};
ghost use Rattle.std.specs.Int.Signed.{le_z};
ghost use Rattle.lists.specs.Integers.{sum_z, low_bit};
ghost use Rattle.lists.proofs.All.{All};
ghost use Rattle.spec.specs.Record.{records_of, offset_by, axis_of};
ghost use Rattle.spec.specs.Refusal.{on_scale};
ghost use Rattle.registry.specs.Project.{plus, digits, at_offset, fitting, packed};
ghost use Rattle.registry.specs.Code.{as_projection, word_of, digit_of, rest_of, AxisIn, RowIn, ProjectorIn, group_in, project_of};

use spec::domains::part;
use spec::kinds::Kind;
use spec::numbers::{Value, power};
use spec::records::{a_at, b_at, kind_at, p_at, q_at};

// A projection is below this.
const TOP: u64 = 1 << 63;

// The sum of a row, which is a lent slice as document 01 has it; so what it keeps to is asked of each call.
fn sum(row: &[i64]) -> i64
    requires { RowIn row.now }
    ensures { result ≡ sum_z row.now }
{
    let mut total = 0;
    for x in row {
        total += *x;
    }
    total
}

// The lowest bit.
fn parity(v: Value) -> i64
    ensures { result ≡ pos (low_bit v.0) }
{
    v.0 & 1
}

// v × 2^k, if that is below the top.
fn raise(v: u64, k: usize) -> Option<u64>
    requires { k < 64 }
    ensures { result ≡ word_of (v * 2 ^ k) }
{
    let raised = v.checked_mul(power(k))?;
    if raised < TOP { Some(raised) } else { None }
}

// word + v × 2^k, if that is below the top.
fn add_raised(word: u64, v: u64, k: usize) -> Option<u64>
    requires { (k < 64) × (word < 2 ^ 63) }
    ensures { result ≡ word_of (word + v * 2 ^ k) }
{
    let more = raise(v, k)?;
    if more < TOP - word {
        Some(word + more)
    } else {
        None
    }
}

// The digit that an axis takes of what is left, and what it leaves to the next; an axis without radix takes all and divides nothing off.
fn divide(radix: u64, rest: u64) -> (u64, u64)
    ensures digit { result.0 ≡ digit_of radix rest }
    ensures left { result.1 ≡ rest_of radix rest }
{
    if radix == 0 {
        return (rest, rest);
    }
    (rest % radix, rest / radix)
}

// The digits of v by the axes, each times 2^shift, added to the word so far.
fn spread(axes: &[u8], v: u64, start: u64) -> Option<i64>
    requires { (start < 2 ^ 63) × All AxisIn (records_of axes.now) }
    ensures { as_projection result ≡ fitting (plus start (digits (map axis_of (records_of axes.now)) v)) }
{
    let mut word = start;
    let mut rest = v;
    for i in 0..axes.len() / 32 {
        let radix = p_at(axes, i) as u64;
        if radix == 0 && power(a_at(axes, i)) <= rest {
            return None;
        }
        let (digit, left) = divide(radix, rest);
        word = add_raised(word, digit, b_at(axes, i))?;
        rest = left;
    }
    Some(word as i64)
}

// v × 2^offset; a negative offset is absent.
fn at_offset(v: u64, offset: i64) -> Option<u64>
    requires { le_z offset (pos 63) ≡ true }
    ensures { result ≡ word_of (at_offset (offset_by offset) v) }
{
    if offset < 0 {
        return Some(0);
    }
    raise(v, offset as usize)
}

fn decompose(axes: &[u8], v: Value, base: i64, offset: i64) -> Option<i64>
    requires { (on_scale v.0 ≡ true) × (on_scale base ≡ true) × (le_z offset (pos 63) ≡ true) × All AxisIn (records_of axes.now) }
    ensures { as_projection result ≡ packed (offset_by offset) (map axis_of (records_of axes.now)) (v.0 -ℤ base) }
{
    let x = v.0;
    if x < base {
        return None;
    }
    let above = (x - base) as u64;
    spread(axes, above, at_offset(above, offset)?)
}

// The projector at record head, on a row of values.
pub fn project(file: &[u8], head: usize, row: &[i64]) -> Option<i64>
    requires { RowIn row.now × ProjectorIn file.now head (length row.now) }
    ensures { as_projection result ≡ project_of (group_in file.now head (length file.now / 32)) row.now }
{
    let v = Value(row[a_at(file, head)]);
    match kind_at(file, head) {
        Kind::Sum => Some(sum(row)),
        Kind::Identity => Some(v.0),
        Kind::Parity => Some(parity(v)),
        Kind::Decompose => {
            let axes = part(file, head + 1, file.len() / 32);
            decompose(axes, v, p_at(file, head), q_at(file, head))
        }
        _ => None,
    }
}
