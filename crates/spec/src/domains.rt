// Domains and the field check.
ghost use Rattle.std.specs.Prelude.{◌≡◌, true, false, ◌+◌, ◌-◌, ◌*◌, ◌/◌, ◌≤◌, ◌<◌, pos, nat_abs, ◌+ℤ◌, length, get_or, take, drop};
ghost use Rattle.std.specs.Int.Signed.{le_z};
ghost use Rattle.lists.specs.Integers.{elem_z};
ghost use Rattle.spec.specs.Domain.{first_multiple, step_of, on_step, domain, allows};
ghost use Rattle.spec.specs.Record.{field_by, records_of};
ghost use Rattle.spec.specs.Refusal.{on_scale, negative};
ghost use Rattle.spec.specs.Code.{as_record, ps_of, domain_length, low_of, high_of, InScale, InRise, IsRise};

use crate::numbers::{Index, Value};
use crate::records::{Record, p_at};

// first, first + step, ..: len of them.
#[derive(Clone, Copy)]
pub struct Rise {
    pub first: i64,
    pub step: i64,
    pub len: usize,
}

// That p, q and r are on the scale is asked of numbers here and of a record below, with its values or with how many they are: one struct for all four would be made anew at each call, and be no plainer.
// The least multiple of the step at or above p.
fn first_multiple(step: i64, p: i64) -> i64
    requires { (on_scale p ≡ true) × (on_scale step ≡ true) × (le_z (pos 1) step ≡ true) }
    ensures { result ≡ first_multiple (nat_abs step) p }
{
    if p < 0 {
        p / step * step
    } else {
        (p + (step - 1)) / step * step
    }
}

// The multiples of the step r, 1 where it is 0, in p..q.
fn multiples(p: i64, q: i64, r: i64) -> Rise
    requires { InScale p q r }
    ensures { IsRise result (step_of (nat_abs r)) p q }
{
    let step = r.max(1);
    let first = first_multiple(step, p);
    if q < first {
        return Rise {
            first,
            step,
            len: 0,
        };
    }
    Rise {
        first,
        step,
        len: ((q - first) / step) as usize + 1,
    }
}

// A value is a multiple of the step, if there is one.
fn on_step(v: Value, step: i64) -> bool
    requires { negative step ≡ false }
    ensures { result ≡ on_step (nat_abs step) v.0 }
{
    if step == 0 {
        return true;
    }
    let x = v.0;
    x % step == 0
}

// The value is the p of one of the four records from i on.
fn has_p_of_four(run: &[u8], i: usize, v: Value) -> bool
    requires { i + 4 ≤ length run.now / 32 }
    ensures { result ≡ elem_z v.0 (ps_of (take 4 (drop i (records_of run.now)))) }
{
    (p_at(run, i) == v.0)
        | (p_at(run, i + 1) == v.0)
        | (p_at(run, i + 2) == v.0)
        | (p_at(run, i + 3) == v.0)
}

// The value is the p of one of the records from `from` on.
fn has_p_from(run: &[u8], from: usize, v: Value) -> bool
    requires { from ≤ length run.now / 32 }
    ensures { result ≡ elem_z v.0 (ps_of (drop from (records_of run.now))) }
{
    for i in from..run.len() / 32 {
        let x = p_at(run, i);
        if x == v.0 {
            return true;
        }
    }
    false
}

// The value is the p of one of the records: by eight, since one by one takes 1.6 times as long, and then those that are left.
pub fn has_p(run: &[u8], v: Value) -> bool
    ensures { result ≡ elem_z v.0 (ps_of (records_of run.now)) }
{
    let blocks = run.len() / 32 / 8;
    for block in 0..blocks {
        let i = block * 8;
        if has_p_of_four(run, i, v) | has_p_of_four(run, i + 4, v) {
            return true;
        }
    }
    has_p_from(run, blocks * 8, v)
}

// The field check of field h, whose values are the records given.
pub fn allows_value(h: Record, values: &[u8], v: Value) -> bool
    requires { negative h.r ≡ false }
    ensures { result ≡ allows (field_by h.b (as_record h) (records_of values.now)) v.0 }
{
    let x = v.0;
    match h.b {
        0 => on_step(v, h.r),
        1 => h.p <= x && x <= h.q && on_step(v, h.r),
        _ => has_p(values, v),
    }
}

// The records from..to, as that part of the file.
pub fn part(file: &[u8], from: usize, to: usize) -> &[u8]
    requires { (from ≤ to) × (to ≤ length file.now / 32) }
    ensures bytes { result.now ≡ take (to * 32 - from * 32) (drop (from * 32) file.now) }
    ensures records { records_of result.now ≡ take (to - from) (drop from (records_of file.now)) }
{
    let a = from * 32;
    let e = to * 32;
    &file[a..e]
}

// The domain of field h, which lists no values.
fn rise_of(h: Record) -> Rise
    requires { InScale h.p h.q h.r }
    ensures { IsRise result (step_of (nat_abs h.r)) (low_of h.b h.p) (high_of h.b h.q) }
{
    if h.b == 1 {
        multiples(h.p, h.q, h.r)
    } else {
        multiples(0, 255, h.r)
    }
}

// The length of the domain of field h, which has so many values.
pub fn domain_len(h: Record, values: usize) -> usize
    requires { InScale h.p h.q h.r }
    ensures { result ≡ domain_length (as_record h) values }
{
    if 2 <= h.b { values } else { rise_of(h).len }
}

// first + k × step.
fn rise_value(d: Rise, k: usize) -> Value
    requires { InRise d k }
    ensures { result.0 ≡ d.first +ℤ pos (nat_abs d.step * k) }
{
    let n = k as i64;
    Value(d.first + d.step * n)
}

// The value at place i of the domain of field h, whose values are the records given.
pub fn domain_value(h: Record, values: &[u8], i: Index) -> Value
    requires { InScale h.p h.q h.r × (i.0 < length (domain (field_by h.b (as_record h) (records_of values.now)))) }
    ensures { result.0 ≡ get_or (domain (field_by h.b (as_record h) (records_of values.now))) i.0 (pos 0) }
{
    let k = i.0;
    if 2 <= h.b {
        return Value(p_at(values, k));
    }
    rise_value(rise_of(h), k)
}
