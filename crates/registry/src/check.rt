// The check of a constraint on a row of values: one decision over all kinds.
ghost use Rattle.std.specs.Prelude.{◌≡◌, ◌≢◌, true, map, suc, ◌+◌, ◌-◌, ◌/◌, ◌≤◌, ◌<◌, ◌&&◌, drop, eqb, get_or, length, take, MatchOption};
ghost use Rattle.std.specs.Int.Signed.{le_z};
ghost use Rattle.lists.specs.Integers.{elem_z};
ghost use Rattle.lists.specs.Lists.{all, any};
ghost use Rattle.spec.specs.Code.{as_kind, ps_of};
ghost use Rattle.spec.specs.Record.{records_of, record_at, entry_of, constraint_of};
ghost use Rattle.registry.specs.Check.{is_pair, cross_allows, holds};
ghost use Rattle.registry.specs.Index.{IndexIn};
ghost use Rattle.registry.specs.Code.{test_in, passes, mask_in, group_in, HeadIn};

use crate::sorting::IndexedRun;
use spec::domains::{has_p, part};
use spec::kinds::Kind;
use spec::numbers::Value;
use spec::records::{a_at, b_at, is_pair, kind_at, p_at, q_at};

// The mark of a head whose members are indexed is this and the number of the record that they end before. No place reaches it. A number and not an enum, so that the places lie one behind the other, as the index of a run has them.
pub const MARK: usize = 4096;

// The value is one of p..q: in one comparison, since a long list is gone through by it.
fn is_between(p: i64, q: i64, x: i64) -> bool
    ensures { result ≡ (le_z p x && le_z x q) }
{
    (p <= q) & (x.wrapping_sub(p).cast_unsigned() <= q.wrapping_sub(p).cast_unsigned())
}

// The test of one value that a constraint is, with its members; records that are no such test pass every value.
pub fn meets(kind: Kind, p: i64, q: i64, run: &[u8], v: Value) -> bool
    requires { mask_in (as_kind kind) p ≡ true }
    ensures { result ≡ passes (test_in (as_kind kind) p q (records_of run.now)) v.0 }
{
    let x = v.0;
    match kind {
        Kind::Range => is_between(p, q, x),
        Kind::Even => x % 2 == 0,
        Kind::Lt => x < p,
        Kind::Gt => p < x,
        Kind::Le => x <= p,
        Kind::Ge => p <= x,
        Kind::Oneof => has_p(run, v),
        Kind::Bitmask => (x & p) == q,
        _ => true,
    }
}

// Record i is the pair of v and w.
pub(crate) fn is_pair_at(run: &[u8], i: usize, v: Value, w: Value) -> bool
    requires { i < length run.now / 32 }
    ensures { result ≡ is_pair v.0 w.0 (entry_of (record_at run.now i)) }
{
    is_pair(run, i) & (p_at(run, i) == v.0) & (q_at(run, i) == w.0)
}

// A pair of the run from record `from` on lets parent value v have child value w.
fn has_pair_from(run: &[u8], from: usize, v: Value, w: Value) -> bool
    requires { from ≤ length run.now / 32 }
    ensures { result ≡ any (is_pair v.0 w.0) (map entry_of (drop from (records_of run.now))) }
{
    for i in from..run.len() / 32 {
        if is_pair_at(run, i, v, w) {
            return true;
        }
    }
    false
}

// A pair of the run lets parent value v have child value w: by four, and then those that are left.
pub fn has_pair(run: &[u8], v: Value, w: Value) -> bool
    ensures { result ≡ any (is_pair v.0 w.0) (map entry_of (records_of run.now)) }
{
    let blocks = run.len() / 32 / 4;
    for block in 0..blocks {
        let i = block * 4;
        if is_pair_at(run, i, v, w)
            | is_pair_at(run, i + 1, v, w)
            | is_pair_at(run, i + 2, v, w)
            | is_pair_at(run, i + 3, v, w)
        {
            return true;
        }
    }
    has_pair_from(run, blocks * 4, v, w)
}

// The parent's value is no key, or the child's is paired with it.
fn crosses(run: &[u8], v: Value, w: Value) -> bool
    ensures { result ≡ cross_allows (map entry_of (records_of run.now)) v.0 w.0 }
{
    !has_p(run, v) || has_pair(run, v, w)
}

// The members of the head at a record are indexed.
pub fn is_indexed(index: &[usize], head: usize, end: usize) -> bool
    ensures { result ≡ eqb (get_or index.now head 0) (4096 + end) }
{
    match index.get(head) {
        Some(mark) => mark.checked_sub(MARK) == Some(end),
        None => false,
    }
}

// A head of a file, the record that its members end before, and the index of the file.
#[derive(Clone, Copy)]
pub struct Head<'a> {
    pub file: &'a [u8],
    pub at: usize,
    pub end: usize,
    pub index: &'a [usize],
    pub ghost inside: { (at < end) × (end ≤ length file.now / 32) × (end ≤ 65536) },
    pub ghost indexed: { IndexIn file.now index.now },
}

impl<'a> Head<'a> {
    // Its members.
    fn run(self) -> &'a [u8]
        ensures { records_of result.now ≡ take (self.entry.end - suc self.entry.at) (drop (suc self.entry.at) (records_of self.entry.file.now)) }
    {
        part(self.file, self.at + 1, self.end)
    }

    // Its members with their index, if they have one.
    pub fn indexed(self) -> Option<IndexedRun<'a>>
        ensures { MatchOption result (get_or self.entry.index.now self.entry.at 0 ≢ 4096 + self.entry.end) (λ r. (get_or self.entry.index.now self.entry.at 0 ≡ 4096 + self.entry.end) × (records_of r.run.now ≡ take (self.entry.end - suc self.entry.at) (drop (suc self.entry.at) (records_of self.entry.file.now))) × (r.places.now ≡ take (self.entry.end - suc self.entry.at) (drop (suc self.entry.at) self.entry.index.now))) }
    {
        if !is_indexed(self.index, self.at, self.end) {
            return None;
        }
        Some(IndexedRun {
            run: self.run(),
            places: &self.index[self.at + 1..self.end],
        })
    }

    // The two questions below differ in all but the choice by the index; one function for both would be handed each as a closure.
    // The value is one of the items of a oneof.
    fn has_item(self, v: Value) -> bool
        ensures { result ≡ elem_z v.0 (ps_of (take (self.entry.end - suc self.entry.at) (drop (suc self.entry.at) (records_of self.entry.file.now)))) }
    {
        match self.indexed() {
            Some(items) => items.finds_p(v),
            None => has_p(self.run(), v),
        }
    }

    // A cross lets parent value v have child value w.
    fn lets(self, v: Value, w: Value) -> bool
        ensures { result ≡ cross_allows (map entry_of (take (self.entry.end - suc self.entry.at) (drop (suc self.entry.at) (records_of self.entry.file.now)))) v.0 w.0 }
    {
        match self.indexed() {
            Some(entries) => entries.finds_cross(v, w),
            None => crosses(self.run(), v, w),
        }
    }

    // The constraint.
    pub fn check(self, row: &[i64]) -> bool
        requires { HeadIn self.file.now self.at self.end (length row.now) }
        ensures { result ≡ all (holds row.now) (constraint_of (group_in self.entry.file.now self.entry.at self.entry.end)) }
    {
        let file = self.file;
        let head = self.at;
        let v = row[a_at(file, head)];
        let w = row[b_at(file, head)];
        match kind_at(file, head) {
            Kind::Eq => v == w,
            Kind::Neq => v != w,
            Kind::Oneof => self.has_item(Value(v)),
            Kind::Cross => self.lets(Value(v), Value(w)),
            kind => meets(
                kind,
                p_at(file, head),
                q_at(file, head),
                self.run(),
                Value(v),
            ),
        }
    }
}
