// The members of a kept map, read through or by their index: for a parent value the child values that are paired with it.
ghost use Rattle.std.specs.Prelude.{◌*◌, ◌≡◌, ◌-◌, ◌/◌, ◌≤◌, ◌<◌, ℕ, ℤ, true, false, ◌&&◌, map, length, List, MatchOption};
ghost use Rattle.lists.specs.Integers.{eq_z};
ghost use Rattle.lists.specs.Lists.{any};
ghost use Rattle.spec.specs.Record.{entry_of, Record, record_at, records_of};
ghost use Rattle.spec.specs.Spec.{Entry};
ghost use Rattle.registry.specs.Check.{is_key, is_pair};
ghost use Rattle.registry.specs.Index.{Bracket, placed, Spans};
ghost use Rattle.compose.specs.Code.{between, pairs_at};

use registry::check::has_pair;
use registry::sorting::{IndexedRun, index_run};
use spec::domains::has_p;
use spec::numbers::Value;
use spec::records::{is_pair, p_at, q_at};
use std::ops::Range;

pub(crate) trait Members: Copy {
    ghost entries: { Self → List Entry };

    // How many places there are, and the record at each.
    ghost many: { Self → ℕ };

    ghost member: { Self → ℕ → Record };

    // The pairs of a value stand at the places from start to before end.
    ghost spans: { Self → ℤ → (start end : ℕ) → Type 0 };

    // Where the pairs of parent value v stand, if it is a key.
    fn places_of(self, v: Value) -> Option<Range<usize>>
        ensures { MatchOption result (any (is_key v.0) (entries self) ≡ false) (λ s. (any (is_key v.0) (entries self) ≡ true) × (s.start ≤ s.end) × (s.end ≤ many self) × ((w : ℤ) → any (is_pair v.0 w) (entries self) ≡ any (pairs_at v.0 w) (map (member self) (between s.start s.end))) × spans self v.0 s.start s.end) };

    // v and w are a pair; start and end are those of the places of v.
    fn has_pair(self, start: usize, end: usize, v: Value, w: Value) -> bool
        requires { spans self v.0 start end }
        ensures { result ≡ any (is_pair v.0 w.0) (entries self) };

    // The child value at place k, if a pair with v stands there.
    fn child_at(self, k: usize, v: Value) -> Option<Value>
        requires { k < many self }
        ensures { MatchOption result ((w : ℤ) → pairs_at v.0 w (member self k) ≡ false) (λ q. (w : ℤ) → pairs_at v.0 w (member self k) ≡ eq_z w q.0) };
}

// The child value of record i, if it is a pair with v.
fn child_of(run: &[u8], i: usize, v: Value) -> Option<Value>
    requires { i < length run.now / 32 }
    ensures { MatchOption result ((w : ℤ) → pairs_at v.0 w (record_at run.now i) ≡ false) (λ q. (w : ℤ) → pairs_at v.0 w (record_at run.now i) ≡ eq_z w q.0) }
{
    if is_pair(run, i) && p_at(run, i) == v.0 {
        Some(Value(q_at(run, i)))
    } else {
        None
    }
}

// Members that are read through.
#[derive(Clone, Copy)]
pub(crate) struct Run<'a>(pub &'a [u8]);

impl<'a> Members for Run<'a> {
    ghost entries = { λ m. map entry_of (records_of m.0.now) };

    ghost many = { λ m. length m.0.now / 32 };

    ghost member = { λ m. record_at m.0.now };

    ghost spans = { λ m v start end. Unit {0} };

    fn places_of(self, v: Value) -> Option<Range<usize>> {
        if has_p(self.0, v) {
            Some(0..self.0.len() / 32)
        } else {
            None
        }
    }

    fn has_pair(self, _start: usize, _end: usize, v: Value, w: Value) -> bool {
        has_pair(self.0, v, w)
    }

    fn child_at(self, k: usize, v: Value) -> Option<Value> {
        child_of(self.0, k, v)
    }
}

impl<'a> Members for IndexedRun<'a> {
    ghost entries = { λ m. map entry_of (records_of m.run.now) };

    ghost many = { λ m. length m.places.now };

    ghost member = { λ m. placed m.run.now m.places.now };

    ghost spans = { λ m v start end. Spans m.run.now m.places.now v start end };

    fn places_of(self, v: Value) -> Option<Range<usize>> {
        let span = span_of(self, v);
        if span.start < span.end {
            Some(span)
        } else {
            None
        }
    }

    fn has_pair(self, start: usize, end: usize, v: Value, w: Value) -> bool {
        let k = self.lower_between(v, w, start, end);
        self.pairs_from(k, v, w)
    }

    fn child_at(self, k: usize, v: Value) -> Option<Value> {
        child_of(self.run, self.places[k], v)
    }
}

// The members of a kept map: a run that is read through, or one with its index.
#[derive(Clone, Copy)]
pub(crate) enum MapRun<'a> {
    Plain(&'a [u8]),
    Indexed(IndexedRun<'a>),
}

impl<'a> MapRun<'a> {
    ghost use Rattle.compose.specs.Known.{run_of};

    // How many members they are.
    pub(crate) fn many(self) -> usize
        ensures { result ≡ length (run_of self.entry) / 32 }
    {
        match self {
            MapRun::Plain(run) => run.len() / 32,
            MapRun::Indexed(members) => members.run.len() / 32,
        }
    }
}

// The places of the records whose p is v.
fn span_of(members: IndexedRun, v: Value) -> Range<usize>
    ensures { Spans members.entry.run.now members.entry.places.now v.0 result.start result.end }
{
    let low = members.lower(v, Value(i64::MIN));
    let high = match v.0.checked_add(1) {
        Some(next) => members.lower(Value(next), Value(i64::MIN)),
        None => members.places.len(),
    };
    low..high
}

// The key at place k, unless it is that of the place before it.
pub(crate) fn new_key(members: IndexedRun, k: usize) -> Option<Value>
    requires { k < length members.places.now }
    ensures { MatchOption result ((0 < k) × ((placed members.entry.run.now members.entry.places.now (k - 1)).p ≡ (placed members.entry.run.now members.entry.places.now k).p)) (λ v. v.0 ≡ (placed members.entry.run.now members.entry.places.now k).p) }
{
    let p = p_at(members.run, members.places[k]);
    if 0 < k && p_at(members.run, members.places[k - 1]) == p {
        return None;
    }
    Some(Value(p))
}

// How many keys the members have.
pub(crate) fn keys_in(members: IndexedRun) -> usize
    ensures { result ≤ length members.entry.places.now }
{
    (0..members.places.len())
        .filter(|k| new_key(members, *k).is_some())
        .count()
}

// So many members an index is laid for.
pub(crate) const INDEXED: usize = 2048;

// Room for such an index, and as much to spare.
pub(crate) const ROOM: usize = 4096;

// The members with their index, which is laid into the room: for each a place, and one to spare.
pub(crate) fn indexed<'a>(run: &'a [u8], room: &'a mut [usize]) -> IndexedRun<'a>
    requires { (length run.now / 32 ≤ 2048) × (length run.now / 32 * 2 ≤ length room.old) }
    ensures { result.run.now ≡ run.now }
{
    let n = run.len() / 32;
    let (places, spare) = room.split_at_mut(n);
    index_run(run, places, &mut spare[..n]);
    IndexedRun { run, places }
}
