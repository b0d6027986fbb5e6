// Looking through a list for a value, and for the next value that passes a test.
ghost use Rattle.std.specs.Prelude.{◌≡◌, Bool, List, ℕ, ℤ, true, false, map, ◌+◌, ◌-◌, ◌<◌, ◌≤◌, pos, length, get_or, take, MatchOption};
ghost use Rattle.std.specs.Int.Signed.{le_z};
ghost use Rattle.lists.specs.Integers.{elem_z};
ghost use Rattle.lists.specs.Lists.{any};
ghost use Rattle.spec.specs.Code.{ps_of};
ghost use Rattle.spec.specs.Record.{entry_of, records_of};
ghost use Rattle.registry.specs.Check.{is_pair};
ghost use Rattle.compose.specs.Walk.{least};
ghost use Rattle.compose.specs.Code.{four_at, is_ascending, marked, Answers};

use registry::sorting::IndexedRun;
use spec::numbers::{Index, Value};
use spec::records::{p_at, q_at};

// No value is below the one before it.
// The library's `is_sorted`, its promise said once in this crate's word: without it each of the callers would prove that.
pub(crate) fn is_ascending(list: &[i64]) -> bool
    ensures { result ≡ is_ascending list.now }
{
    list.is_sorted()
}

// The first index from `from` on whose value passes the test; the list's length if there is none.
// That `from` is at most the length is the bound of the call's own index, here and in the other searches.
pub(crate) fn first_where<F: Fn(Value) -> bool>(list: &[i64], from: Index, passes: F) -> Index
    requires can { F.IsAlwaysCallable passes }
    requires inside { from.0 ≤ length list.now }
    ensures { (p : ℤ → Bool) → Answers (F.post passes) p → result.0 ≡ least (λ k. p (get_or list.now k (pos 0))) from.0 (length list.now - from.0) }
{
    // By index: `position` would count from `from` and give an Option, to be turned back into an index of the list.
    for i in from.0..list.len() {
        if passes(Value(list[i])) {
            return Index(i);
        }
    }
    Index(list.len())
}

// One of the four values from i on is w: they are tested at once.
fn is_of_four(list: &[i64], i: usize, w: Value) -> bool
    requires { i + 4 ≤ length list.now }
    ensures { result ≡ four_at w.0 list.now i }
{
    (list[i] == w.0) | (list[i + 1] == w.0) | (list[i + 2] == w.0) | (list[i + 3] == w.0)
}

// Marks the cells of the values from `from` to before `to` that are w; those before are marked.
fn mark_between(list: &[i64], from: usize, to: usize, w: Value, row: &mut [u8])
    requires { (from ≤ to) × (to ≤ length list.now) × (length row.old ≡ length list.now) }
    ensures { (cells : List ℕ) → row.old ≡ marked w.0 (take from list.now) cells → row.new ≡ marked w.0 (take to list.now) cells }
{
    for i in from..to {
        if list[i] == w.0 {
            row[i] = 1;
        }
    }
}

// Marks the cells of a list's values that are w: by eight, since few are, and then those that are left. One by one it took half as long again.
// That the row has a cell for each value is the bound of the call's own index, here and in the other functions that mark.
pub(crate) fn mark_all(list: &[i64], w: Value, row: &mut [u8])
    requires { length row.old ≡ length list.now }
    ensures { row.new ≡ marked w.0 list.now row.old }
{
    let blocks = list.len() / 8;
    for block in 0..blocks {
        let i = block * 8;
        if is_of_four(list, i, w) | is_of_four(list, i + 4, w) {
            mark_between(list, i, i + 8, w, row);
        }
    }
    mark_between(list, blocks * 8, list.len(), w, row);
}

// A list none of whose values is below the one before it.
#[derive(Clone, Copy)]
pub(crate) struct Ascending<'a> {
    pub list: &'a [i64],
    ghost ascends: { is_ascending list.now ≡ true },
}

impl<'a> Ascending<'a> {
    pub(crate) fn new(list: &'a [i64]) -> Option<Ascending<'a>>
        ensures { MatchOption result (is_ascending list.now ≡ false) (λ a. a.list.now ≡ list.now) }
    {
        if is_ascending(list) {
            Some(Ascending { list })
        } else {
            None
        }
    }

    // The first index from `from` on whose value is not below w; the list's length if there is none, since callers go on from there.
    pub(crate) fn reach(self, w: Value, from: Index) -> Index
        requires { from.0 ≤ length self.list.now }
        ensures { result.0 ≡ least (λ k. le_z w.0 (get_or self.entry.list.now k (pos 0))) from.0 (length self.entry.list.now - from.0) }
    {
        Index(from.0 + self.list[from.0..].partition_point(|v| *v < w.0))
    }

    // The value is in the list.
    pub(crate) fn has(self, w: Value) -> bool
        ensures { result ≡ elem_z w.0 self.entry.list.now }
    {
        let k = self.reach(w, Index(0)).0;
        k < self.list.len() && self.list[k] == w.0
    }

    // Marks the cells of the values that are w, from the first of them on.
    pub(crate) fn mark(self, w: Value, row: &mut [u8])
        requires { length row.old ≡ length self.list.now }
        ensures { row.new ≡ marked w.0 self.entry.list.now row.old }
    {
        // By index: to go through values and cells by `zip`, both would have to be cut at the first.
        for i in self.reach(w, Index(0)).0..self.list.len() {
            if self.list[i] != w.0 {
                return;
            }
            row[i] = 1;
        }
    }

    // The first index whose value is the p of one of the records; the list's length if there is none.
    pub(crate) fn next_item(self, items: IndexedRun) -> Index
        ensures { result.0 ≡ least (λ k. elem_z (get_or self.entry.list.now k (pos 0)) (ps_of (records_of items.entry.run.now))) 0 (length self.entry.list.now) }
    {
        let mut i = 0;
        // The index jumps to the next item: a `for` would have to pass over each value between.
        while i < self.list.len() {
            let x = self.list[i];
            let k = items.lower(Value(x), Value(i64::MIN));
            if items.places.len() <= k {
                return Index(self.list.len());
            }
            let p = p_at(items.run, items.places[k]);
            if p == x {
                return Index(i);
            }
            i = self.reach(Value(p), Index(i + 1)).0;
        }
        Index(i)
    }

    // The first index from `from` on whose value is paired with v; the list's length if there is none.
    // It goes from pair to pair, which asks for a list that ascends: `next_tried`, for any list, has to try each value.
    pub(crate) fn next_pair(self, members: IndexedRun, v: Value, from: Index) -> Index
        requires { from.0 ≤ length self.list.now }
        ensures { result.0 ≡ least (λ k. any (is_pair v.0 (get_or self.entry.list.now k (pos 0))) (map entry_of (records_of members.entry.run.now))) from.0 (length self.entry.list.now - from.0) }
    {
        let mut i = from.0;
        // The index jumps to the next pair: a `for` would have to pass over each value between.
        while i < self.list.len() {
            let w = Value(self.list[i]);
            let k = members.lower(v, w);
            if members.places.len() <= k {
                return Index(self.list.len());
            }
            let r = members.places[k];
            if p_at(members.run, r) != v.0 {
                return Index(self.list.len());
            }
            let q = q_at(members.run, r);
            if q == w.0 {
                if members.pairs_from(k, v, w) {
                    return Index(i);
                }
                i += 1;
            } else {
                i = self.reach(Value(q), Index(i + 1)).0;
            }
        }
        Index(i)
    }
}
