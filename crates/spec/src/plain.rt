// Members of which a list may have many. A short test tells that such a member has no fault.
ghost use Rattle.std.specs.Prelude.{◌≡◌, true, ℕ, pos, ◌+◌, ◌/◌, ◌%◌, ◌≤◌, ◌<◌, length};
ghost use Rattle.spec.specs.Record.{record_at};
ghost use Rattle.spec.specs.Refusal.{on_scale};
ghost use Rattle.spec.specs.Code.{InList, IsPlain};

use crate::records::{lead_at, p_at, q_at, r_at};

// The list that such members stand in: a value's field, and how many fields a member may name.
#[derive(Clone, Copy)]
pub enum PlainList {
    Values(u8),
    Items,
    Entries,
    Disables(u8),
    Assigns(u8),
}

// The first eight bytes of an item, a pair and a key, as one number; and of the members that name a field, but for it. Not kinds: kind, a, b and padding are tested at once.
const VALUE: u64 = 2;

const ITEM: u64 = 3;

const PAIR: u64 = 4;

const KEY: u64 = 5;

const DISABLE: u64 = 6;

const ASSIGN: u64 = 7;

// 0 only where x is.
fn off_zero(x: i64) -> u64
    ensures { result ≡ 0 → x ≡ pos 0 }
{
    x.cast_unsigned()
}

// 0 where x lies on the scale, both ends too, and nowhere else.
fn off_scale(x: i64) -> u64
    ensures { result ≡ 0 → on_scale x ≡ true }
{
    // What is at most 2^57 is, less one, below it: one shift tells both ends.
    x.cast_unsigned()
        .wrapping_add(0x100_0000_0000_0000)
        .saturating_sub(1)
        >> 57
}

// 0 only where the first eight bytes are of this kind, name one of n fields, and have nothing else.
fn off_fields(lead: u64, kind: u64, n: u8) -> u64
    ensures { result ≡ 0 → (lead % 0x100 ≡ kind) × (lead / 0x100 < n) }
{
    (lead % 0x100 ^ kind) | u64::from(n as u64 <= lead / 0x100)
}

// 0 only where record i is of the list, and all but its p and r is as it has to be.
#[inline(always)]
fn off_list(file: &[u8], i: usize, list: PlainList) -> u64
    requires { i < length file.now / 32 }
    ensures { result ≡ 0 → InList list (record_at file.now i) }
{
    let lead = lead_at(file, i);
    let p = p_at(file, i);
    let q = q_at(file, i);
    match list {
        PlainList::Values(field) => (lead ^ (VALUE + field as u64 * 0x100)) | off_zero(q),
        PlainList::Items => (lead ^ ITEM) | off_zero(q),
        PlainList::Entries => {
            if lead == PAIR {
                off_scale(q)
            } else {
                (lead ^ KEY) | off_zero(q)
            }
        }
        PlainList::Disables(n) => off_fields(lead, DISABLE, n) | off_zero(p) | off_zero(q),
        PlainList::Assigns(n) => off_fields(lead, ASSIGN, n) | off_zero(q),
    }
}

// 0 only where record i is of the list and has no fault. Bits, and no Bool, so that those of several records are tested at once.
#[inline(always)]
fn flaws(file: &[u8], i: usize, list: PlainList) -> u64
    requires { i < length file.now / 32 }
    ensures { result ≡ 0 → IsPlain list (record_at file.now i) }
{
    off_list(file, i, list) | off_zero(r_at(file, i)) | off_scale(p_at(file, i))
}

// The same of the four records from i on.
#[inline(always)]
fn flaws_of_four(file: &[u8], i: usize, list: PlainList) -> u64
    requires { i + 4 ≤ length file.now / 32 }
    ensures { result ≡ 0 → (j : ℕ) → i ≤ j → j < i + 4 → IsPlain list (record_at file.now j) }
{
    flaws(file, i, list)
        | flaws(file, i + 1, list)
        | flaws(file, i + 2, list)
        | flaws(file, i + 3, list)
}

// After the members from record i on that have no flaw, one by one.
#[inline(always)]
fn end_by_one(file: &[u8], i: usize, list: PlainList) -> usize
    requires { i ≤ length file.now / 32 }
    ensures { (i ≤ result) × (result ≤ length file.now / 32) × ((j : ℕ) → i ≤ j → j < result → IsPlain list (record_at file.now j)) }
{
    let n = file.len() / 32;
    for k in i..n {
        if flaws(file, k, list) != 0 {
            return k;
        }
    }
    n
}

// The same by eight, and then one by one.
// This and what it calls are in line, so that the loop of each caller has the test of its own list.
#[inline(always)]
pub(crate) fn plain_end(file: &[u8], i: usize, list: PlainList) -> usize
    requires { i ≤ length file.now / 32 }
    ensures { (i ≤ result) × (result ≤ length file.now / 32) × ((j : ℕ) → i ≤ j → j < result → IsPlain list (record_at file.now j)) }
{
    let blocks = (file.len() / 32 - i) / 8;
    for block in 0..blocks {
        let k = i + block * 8;
        if flaws_of_four(file, k, list) | flaws_of_four(file, k + 4, list) != 0 {
            return end_by_one(file, k, list);
        }
    }
    end_by_one(file, i + blocks * 8, list)
}
