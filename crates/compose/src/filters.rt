// The lists of the fields, laid into the lent scratch: each domain, narrowed.
ghost use Rattle.std.specs.Prelude.{◌≡◌, Bool, ◌||◌, ℤ, List, true, false, ◌+◌, ◌/◌, ◌≤◌, ◌<◌, suc, pos, get_or, length, take, drop, replicate, MatchOption};
ghost use mathlib.Core.List.{foldl, map};
ghost use Rattle.lists.specs.Integers.{elem_z, eq_z};
ghost use Rattle.lists.specs.Lists.{concat_map, filter, sum_n, over};
ghost use Rattle.spec.specs.Code.{ps_of};
ghost use Rattle.spec.specs.Domain.{domain};
ghost use Rattle.spec.specs.Record.{field_of, record_at, records_of};
ghost use Rattle.registry.specs.Code.{group_in};
ghost use Rattle.compose.specs.Maps.{allowed, narrow_by};
ghost use Rattle.compose.specs.Known.{domain_of};
ghost use Rattle.compose.specs.Code.{Answers, constraint_at, constraints_in, fields_in, FieldIn, FieldsIn, is_ascending, list_places, lists_by, packed_lists, span_of, used_by};

use crate::domain::Domain;
use crate::finding::{Ascending, is_ascending};
use crate::groups::Rules;
use crate::members::{INDEXED, ROOM, indexed};
use crate::places::Span;
use registry::check::meets;
use registry::sorting::IndexedRun;
use spec::domains::{has_p, part};
use spec::kinds::Kind;
use spec::numbers::Value;
use spec::records::{a_at, kind_at, p_at, record_at};

// Moves the values that pass the test to the front; how many they are.
fn compact<F: Fn(Value) -> bool>(list: &mut [i64], passes: F) -> usize
    requires { F.IsAlwaysCallable passes }
    ensures count { (p : ℤ → Bool) → Answers (F.post passes) p → result ≡ length (filter p list.old) }
    ensures left { (p : ℤ → Bool) → Answers (F.post passes) p → list.new ≡ over (filter p list.old) list.old }
{
    let mut kept = 0;
    // By index: the values in front are written while those behind are read, which no iterator over the list lets.
    for i in 0..list.len() {
        let x = list[i];
        if passes(Value(x)) {
            list[kept] = x;
            kept += 1;
        }
    }
    kept
}

// Not one function with `compact`, which tries each value: what gives the next index would be a parameter, and there no more than `i + 1`.
// Moves the values of a list that ascends that are among the items to the front, item by item; how many they are.
fn compact_ascending(list: &mut [i64], items: IndexedRun) -> usize
    requires { is_ascending list.old ≡ true }
    ensures count { result ≡ length (filter (λ v. elem_z v (ps_of (records_of items.entry.run.now))) list.old) }
    ensures left { list.new ≡ over (filter (λ v. elem_z v (ps_of (records_of items.entry.run.now))) list.old) list.old }
{
    let mut kept = 0;
    let mut i = Ascending { list: &list[..] }.next_item(items).0;
    // `while`: the next index is searched for, so that no range has it.
    while i < list.len() {
        list[kept] = list[i];
        kept += 1;
        let from = i + 1;
        let rest = Ascending {
            list: &list[from..],
        };
        i = from + rest.next_item(items).0;
    }
    kept
}

// So many items are few.
const FEW: usize = 64;

// Moves the values that are among few items to the front, where the list ascends; how many they are.
fn compact_few(list: &mut [i64], run: &[u8]) -> usize
    requires { (length run.now / 32 ≤ 64) × (is_ascending list.old ≡ true) }
    ensures count { result ≡ length (filter (λ v. elem_z v (ps_of (records_of run.now))) list.old) }
    ensures left { list.new ≡ over (filter (λ v. elem_z v (ps_of (records_of run.now))) list.old) list.old }
{
    let mut room = [0usize; 2 * FEW];
    compact_ascending(list, indexed(run, &mut room))
}

// The same of more items, whether the list ascends or not.
// Out of line, for its large array: inlined, each call of the caller would touch its memory.
#[inline(never)]
fn compact_many(list: &mut [i64], run: &[u8]) -> usize
    requires { length run.now / 32 ≤ 2048 }
    ensures count { result ≡ length (filter (λ v. elem_z v (ps_of (records_of run.now))) list.old) }
    ensures left { list.new ≡ over (filter (λ v. elem_z v (ps_of (records_of run.now))) list.old) list.old }
{
    let mut room = [0usize; ROOM];
    let items = indexed(run, &mut room);
    if is_ascending(&list[..]) {
        return compact_ascending(list, items);
    }
    compact(list, |v| items.finds_p(v))
}

// So many items and values that it pays to go from item to item, where the values ascend.
fn is_worth_items(items: usize, values: usize) -> bool {
    (512 < values) | ((32 < items) & (64 < values))
}

// Moves the values that are among the items to the front; how many they are. The items are put in order where they are many and the values too, or where the values ascend and either are.
fn compact_items(list: &mut [i64], run: &[u8]) -> usize
    ensures count { result ≡ length (filter (λ v. elem_z v (ps_of (records_of run.now))) list.old) }
    ensures left { list.new ≡ over (filter (λ v. elem_z v (ps_of (records_of run.now))) list.old) list.old }
{
    let items = run.len() / 32;
    if (FEW < items) & (items <= INDEXED) & (64 < list.len()) {
        return compact_many(list, run);
    }
    if (items <= FEW) & is_worth_items(items, list.len()) && is_ascending(&list[..]) {
        return compact_few(list, run);
    }
    compact(list, |v| has_p(run, v))
}

// Narrows the list of field f by constraint k: keeps the values that meet it, or all where none does; how many are kept. That there is a constraint k is the bound of the call's own index, as in evaluate.
fn narrow_by(rules: Rules, k: usize, f: usize, list: &mut [i64]) -> usize
    requires { suc k < length rules.heads.now }
    ensures count { result ≡ length (foldl (narrow_by f) list.old (constraint_at rules.entry.file.now rules.entry.heads.now k)) }
    ensures left { list.new ≡ over (foldl (narrow_by f) list.old (constraint_at rules.entry.file.now rules.entry.heads.now k)) list.old }
{
    let file = rules.file;
    let head = rules.heads[k];
    let h = record_at(file, head);
    if h.a != f {
        return list.len();
    }
    let run = part(file, head + 1, rules.heads[k + 1]);
    let kind = h.kind;
    // Two arms that are alike: each names its kind, so that in its loop `meets` is one test and no match.
    let met = match kind {
        Kind::Range => compact(list, |v| meets(Kind::Range, h.p, h.q, run, v)),
        Kind::Oneof => compact_items(list, run),
        Kind::Bitmask => compact(list, |v| meets(Kind::Bitmask, h.p, h.q, run, v)),
        _ => return list.len(),
    };
    let none = met == 0;
    if none { list.len() } else { met }
}

// Constraint k is a filter of field f.
fn is_filter(rules: Rules, k: usize, f: usize) -> bool
    requires { suc k < length rules.heads.now }
    ensures field { result ≡ true → (record_at rules.entry.file.now (get_or rules.entry.heads.now k 0)).a ≡ f }
    ensures others { result ≡ false → (list : List ℤ) → foldl (narrow_by f) list (constraint_at rules.entry.file.now rules.entry.heads.now k) ≡ list }
{
    let head = rules.heads[k];
    // The field first: most constraints are about another, and a file may have 32 fields and 256 constraints.
    if a_at(rules.file, head) != f {
        return false;
    }
    let kind = kind_at(rules.file, head);
    matches!(kind, Kind::Range | Kind::Oneof | Kind::Bitmask)
}

// The first filter of field f: the constraints before it narrow nothing, and all where there is none.
fn first_filter(rules: Rules, f: usize) -> Option<usize>
    ensures { MatchOption result ((list : List ℤ) → foldl (narrow_by f) list (constraints_in rules.entry.file.now rules.entry.heads.now) ≡ list) (λ k. (suc k < length rules.entry.heads.now) × ((record_at rules.entry.file.now (get_or rules.entry.heads.now k 0)).a ≡ f) × ((list : List ℤ) → foldl (narrow_by f) list (constraints_in rules.entry.file.now rules.entry.heads.now) ≡ foldl (narrow_by f) list (constraints_in rules.entry.file.now (drop k rules.entry.heads.now)))) }
{
    for k in 0..rules.count() {
        if is_filter(rules, k, f) {
            return Some(k);
        }
    }
    None
}

// Narrows the list by the constraints from number `first` on, in file order.
fn narrow_from(rules: Rules, first: usize, f: usize, list: &mut [i64]) -> usize
    ensures count { result ≡ length (foldl (narrow_by f) list.old (constraints_in rules.entry.file.now (drop first rules.entry.heads.now))) }
    ensures front { take result list.new ≡ foldl (narrow_by f) list.old (constraints_in rules.entry.file.now (drop first rules.entry.heads.now)) }
{
    let mut len = list.len();
    for k in first..rules.count() {
        if is_filter(rules, k, f) {
            len = narrow_by(rules, k, f, &mut list[..len]);
        }
    }
    len
}

// A value is one of two numbers.
fn is_either(v: Value, one: i64, other: i64) -> bool
    ensures { result ≡ (eq_z v.0 one || eq_z v.0 other) }
{
    (v.0 == one) | (v.0 == other)
}

// Lays the values of the domain that are among one or two items over the list; how many they are.
fn lay_among(domain: Domain, run: &[u8], list: &mut [i64]) -> usize
    requires items { (0 < length run.now / 32) × (length run.now / 32 ≤ 2) }
    requires room { length list.old ≡ length (domain_of domain) }
    ensures count { result ≡ length (filter (λ v. elem_z v (ps_of (records_of run.now))) (domain_of domain.entry)) }
    ensures left { list.new ≡ over (filter (λ v. elem_z v (ps_of (records_of run.now))) (domain_of domain.entry)) list.old }
{
    let one = p_at(run, 0);
    let other = p_at(run, run.len() / 32 - 1);
    domain.lay_passing(list, move |v| is_either(v, one, other))
}

// Lays the domain of field f narrowed by constraint k, one of its own; how many values are left. Where that is a range, a bitmask or one or two items, only the values that meet it are laid: to lay all first takes as long again.
fn lay_narrowed(rules: Rules, k: usize, f: usize, domain: Domain, list: &mut [i64]) -> usize
    requires constraint { (suc k < length rules.heads.now) × ((record_at rules.file.now (get_or rules.heads.now k 0)).a ≡ f) }
    requires room { length list.old ≡ length (domain_of domain) }
    ensures count { result ≡ length (foldl (narrow_by f) (domain_of domain.entry) (constraint_at rules.entry.file.now rules.entry.heads.now k)) }
    ensures front { take result list.new ≡ foldl (narrow_by f) (domain_of domain.entry) (constraint_at rules.entry.file.now rules.entry.heads.now k) }
{
    let head = rules.heads[k];
    let c = record_at(rules.file, head);
    let (kind, p, q) = (c.kind, c.p, c.q);
    let run = part(rules.file, head + 1, rules.heads[k + 1]);
    let items = run.len() / 32;
    // Two arms that are alike, as in `narrow_by`. They own p and q: lent, these would be read again at each value.
    let kept = match kind {
        Kind::Range => domain.lay_passing(list, move |v| meets(Kind::Range, p, q, &[], v)),
        Kind::Bitmask => domain.lay_passing(list, move |v| meets(Kind::Bitmask, p, q, &[], v)),
        Kind::Oneof if (items == 1) | (items == 2) => lay_among(domain, run, list),
        _ => {
            domain.lay(list);
            return narrow_by(rules, k, f, list);
        }
    };
    let none = kept == 0;
    if none {
        domain.lay(list);
        return list.len();
    }
    kept
}

// Lays the allowed list of the field at record head, which is field f; its length.
fn lay_list(rules: Rules, head: usize, end: usize, f: usize, list: &mut [i64]) -> usize
    requires { FieldIn rules.file.now head end × (sum_n (map (λ d. length (domain d)) (field_of (group_in rules.file.now head end))) ≤ length list.old) }
    ensures count { result ≡ length (concat_map (λ d. allowed (constraints_in rules.entry.file.now rules.entry.heads.now) f d) (field_of (group_in rules.entry.file.now head end))) }
    ensures front { take result list.new ≡ concat_map (λ d. allowed (constraints_in rules.entry.file.now rules.entry.heads.now) f d) (field_of (group_in rules.entry.file.now head end)) }
{
    let domain = Domain {
        head: record_at(rules.file, head),
        values: part(rules.file, head + 1, end),
    };
    let len = domain.len();
    let Some(k) = first_filter(rules, f) else {
        domain.lay(&mut list[..len]);
        return len;
    };
    let kept = lay_narrowed(rules, k, f, domain, &mut list[..len]);
    narrow_from(rules, k + 1, f, &mut list[..kept])
}

// Lays the lists of the fields one behind the other, by the constraints given of their file, and zeros to the end; how many numbers they take. In lists, where that of each field lies.
pub(crate) fn lay_lists(
    rules: Rules,
    fields: &[usize],
    scratch: &mut [i64],
    lists: &mut [Span; 32],
) -> usize
    requires { (length fields.now ≤ 33) × FieldsIn rules.file.now fields.now × (sum_n (map (λ d. length (domain d)) (fields_in rules.file.now fields.now)) ≤ length scratch.old) × (lists.old ≡ replicate 32 (span_of 0 0)) }
    ensures used { result ≡ used_by (lists_by (constraints_in rules.entry.file.now rules.entry.heads.now) (fields_in rules.entry.file.now fields.now)) }
    ensures scratch { scratch.new ≡ packed_lists (lists_by (constraints_in rules.entry.file.now rules.entry.heads.now) (fields_in rules.entry.file.now fields.now)) (length scratch.old) }
    ensures lists { lists.new ≡ list_places (map length (lists_by (constraints_in rules.entry.file.now rules.entry.heads.now) (fields_in rules.entry.file.now fields.now))) }
{
    let mut at = 0;
    // By number, which is the field's too: `windows(2)` gives slices, of which head and end would be read by index again.
    for k in 1..fields.len() {
        let len = lay_list(rules, fields[k - 1], fields[k], k - 1, &mut scratch[at..]);
        lists[k - 1] = Span { start: at, len };
        at += len;
    }
    scratch[at..].fill(0);
    at
}
