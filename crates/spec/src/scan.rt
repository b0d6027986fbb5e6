// Refusals 2 to 9, in one pass over the records.
ghost use Rattle.std.specs.Prelude.{◌≡◌, true, false, ℕ, ◌+◌, ◌-◌, ◌/◌, ◌≤◌, ◌<◌, length, take, drop, IfOk, OnOk};
ghost use Rattle.lists.specs.Lists.{over};
ghost use Rattle.spec.specs.Kind.{is_member};
ghost use Rattle.spec.specs.Record.{heads_of, records_of, record_at};
ghost use Rattle.spec.specs.Refusal.{list_fault, records_fault, refuse};
ghost use Rattle.spec.specs.Code.{after_turn, as_context, as_fault, as_kind, as_record, heads_before, left_at, noting, turn_good};

use crate::context::Context;
use crate::domains::part;
use crate::faults::{belongs_to, judge_head, judge_list, judge_member, misfiled_fault};
use crate::kinds::{List, Section, row_of};
use crate::plain::{PlainList, plain_end};
use crate::records::{Record, record_at};
use crate::refusal::{Fault, Refusal, refuse_at};
use crate::validate::HEADS;

// The context after the last head, and that head's record, counted from 0. It stands before record i of the calls below, which is the bound of their own index.
#[derive(Clone, Copy)]
pub struct State {
    pub context: Context,
    pub head: usize,
}

// The list of the open head, whose members end before record `end`.
fn close_list(file: &[u8], head: usize, end: usize) -> Result<(), Refusal>
    requires { (head < end) × (end ≤ length file.now / 32) }
    ensures { as_fault result ≡ refuse (list_fault (record_at file.now head).kind (record_at file.now head) (take (end - (head + 1)) (drop (head + 1) (records_of file.now)))) (head + 1) }
{
    let number = head + 1;
    refuse_at(
        judge_list(record_at(file, head), part(file, number, end)),
        number,
    )
}

// Record i is a head: it closes the list before it, and opens its own. It is noted where it stands.
fn take_head(
    file: &[u8],
    i: usize,
    state: State,
    m: Record,
    heads: &mut [usize; HEADS],
) -> Result<State, Refusal>
    requires { (state.head < i) × (i < length file.now / 32) × (as_record m ≡ record_at file.now i) × (is_member (as_kind m.kind) ≡ false) }
    ensures left { (left_at file.now state i ≡ after_turn file.now i result) × turn_good i result }
    ensures noted { IfOk result (λ next. noting file.now heads.new (heads_before (as_context next.context)) (i + 1) ≡ noting file.now heads.old (heads_before (as_context state.context)) i) }
{
    close_list(file, state.head, i)?;
    refuse_at(judge_head(m, state.context), i + 1)?;
    heads[state.context.heads()] = i;
    Ok(State {
        context: state.context.after(m.kind),
        head: i,
    })
}

// Record i is a member: of the open list, or of none.
fn take_member(file: &[u8], i: usize, state: State, m: Record) -> Result<State, Refusal>
    requires { (state.head < i) × (i < length file.now / 32) × (as_record m ≡ record_at file.now i) × (is_member (as_kind m.kind) ≡ true) }
    ensures left { (left_at file.now state i ≡ after_turn file.now i result) × turn_good i result }
    ensures same { IfOk result (λ next. next ≡ state) }
{
    let head = record_at(file, state.head);
    if !belongs_to(head, m) {
        close_list(file, state.head, i)?;
        return Err(misfiled_fault(m).at(i + 1));
    }
    let before = part(file, state.head + 1, i);
    refuse_at(judge_member(head, state.context.fields, before, m), i + 1)?;
    Ok(state)
}

fn take(file: &[u8], i: usize, state: State, heads: &mut [usize; HEADS]) -> Result<State, Refusal>
    requires { (state.head < i) × (i < length file.now / 32) }
    ensures left { (left_at file.now state i ≡ after_turn file.now i result) × turn_good i result }
    ensures noted { IfOk result (λ next. noting file.now heads.new (heads_before (as_context next.context)) (i + 1) ≡ noting file.now heads.old (heads_before (as_context state.context)) i) }
{
    let m = record_at(file, i);
    if m.kind.is_member() {
        take_member(file, i, state, m)
    } else {
        take_head(file, i, state, m, heads)
    }
}

// After the last record, whose end is noted behind the projector.
fn close(file: &[u8], state: State, heads: &mut [usize; HEADS]) -> Result<(), Refusal>
    requires { state.head < length file.now / 32 }
    ensures left { as_fault result ≡ left_at file.now state (length file.now / 32) }
    ensures noted { OnOk result (heads.new ≡ noting file.now heads.old (heads_before (as_context state.context)) (length file.now / 32)) }
{
    let n = file.len() / 32;
    close_list(file, state.head, n)?;
    if state.context.section == Section::Projector {
        heads[state.context.heads() + 1] = n;
        Ok(())
    } else {
        Err(Fault::OutOfOrder.at(n + 1))
    }
}

// Passes plain members from record i on: what is left to judge is the same.
fn pass_plain(file: &[u8], state: State, i: usize) -> usize
    requires { (state.head < i) × (i ≤ length file.now / 32) }
    ensures left { (i ≤ result) × (result ≤ length file.now / 32) × (left_at file.now state i ≡ left_at file.now state result) }
    ensures members { (j : ℕ) → i ≤ j → j < result → is_member (record_at file.now j).kind ≡ true }
{
    let head = record_at(file, state.head);
    // Both fit a byte.
    let (field, fields) = (head.a as u8, state.context.fields as u8);
    match row_of(head.kind, head.b).list {
        List::Values => plain_end(file, i, PlainList::Values(field)),
        List::Items => plain_end(file, i, PlainList::Items),
        List::Entries => plain_end(file, i, PlainList::Entries),
        List::Disables => plain_end(file, i, PlainList::Disables(fields)),
        List::Assigns => plain_end(file, i, PlainList::Assigns(fields)),
        List::Nothing | List::Axes => i,
    }
}

// The records after the first, which is a head.
fn scan_from(file: &[u8], first: State, heads: &mut [usize; HEADS]) -> Result<(), Refusal>
    requires { (first.head < 1) × (1 ≤ length file.now / 32) }
    ensures left { as_fault result ≡ left_at file.now first 1 }
    ensures noted { OnOk result (heads.new ≡ noting file.now heads.old (heads_before (as_context first.context)) 1) }
{
    let n = file.len() / 32;
    let mut state = first;
    let mut i = pass_plain(file, state, 1);
    // No `for`: the index goes on past runs of plain members.
    while i < n {
        state = take(file, i, state, heads)?;
        i = pass_plain(file, state, i + 1);
    }
    close(file, state, heads)
}

// Refusals 2 to 9. Where the heads stand is noted here: a pass of its own over a long list costs half as much as the test of its members. Of a refused file nothing is said of the array.
pub(crate) fn scan(file: &[u8], heads: &mut [usize; HEADS]) -> Result<(), Refusal>
    ensures fault { as_fault result ≡ records_fault (records_of file.now) }
    ensures noted { OnOk result (heads.new ≡ over (heads_of file.now) heads.old) }
{
    let is_empty = file.len() < 32;
    if is_empty {
        return Err(Fault::OutOfOrder.at(1));
    }
    let m = record_at(file, 0);
    if m.kind.is_member() {
        return Err(misfiled_fault(m).at(1));
    }
    let context = Context::new();
    refuse_at(judge_head(m, context), 1)?;
    heads[0] = 0;
    scan_from(
        file,
        State {
            context: context.after(m.kind),
            head: 0,
        },
        heads,
    )
}
