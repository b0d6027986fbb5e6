// What a record, or the list of a head, is refused for.
ghost use Rattle.std.specs.Prelude.{◌≡◌, true, false};
ghost use Rattle.spec.specs.Kind.{is_member};
ghost use Rattle.spec.specs.Record.{records_of};
ghost use Rattle.spec.specs.Refusal.{off_scale, blank_field, head_tests, member_tests, belongs, list_fault, first_true, misfiled_number};
ghost use Rattle.spec.specs.Code.{as_record, as_context, as_kind, blank_in, fault_number, is_field_kind, number_of};

use crate::axes::{bad_axis, bad_offset};
use crate::context::Context;
use crate::domains::domain_len;
use crate::judge::{Candidate, unknown_kind};
use crate::kinds::{Kind, List, row_of};
use crate::records::Record;
use crate::refusal::Fault;

// 8: the domain of a field without a list is empty.
fn blank_field(h: Record) -> bool
    requires { off_scale (as_kind h.kind) (as_record h) ≡ false }
    ensures { result ≡ blank_in (is_field_kind (as_kind h.kind)) (as_record h) }
{
    h.kind == Kind::Field && h.b < 2 && domain_len(h, 0) == 0
}

// A head, after so many fields and constraints: the first of the faults 2 to 8.
#[tactic(auto, using(crate::proofs::Uses::blank_class))]
pub(crate) fn judge_head(h: Record, context: Context) -> Result<(), Fault>
    requires { is_member (as_kind h.kind) ≡ false }
    ensures { number_of result ≡ first_true 2 (head_tests (as_kind h.kind) (as_context context) (as_record h)) }
{
    if unknown_kind(h) {
        return Err(Fault::UnknownKind);
    }
    let head = Candidate::new(h);
    if head.has_stray_byte() {
        return Err(Fault::StrayByte);
    }
    if head.is_out_of_order(context) {
        return Err(Fault::OutOfOrder);
    }
    if context.is_full_for(h.kind) {
        return Err(Fault::TooMany);
    }
    if head.names_no_field(context.fields) {
        return Err(Fault::NoSuchField);
    }
    if head.is_off_scale() {
        return Err(Fault::OffScale);
    }
    if blank_field(h) {
        return Err(Fault::EmptyDomain);
    }
    Ok(())
}

// Head h takes the member m.
pub(crate) fn belongs_to(h: Record, m: Record) -> bool
    requires { is_member (as_kind m.kind) ≡ true }
    ensures { result ≡ belongs (as_record h) (as_record m) }
{
    row_of(h.kind, h.b).list == row_of(m.kind, m.b).list
}

// A member m that head h takes, after so many fields and the members before it: the first of the faults 3 to 9.
pub(crate) fn judge_member(h: Record, fields: usize, before: &[u8], m: Record) -> Result<(), Fault>
    ensures { number_of result ≡ first_true 2 (member_tests (as_kind m.kind) fields (as_record h) (records_of before.now) (as_record m)) }
{
    let member = Candidate::new(m);
    if member.has_stray_byte() {
        return Err(Fault::StrayByte);
    }
    if member.is_not_due(h.a) {
        return Err(Fault::OutOfOrder);
    }
    if member.names_no_field(fields) {
        return Err(Fault::NoSuchField);
    }
    if member.is_off_scale() {
        return Err(Fault::OffScale);
    }
    if member.row.list == List::Axes && bad_axis(m, before) {
        return Err(Fault::BadPacking);
    }
    Ok(())
}

// A member that its head does not take, or that no head stands before.
pub(crate) fn misfiled_fault(m: Record) -> Fault
    ensures { fault_number result ≡ misfiled_number (as_record m) }
{
    if Candidate::new(m).has_stray_byte() {
        Fault::StrayByte
    } else {
        Fault::OutOfOrder
    }
}

// A fault of the whole list of head h: 8 or 9.
pub(crate) fn judge_list(h: Record, members: &[u8]) -> Result<(), Fault>
    ensures { number_of result ≡ list_fault (as_kind h.kind) (as_record h) (records_of members.now) }
{
    let is_empty = members.len() < 32;
    match h.kind {
        Kind::Field => {
            if (h.b == 2) & is_empty {
                return Err(Fault::EmptyDomain);
            }
        }
        Kind::Decompose => {
            if is_empty | bad_offset(members, h.q) {
                return Err(Fault::BadPacking);
            }
        }
        _ => {}
    }
    Ok(())
}
