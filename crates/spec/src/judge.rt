// The tests 2 to 7 of one record.
ghost use Rattle.std.specs.Prelude.{◌≡◌, pos};
ghost use Rattle.std.specs.Int.Signed.{lt_z};
ghost use Rattle.lists.specs.Integers.{eq_z};
ghost use Rattle.spec.specs.Kind.{row_of};
ghost use Rattle.spec.specs.Refusal.{no_such_field, not_due, off_scale, on_scale, out_of_order, stray_byte, unknown_kind};
ghost use Rattle.spec.specs.Code.{as_context, as_kind, as_record, as_row, stray_code};

use crate::context::Context;
use crate::kinds::{Kind, Row, Section, Use, row_of};
use crate::records::Record;

// Within ±2^56.
pub(crate) fn on_scale(x: i64) -> bool
    ensures { result ≡ on_scale x }
{
    (-0x100_0000_0000_0000 <= x) & (x <= 0x100_0000_0000_0000)
}

// 2: an unknown kind, or a field of an unknown form.
pub(crate) fn unknown_kind(h: Record) -> bool
    ensures { result ≡ unknown_kind (as_kind h.kind) (as_record h) }
{
    match h.kind {
        Kind::Unknown(_) => true,
        Kind::Field => 2 < h.b,
        _ => false,
    }
}

// A record with the row of its kind.
#[derive(Clone, Copy)]
pub struct Candidate {
    pub given: Record,
    pub row: Row,
    ghost looked_up: { as_row row ≡ row_of (as_kind given.kind) given.b },
}

impl Candidate {
    pub(crate) fn new(given: Record) -> Candidate
        ensures { result.given ≡ given }
    {
        Candidate {
            given,
            row: row_of(given.kind, given.b),
        }
    }

    // 3: something that the kind does not use is not 0.
    pub(crate) fn has_stray_byte(self) -> bool
        ensures by_row { result ≡ stray_code self.row (as_record self.given) }
        ensures stray { result ≡ stray_byte (as_kind self.given.kind) (as_record self.given) }
    {
        let given = self.given;
        let row = self.row;
        (given.padding != 0)
            | ((row.a == Use::Unused) & (given.a != 0))
            | ((row.b == Use::Unused) & (given.b != 0))
            | ((row.p == Use::Unused) & (given.p != 0))
            | ((row.q == Use::Unused) & (given.q != 0))
            | ((row.r == Use::Unused) & (given.r != 0))
    }

    // 4: a is not the number due.
    pub(crate) fn is_not_due(self, due: usize) -> bool
        ensures { result ≡ not_due (as_kind self.given.kind) due (as_record self.given) }
    {
        (self.row.a == Use::Own) & (self.given.a != due)
    }

    // 4: fields, then constraints, then one projector.
    pub(crate) fn is_out_of_order(self, context: Context) -> bool
        ensures { result ≡ out_of_order (as_kind self.given.kind) (as_context context) (as_record self.given) }
    {
        (self.given.kind.section() < context.section)
            | (context.section == Section::Projector)
            | self.is_not_due(context.fields)
    }

    // 6: a named field is not below the count of fields before it.
    pub(crate) fn names_no_field(self, fields: usize) -> bool
        ensures { result ≡ no_such_field (as_kind self.given.kind) fields (as_record self.given) }
    {
        ((self.row.a == Use::Names) & (fields <= self.given.a))
            | ((self.row.b == Use::Names) & (fields <= self.given.b))
    }

    // 7: p, q or r off the scale; a negative mask or step.
    pub(crate) fn is_off_scale(self) -> bool
        ensures { result ≡ off_scale (as_kind self.given.kind) (as_record self.given) }
    {
        let given = self.given;
        !on_scale(given.p)
            | !on_scale(given.q)
            | !on_scale(given.r)
            | ((self.row.p == Use::Natural) & (given.p < 0))
            | ((self.row.r == Use::Natural) & (given.r < 0))
    }
}
