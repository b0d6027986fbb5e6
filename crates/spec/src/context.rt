// Where a record stands in a file.
ghost use Rattle.std.specs.Prelude.{◌≤◌};

use crate::kinds::{Kind, Section};

const MOST_FIELDS: usize = 32;

const MOST_CONSTRAINTS: usize = 256;

// How many fields and constraints are before it, and the section that was reached.
#[derive(Clone, Copy)]
pub struct Context {
    pub fields: usize,
    pub constraints: usize,
    pub section: Section,
    ghost counted: { (fields ≤ 32) × (constraints ≤ 256) },
}

impl Context {
    ghost use Rattle.std.specs.Prelude.{◌≡◌, true, false, ◌+◌};
    ghost use Rattle.spec.specs.Kind.{is_member, section_of};
    ghost use Rattle.spec.specs.Refusal.{context, overfull};
    ghost use Rattle.spec.specs.Code.{after_in, as_context, as_kind};

    // At the first record.
    pub(crate) fn new() -> Context
        ensures { as_context result ≡ context 0 0 0 }
    {
        Context {
            fields: 0,
            constraints: 0,
            section: Section::Fields,
        }
    }

    // 5: the head would be the 33rd field or the 257th constraint. A type for the kinds that are no member's would repeat the table of kinds.
    pub(crate) fn is_full_for(self, head: Kind) -> bool
        requires { is_member (as_kind head) ≡ false }
        ensures { result ≡ overfull (as_kind head) (as_context self) }
    {
        match head.section() {
            Section::Fields => MOST_FIELDS <= self.fields,
            Section::Constraints => MOST_CONSTRAINTS <= self.constraints,
            Section::Projector | Section::Neither => false,
        }
    }

    // How many fields and constraints are before the record: where a head is noted.
    pub(crate) fn heads(self) -> usize
        ensures { (result ≡ self.fields + self.constraints) × (result ≤ 288) }
    {
        self.fields + self.constraints
    }

    // After the head, by its section: the definitions' `after_head` by the law spec/Turns `after_class`.
    pub(crate) fn after(self, head: Kind) -> Context
        requires member { is_member (as_kind head) ≡ false }
        requires room { overfull (as_kind head) (as_context self) ≡ false }
        ensures { as_context result ≡ after_in (is_member (as_kind head)) (section_of (as_kind head)) (as_context self) }
    {
        match head.section() {
            Section::Fields => Context {
                fields: self.fields + 1,
                constraints: self.constraints,
                section: self.section,
            },
            Section::Constraints => Context {
                fields: self.fields,
                constraints: self.constraints + 1,
                section: Section::Constraints,
            },
            Section::Projector => Context {
                fields: self.fields,
                constraints: self.constraints,
                section: Section::Projector,
            },
            Section::Neither => self,
        }
    }
}
