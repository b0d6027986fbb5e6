// The kinds of records, the part of a file that each stands in, and the table of what each uses.
ghost use Rattle.std.specs.Prelude.{◌≡◌};
ghost use Rattle.spec.specs.Kind.{field_row, kind_of, row_of, is_member, section_of};
ghost use Rattle.spec.specs.Code.{as_kind, as_row, kind_number, section_number};

// The kind of a record. A number that is no kind's stays.
#[derive(Clone, Copy, PartialEq, Eq)]
pub enum Kind {
    Field,
    Value,
    Item,
    Pair,
    Key,
    Disable,
    Assign,
    Axis,
    Range,
    Even,
    Eq,
    Neq,
    Lt,
    Gt,
    Le,
    Ge,
    Oneof,
    Cross,
    EnableMask,
    Bitmask,
    EnableSet,
    Sum,
    Identity,
    Parity,
    Decompose,
    Unknown(u8),
}

// A match over all numbers, which is the form that document 01 asks for.
impl From<u8> for Kind {
    ghost from_gives = { λ code kind. (as_kind kind ≡ kind_of code) × (kind_number kind ≡ code) };

    #[tactic(auto, unfolding(crate::specs::Kind::kind_of))]
    fn from(code: u8) -> Kind {
        match code {
            0 => Kind::Unknown(0),
            1 => Kind::Field,
            2 => Kind::Value,
            3 => Kind::Item,
            4 => Kind::Pair,
            5 => Kind::Key,
            6 => Kind::Disable,
            7 => Kind::Assign,
            8 => Kind::Axis,
            9 => Kind::Unknown(9),
            10 => Kind::Range,
            11 => Kind::Even,
            12 => Kind::Eq,
            13 => Kind::Neq,
            14 => Kind::Lt,
            15 => Kind::Gt,
            16 => Kind::Le,
            17 => Kind::Ge,
            18 => Kind::Oneof,
            19 => Kind::Cross,
            20 => Kind::EnableMask,
            21 => Kind::Bitmask,
            22 => Kind::EnableSet,
            23..=29 => Kind::Unknown(code),
            30 => Kind::Sum,
            31 => Kind::Identity,
            32 => Kind::Parity,
            33 => Kind::Decompose,
            34..=255 => Kind::Unknown(code),
        }
    }
}

// The parts of a file, in their order. A record of no known kind stands in none of the three.
#[derive(Clone, Copy, PartialEq, Eq, PartialOrd, Ord)]
pub enum Section {
    Fields,
    Constraints,
    Projector,
    Neither,
}

impl Kind {
    // A member stands in the list of a head.
    pub fn is_member(self) -> bool
        ensures { result ≡ is_member (as_kind self) }
    {
        match self {
            Kind::Value
            | Kind::Item
            | Kind::Pair
            | Kind::Key
            | Kind::Disable
            | Kind::Assign
            | Kind::Axis => true,
            Kind::Field
            | Kind::Range
            | Kind::Even
            | Kind::Eq
            | Kind::Neq
            | Kind::Lt
            | Kind::Gt
            | Kind::Le
            | Kind::Ge
            | Kind::Oneof
            | Kind::Cross
            | Kind::EnableMask
            | Kind::Bitmask
            | Kind::EnableSet
            | Kind::Sum
            | Kind::Identity
            | Kind::Parity
            | Kind::Decompose
            | Kind::Unknown(_) => false,
        }
    }

    // The part of a file that the record stands in; a member stands in its head's.
    pub fn section(self) -> Section
        ensures { section_number result ≡ section_of (as_kind self) }
    {
        match self {
            Kind::Field | Kind::Value => Section::Fields,
            Kind::Item
            | Kind::Pair
            | Kind::Key
            | Kind::Disable
            | Kind::Assign
            | Kind::Range
            | Kind::Even
            | Kind::Eq
            | Kind::Neq
            | Kind::Lt
            | Kind::Gt
            | Kind::Le
            | Kind::Ge
            | Kind::Oneof
            | Kind::Cross
            | Kind::EnableMask
            | Kind::Bitmask
            | Kind::EnableSet => Section::Constraints,
            Kind::Axis | Kind::Sum | Kind::Identity | Kind::Parity | Kind::Decompose => {
                Section::Projector
            }
            Kind::Unknown(_) => Section::Neither,
        }
    }
}

// What a record does with one of its numbers.
#[derive(Clone, Copy, PartialEq, Eq)]
pub enum Use {
    // It is 0.
    Unused,
    Number,
    // A number that is not negative: a mask, a step.
    Natural,
    // The number of the field that the record describes.
    Own,
    // The number of a field described before.
    Names,
}

// The list that a head takes or that a member stands in.
#[derive(Clone, Copy, PartialEq, Eq)]
pub enum List {
    Nothing,
    Values,
    Items,
    Entries,
    Disables,
    Assigns,
    Axes,
}

// A row of the table: the list, then the uses of a, b, p, q, r.
#[derive(Clone, Copy)]
pub struct Row {
    pub list: List,
    pub a: Use,
    pub b: Use,
    pub p: Use,
    pub q: Use,
    pub r: Use,
}

impl Row {
    fn new(list: List, a: Use, b: Use, p: Use, q: Use, r: Use) -> Row
        ensures { result ≡ record { list = list; a = a; b = b; p = p; q = q; r = r } }
    {
        Row {
            list,
            a,
            b,
            p,
            q,
            r,
        }
    }
}

// What a record of the kind, and of the form where it is a field, uses.
pub fn row_of(kind: Kind, form: usize) -> Row
    ensures { as_row result ≡ row_of (as_kind kind) form }
{
    use List::{Assigns, Axes, Disables, Entries, Items, Nothing, Values};
    use Use::{Names, Natural, Number, Own, Unused};
    match kind {
        Kind::Field => field_row(form),
        Kind::Value => Row::new(Values, Own, Unused, Number, Unused, Unused),
        Kind::Item => Row::new(Items, Unused, Unused, Number, Unused, Unused),
        Kind::Pair => Row::new(Entries, Unused, Unused, Number, Number, Unused),
        Kind::Key => Row::new(Entries, Unused, Unused, Number, Unused, Unused),
        Kind::Disable => Row::new(Disables, Names, Unused, Unused, Unused, Unused),
        Kind::Assign => Row::new(Assigns, Names, Unused, Number, Unused, Unused),
        Kind::Axis => Row::new(Axes, Number, Number, Number, Unused, Unused),
        Kind::Range => Row::new(Nothing, Names, Unused, Number, Number, Unused),
        Kind::Even => Row::new(Nothing, Names, Unused, Unused, Unused, Unused),
        Kind::Eq => Row::new(Nothing, Names, Names, Unused, Unused, Unused),
        Kind::Neq => Row::new(Nothing, Names, Names, Unused, Unused, Unused),
        Kind::Lt => Row::new(Nothing, Names, Unused, Number, Unused, Unused),
        Kind::Gt => Row::new(Nothing, Names, Unused, Number, Unused, Unused),
        Kind::Le => Row::new(Nothing, Names, Unused, Number, Unused, Unused),
        Kind::Ge => Row::new(Nothing, Names, Unused, Number, Unused, Unused),
        Kind::Oneof => Row::new(Items, Names, Unused, Unused, Unused, Unused),
        Kind::Cross => Row::new(Entries, Names, Names, Unused, Unused, Unused),
        Kind::EnableMask => Row::new(Disables, Names, Unused, Number, Unused, Unused),
        Kind::Bitmask => Row::new(Nothing, Names, Unused, Natural, Number, Unused),
        Kind::EnableSet => Row::new(Assigns, Names, Unused, Number, Unused, Unused),
        Kind::Sum => Row::new(Nothing, Unused, Unused, Unused, Unused, Unused),
        Kind::Identity => Row::new(Nothing, Names, Unused, Unused, Unused, Unused),
        Kind::Parity => Row::new(Nothing, Names, Unused, Unused, Unused, Unused),
        Kind::Decompose => Row::new(Axes, Names, Unused, Number, Number, Unused),
        Kind::Unknown(_) => Row::new(Nothing, Unused, Unused, Unused, Unused, Unused),
    }
}

// A field's row goes by its form, b. No enum of forms, here and where domains go by b: b is a number of every record, and `field_by` of the definitions goes by it too.
fn field_row(form: usize) -> Row
    ensures { as_row result ≡ field_row form }
{
    use List::{Nothing, Values};
    use Use::{Natural, Number, Own, Unused};
    match form {
        0 => Row::new(Nothing, Own, Number, Unused, Unused, Natural),
        1 => Row::new(Nothing, Own, Number, Number, Number, Natural),
        _ => Row::new(Values, Own, Number, Unused, Unused, Unused),
    }
}
