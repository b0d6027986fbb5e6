// Records, read where they lie in the caller's bytes.
#![tactic(auto, using(crate::proofs::Fields::parts))]

ghost use Rattle.std.specs.Prelude.{◌≡◌, ◌/◌, ◌<◌, eqb, length};
ghost use Rattle.spec.specs.Record.{record_at};
ghost use Rattle.spec.specs.Code.{as_kind, as_record, kind_number, lead_of, InBytes};

use crate::kinds::Kind;
use crate::numbers::{natural_at, number_at};

// A record: its kind, a, b, the five bytes that no kind uses as one number, p, q, r.
#[derive(Clone, Copy)]
pub struct Record {
    pub kind: Kind,
    pub a: usize,
    pub b: usize,
    pub padding: u64,
    pub p: i64,
    pub q: i64,
    pub r: i64,
}

// The parts of record i, counting from 0. Each asks for a record that there is: the bound of the call's own index.
// The number of its kind as the file has it, and the kind.
pub fn code_at(file: &[u8], i: usize) -> u8
    requires { i < length file.now / 32 }
    ensures { result ≡ (record_at file.now i).code }
{
    file[i * 32]
}

pub fn kind_at(file: &[u8], i: usize) -> Kind
    requires { i < length file.now / 32 }
    ensures kind { as_kind result ≡ (record_at file.now i).kind }
    ensures number { kind_number result ≡ (record_at file.now i).code }
{
    Kind::from(code_at(file, i))
}

// Record i is a pair: by its number, since a long run is gone through by this, and the match over all kinds takes longer.
pub fn is_pair(file: &[u8], i: usize) -> bool
    requires { i < length file.now / 32 }
    ensures { result ≡ eqb (record_at file.now i).code 4 }
{
    code_at(file, i) == 4
}

pub fn a_at(file: &[u8], i: usize) -> usize
    requires { i < length file.now / 32 }
    ensures { (result ≡ (record_at file.now i).a) × (result < 256) }
{
    usize::from(file[i * 32 + 1])
}

pub fn b_at(file: &[u8], i: usize) -> usize
    requires { i < length file.now / 32 }
    ensures { (result ≡ (record_at file.now i).b) × (result < 256) }
{
    usize::from(file[i * 32 + 2])
}

// p, q and r by their names: one function for a place of eight bytes is `number_at`, and `number_at(file, i * 32 + 8)` reads worse than `p_at(file, i)`.
pub fn p_at(file: &[u8], i: usize) -> i64
    requires { i < length file.now / 32 }
    ensures { result ≡ (record_at file.now i).p }
{
    number_at(file, i * 32 + 8)
}

pub fn q_at(file: &[u8], i: usize) -> i64
    requires { i < length file.now / 32 }
    ensures { result ≡ (record_at file.now i).q }
{
    number_at(file, i * 32 + 16)
}

pub(crate) fn r_at(file: &[u8], i: usize) -> i64
    requires { i < length file.now / 32 }
    ensures { result ≡ (record_at file.now i).r }
{
    number_at(file, i * 32 + 24)
}

// The first eight bytes of record i, as one number.
pub(crate) fn lead_at(file: &[u8], i: usize) -> u64
    requires { i < length file.now / 32 }
    ensures sum { result ≡ lead_of (record_at file.now i) }
    ensures bytes { InBytes (record_at file.now i) }
{
    natural_at(file, i * 32)
}

// The last five of them.
fn padding_at(file: &[u8], i: usize) -> u64
    requires { i < length file.now / 32 }
    ensures { result ≡ (record_at file.now i).padding }
{
    lead_at(file, i) >> 24
}

// Record i, counting from 0.
pub fn record_at(file: &[u8], i: usize) -> Record
    requires { i < length file.now / 32 }
    ensures read { as_record result ≡ record_at file.now i }
    ensures bytes { (result.a < 256) × (result.b < 256) }
{
    Record {
        kind: kind_at(file, i),
        a: a_at(file, i),
        b: b_at(file, i),
        padding: padding_at(file, i),
        p: p_at(file, i),
        q: q_at(file, i),
        r: r_at(file, i),
    }
}
