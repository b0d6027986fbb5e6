// Two files as one: first's fields, second's renumbered, constraints likewise, one sum.
ghost use Rattle.std.specs.Prelude.{◌≡◌, ◌+◌, ◌-◌, ◌*◌, ◌/◌, ◌≤◌, ◌<◌, length, MatchResult};
ghost use Rattle.std.proofs.Math.Option.{some};
ghost use Rattle.spec.specs.Code.{as_refused, number_of};
ghost use Rattle.spec.specs.Refusal.{file_fault};
ghost use Rattle.join.specs.Join.{join_answer, join_bytes, join_output, move_bytes, not_sum, of, sum_bytes};
ghost use Rattle.join.specs.Code.{add_use, as_joined, as_join_fault, as_join_refused, as_which, bytes_at, joined_number, moved_range, MovesIn, RangeIn, total_by};

use spec::kinds::{Kind, Use, row_of};
use spec::records::kind_at;
use spec::refusal::{Fault, Refusal};
use spec::validate::{Accepted, accept};
use std::fmt;

// The file that a refusal is about; the joined file is both.
#[derive(Clone, Copy, PartialEq, Eq)]
pub enum Which {
    First,
    Second,
    Both,
}

impl fmt::Display for Which {
    fn fmt<W: fmt::Write>(&self, f: &mut fmt::Formatter<W>) -> fmt::Result {
        f.write_str(match self {
            Which::First => "first",
            Which::Second => "second",
            Which::Both => "joined",
        })
    }
}

// Why two files are not joined.
#[derive(Clone, Copy)]
pub struct JoinRefusal {
    pub which: Which,
    pub why: Refusal,
}

impl Which {
    fn refused(self, why: Refusal) -> JoinRefusal
        ensures { as_join_refused result ≡ record { which = as_which self; why = as_refused why } }
    {
        JoinRefusal { which: self, why }
    }

    // The file, or which of 1 to 10 refuses it.
    fn accept(self, file: &[u8]) -> Result<Accepted, JoinRefusal>
        ensures { MatchResult result (λ a. a.file.now ≡ file.now) (λ r. of (as_which self) (file_fault file.now) ≡ some (as_join_refused r)) }
    {
        accept(file).map_err(|why| self.refused(why))
    }

    // 16: the projector of the file is not a sum.
    fn check_sum(self, accepted: Accepted) -> Result<(), JoinRefusal>
        ensures { as_join_fault result ≡ of (as_which self) (not_sum accepted.entry.file.now) }
    {
        let at = accepted.shape.projector_at;
        match kind_at(accepted.file, at) {
            Kind::Sum => Ok(()),
            _ => Err(self.refused(Fault::NotASum.at(at + 1))),
        }
    }
}

// A number of a record: moved up where it is the number of a field.
fn moved(used: Use, x: u8, by: u8) -> u8
    requires { add_use used by x < 256 }
    ensures { result ≡ add_use used by x }
{
    match used {
        Use::Own | Use::Names => by + x,
        Use::Unused | Use::Number | Use::Natural => x,
    }
}

// Writes record i, its fields moved up.
fn put_record(file: &[u8], i: usize, by: u8, out: &mut [u8])
    requires { (i < length file.now / 32) × (length out.old ≡ 32) × MovesIn by (bytes_at file.now i) }
    ensures { out.new ≡ move_bytes by (bytes_at file.now i) }
{
    let from = i * 32;
    let record = &file[from..from + 32];
    let a = record[1];
    let b = record[2];
    let row = row_of(Kind::from(record[0]), usize::from(b));
    out.copy_from_slice(record);
    out[1] = moved(row.a, a, by);
    out[2] = moved(row.b, b, by);
}

// Writes the records from..to, their fields moved up.
fn put_records(file: &[u8], from: usize, to: usize, by: u8, out: &mut [u8])
    requires { RangeIn file.now from to by × (length out.old ≡ (to - from) * 32) }
    ensures { out.new ≡ moved_range by file.now from to }
{
    for i in from..to {
        let at = (i - from) * 32;
        put_record(file, i, by, &mut out[at..at + 32]);
    }
}

// Writes the record of a sum: 30 is its kind's number in a file, and all else is 0.
#[tactic(auto, unfolding(crate::specs::Join::sum_bytes))]
fn put_sum(out: &mut [u8])
    requires { length out.old ≡ 32 }
    ensures { out.new ≡ sum_bytes }
{
    out.fill(0);
    out[0] = 30;
}

// Writes the joined file, which fills the output.
fn write_joined(first: Accepted, second: Accepted, out: &mut [u8])
    requires { (first.shape.fields + second.shape.fields ≤ 32) × (length out.old ≡ length (join_bytes first.file.now second.file.now)) }
    ensures { out.new ≡ join_bytes first.entry.file.now second.entry.file.now }
{
    let (f, s) = (first.file, first.shape);
    let (g, t) = (second.file, second.shape);
    let by = s.fields as u8;
    let (fields, rest) = out.split_at_mut(s.constraints_at * 32);
    let (more_fields, rest) = rest.split_at_mut(t.constraints_at * 32);
    let (rules, rest) = rest.split_at_mut((s.projector_at - s.constraints_at) * 32);
    let (more_rules, sum) = rest.split_at_mut((t.projector_at - t.constraints_at) * 32);
    put_records(f, 0, s.constraints_at, 0, fields);
    put_records(g, 0, t.constraints_at, by, more_fields);
    put_records(f, s.constraints_at, s.projector_at, 0, rules);
    put_records(g, t.constraints_at, t.projector_at, by, more_rules);
    put_sum(sum);
}

// The total of the joined file: a file without fields leaves the other's.
fn joined_total(first: Accepted, second: Accepted) -> usize
    ensures { result ≡ total_by first.entry.shape.fields second.entry.shape.fields first.entry.shape.total second.entry.shape.total }
{
    let s = first.shape;
    let t = second.shape;
    if s.fields == 0 {
        return t.total;
    }
    if t.fields == 0 {
        return s.total;
    }
    s.total * t.total
}

// 5, 1, 10 and 14; the joined file has len bytes.
fn check_joined(first: Accepted, second: Accepted, len: usize, room: usize) -> Result<(), Fault>
    ensures { number_of result ≡ joined_number (first.entry.shape.fields + second.entry.shape.fields) (first.entry.shape.constraints + second.entry.shape.constraints) len (total_by first.entry.shape.fields second.entry.shape.fields first.entry.shape.total second.entry.shape.total) room }
{
    let fields = first.shape.fields + second.shape.fields;
    let constraints = first.shape.constraints + second.shape.constraints;
    if (32 < fields) | (256 < constraints) {
        return Err(Fault::TooMany);
    }
    if 65536 < len {
        return Err(Fault::WrongLength);
    }
    if 1_000_000_000 < joined_total(first, second) {
        return Err(Fault::TooLarge);
    }
    if room < len {
        return Err(Fault::OutputShort);
    }
    Ok(())
}

// Joins two accepted files.
fn join_accepted(first: Accepted, second: Accepted, out: &mut [u8]) -> Result<usize, JoinRefusal>
    ensures answer { as_joined result ≡ join_answer (length out.old) first.entry.file.now second.entry.file.now }
    ensures out { out.new ≡ join_output first.entry.file.now second.entry.file.now out.old }
{
    Which::First.check_sum(first)?;
    Which::Second.check_sum(second)?;
    let len = (first.shape.projector_at + second.shape.projector_at + 1) * 32;
    check_joined(first, second, len, out.len()).map_err(|fault| Which::Both.refused(fault.at(0)))?;
    write_joined(first, second, &mut out[..len]);
    Ok(len)
}

// The joined file, at the start of the output, and its length; or the refusal.
pub fn join(first: &[u8], second: &[u8], out: &mut [u8]) -> Result<usize, JoinRefusal>
    ensures answer { as_joined result ≡ join_answer (length out.old) first.now second.now }
    ensures out { out.new ≡ join_output first.now second.now out.old }
{
    let s = Which::First.accept(first)?;
    let t = Which::Second.accept(second)?;
    join_accepted(s, t, out)
}
