// The place of a row and its projection.
ghost use Rattle.std.specs.Prelude.{◌≡◌, suc, ◌/◌, ◌≤◌, length};
ghost use Rattle.lists.specs.Lists.{all, first_false};
ghost use Rattle.registry.specs.Index.{IndexIn};
ghost use Rattle.registry.specs.Code.{as_projection, group_in, ProjectorIn, project_of, RowIn};
ghost use Rattle.compose.specs.Code.{FieldIn, fields_in, FieldsIn};
ghost use Rattle.evaluate.specs.Verdict.{field_checks, if_passed};
ghost use Rattle.evaluate.specs.Code.{allowed_at, behind, ChecksIn, first_chosen, from_one, holds_at};

use registry::check::Head;
use registry::project::project;
use spec::domains::{allows_value, part};
use spec::numbers::Value;
use spec::records::record_at;

// No `Rules` in it: `Rules` asks of every head that it lies in the file, and here only the heads chosen have to.
// Constraints that rows are asked about: the heads of all of a file's, the numbers of those chosen among them, the index of the long lists of members, and how many values a row has.
#[derive(Clone, Copy)]
pub struct Checks<'a> {
    pub file: &'a [u8],
    pub heads: &'a [usize],
    pub chosen: &'a [u8],
    pub index: &'a [usize],
    pub fields: usize,
    pub ghost inside: { ChecksIn file.now heads.now chosen.now fields },
    pub ghost short: { length file.now ≤ 65536 },
    pub ghost indexed: { IndexIn file.now index.now },
}

impl<'a> Checks<'a> {
    // Others of the same constraints.
    pub fn choosing(self, chosen: &'a [u8]) -> Checks<'a>
        requires { ChecksIn self.file.now self.heads.now chosen.now self.fields }
        ensures chosen { result.chosen.now ≡ chosen.now }
        ensures same { (result.file.now ≡ self.entry.file.now) × (result.heads.now ≡ self.entry.heads.now) × (result.fields ≡ self.entry.fields) }
    {
        Checks {
            file: self.file,
            heads: self.heads,
            chosen,
            index: self.index,
            fields: self.fields,
        }
    }

    // That a row has a value for each field, here and below, is the length of the slice that the call lends.
    // The number of the first that does not hold, counted from 0.
    fn first_failing(&self, row: &[i64]) -> Option<usize>
        requires { length row.now ≡ self.now.fields }
        ensures first { from_one result ≡ first_chosen (holds_at self.now.file.now self.now.heads.now row.now) self.now.chosen.now }
        ensures few { from_one result ≤ 256 }
    {
        for number in self.chosen {
            let k = usize::from(*number);
            let head = Head {
                file: self.file,
                at: self.heads[k],
                end: self.heads[k + 1],
                index: self.index,
            };
            if !head.check(row) {
                return Some(k);
            }
        }
        None
    }

    // All of them hold.
    pub fn hold(&self, row: &[i64]) -> bool
        requires { length row.now ≡ self.now.fields }
        ensures { result ≡ all (holds_at self.now.file.now self.now.heads.now row.now) self.now.chosen.now }
    {
        // A row that is asked about none is no call: with one, a count of rows that nothing forbids took twice as long.
        self.chosen.is_empty() || self.first_failing(row).is_none()
    }

    // The place of a row whose field checks pass: it is asked about these constraints. 0 is document 01's place of a row that passed.
    pub fn place(&self, row: &[i64]) -> usize
        requires { (length row.now ≡ self.now.fields) × (length row.now ≤ 32) }
        ensures { result ≡ behind (length row.now) (first_chosen (holds_at self.now.file.now self.now.heads.now row.now) self.now.chosen.now) }
    {
        match self.first_failing(row) {
            Some(k) => row.len() + k + 1,
            None => 0,
        }
    }
}

// The field at a head allows the value.
fn is_allowed(file: &[u8], head: usize, end: usize, value: i64) -> bool
    requires { FieldIn file.now head end }
    ensures { result ≡ allowed_at file.now head end value }
{
    let values = part(file, head + 1, end);
    allows_value(record_at(file, head), values, Value(value))
}

// The first field whose check fails, counted from 0. Those of the raw row pass, so only values that are not its are looked at.
pub fn failing_field(file: &[u8], fields: &[usize], raw: &[i64], row: &[i64]) -> Option<usize>
    requires { FieldsIn file.now fields.now × (length fields.now ≡ suc (length row.now)) × (length raw.now ≡ length row.now) × (first_false (field_checks (fields_in file.now fields.now) raw.now) ≡ 0) }
    ensures first { from_one result ≡ first_false (field_checks (fields_in file.now fields.now) row.now) }
    ensures few { from_one result ≤ length row.now }
{
    for (f, value) in row.iter().enumerate() {
        if *value != raw[f] && !is_allowed(file, fields[f], fields[f + 1], *value) {
            return Some(f);
        }
    }
    None
}

// The projection of a row that passed.
pub fn projection(file: &[u8], projector: usize, row: &[i64], place: usize) -> Option<i64>
    requires { RowIn row.now × ProjectorIn file.now projector (length row.now) }
    ensures { as_projection result ≡ if_passed place (project_of (group_in file.now projector (length file.now / 32)) row.now) }
{
    if place == 0 {
        return project(file, projector, row);
    }
    None
}
