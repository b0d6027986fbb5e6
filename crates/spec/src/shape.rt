// What the layers above need of a file that has no fault.
ghost use Rattle.std.specs.Prelude.{◌≡◌, cond, ◌*◌, ◌≤◌, eqb, length, drop};
ghost use Rattle.std.proofs.Math.Option.{none};
ghost use Rattle.lists.specs.Lists.{product};
ghost use Rattle.spec.specs.Record.{records_of, decoded, heads_from, heads_of};
ghost use Rattle.spec.specs.Refusal.{records_fault};
ghost use Rattle.spec.specs.Shape.{stands_at};
ghost use Rattle.spec.specs.Code.{AllNoted, capped, lengths};

use crate::domains::domain_len;
use crate::kinds::Section;
use crate::records::record_at;
use crate::validate::HEADS;
use crate::walker::Walker;

// A total may be this, and no more.
pub const LIMIT: usize = 1_000_000_000;

// The fields of a file that has no fault: how many, the records up to the last of their values, and the product of their domain lengths, which stops growing above the limit.
#[derive(Clone, Copy)]
pub struct Fields {
    pub count: usize,
    pub end: usize,
    pub product: usize,
}

// The constraints likewise.
#[derive(Clone, Copy)]
pub struct Constraints {
    pub count: usize,
    pub end: usize,
}

// a × b, which stops growing above the limit.
fn times(a: usize, b: usize) -> usize
    ensures { result ≡ capped (a * b) }
{
    a.saturating_mul(b).min(LIMIT + 1)
}

// Goes from field to field, by the places of the heads.
pub(crate) fn fields_of(file: &[u8], heads: &[usize; HEADS]) -> Fields
    requires { (length file.now ≤ 65536) × (records_fault (records_of file.now) ≡ none) × AllNoted file.now heads.now }
    ensures count { result.count ≡ length (decoded file.now).fields }
    ensures end { result.end ≡ stands_at 1 (records_of file.now) }
    ensures product { result.product ≡ capped (product (lengths (decoded file.now).fields)) }
    ensures heads { drop result.count (heads_of file.now) ≡ heads_from result.end (drop result.end (records_of file.now)) }
{
    let mut count = 0;
    let mut product = 1;
    let mut i = 0;
    // No `for`: from head to head, as far as the walker sees fields.
    while (Walker { file, next: i }).section() == Section::Fields {
        count += 1;
        let next = heads[count];
        product = times(product, domain_len(record_at(file, i), next - i - 1));
        i = next;
    }
    Fields {
        count,
        end: i,
        product,
    }
}

// Goes from constraint to constraint, from the first on. One function for both would be handed the section and what is multiplied, and be no plainer.
pub(crate) fn constraints_of(file: &[u8], heads: &[usize; HEADS], fields: Fields) -> Constraints
    requires { (length file.now ≤ 65536) × (records_fault (records_of file.now) ≡ none) × AllNoted file.now heads.now × (fields.end ≡ stands_at 1 (records_of file.now)) × (drop fields.count (heads_of file.now) ≡ heads_from fields.end (drop fields.end (records_of file.now))) }
    ensures count { result.count ≡ length (decoded file.now).constraints }
    ensures end { result.end ≡ stands_at 2 (records_of file.now) }
{
    let mut count = 0;
    let mut i = fields.end;
    // No `for`, as above.
    while (Walker { file, next: i }).section() == Section::Constraints {
        count += 1;
        i = heads[fields.count + count];
    }
    Constraints { count, end: i }
}

impl Fields {
    // The total, which stops growing above the limit; 0 with no fields.
    pub(crate) fn total(self) -> usize
        ensures { result ≡ cond (eqb self.count 0) 0 self.product }
    {
        if self.count == 0 { 0 } else { self.product }
    }
}
