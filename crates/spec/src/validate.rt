// Refusals 1 to 10, or what the layers above need.
ghost use Rattle.std.specs.Prelude.{◌≡◌, MatchResult, OnOk};
ghost use Rattle.std.proofs.Math.Option.{none, some};
ghost use Rattle.lists.specs.Lists.{over};
ghost use Rattle.spec.specs.Record.{heads_of};
ghost use Rattle.spec.specs.Refusal.{answer, file_fault};
ghost use Rattle.spec.specs.Shape.{shape_of};
ghost use Rattle.spec.specs.Code.{as_answer, as_refused, as_shape, heads_noted};
ghost use Rattle.spec.specs.Props.{facts};

use crate::refusal::{Fault, Refusal};
use crate::scan::scan;
use crate::shape::{LIMIT, constraints_of, fields_of};

// Room for the places of the heads of every file that is not refused: 32 fields, 256 constraints, a projector, and the end of the file.
pub const HEADS: usize = 290;

// An accepted file: how many fields and constraints, the records before the first constraint and before the projector, the total.
#[derive(Clone, Copy)]
pub struct Shape {
    pub fields: usize,
    pub constraints: usize,
    pub constraints_at: usize,
    pub projector_at: usize,
    pub total: usize,
}

// Where the heads stand is noted in the array lent; of a refused file nothing is said of it.
fn validate_noting(file: &[u8], heads: &mut [usize; HEADS]) -> Result<Shape, Refusal>
    ensures answer { as_answer result ≡ answer (file_fault file.now) (shape_of file.now) }
    ensures noted { OnOk result (heads.new ≡ over (heads_of file.now) heads.old) }
{
    let len = file.len();
    if (len % 32 != 0) | (65536 < len) {
        return Err(Fault::WrongLength.at(0));
    }
    scan(file, heads)?;
    let fields = fields_of(file, heads);
    let total = fields.total();
    let is_too_large = LIMIT < total;
    if is_too_large {
        return Err(Fault::TooLarge.at(0));
    }
    let constraints = constraints_of(file, heads, fields);
    Ok(Shape {
        fields: fields.count,
        constraints: constraints.count,
        constraints_at: fields.end,
        projector_at: constraints.end,
        total,
    })
}

pub fn validate(file: &[u8]) -> Result<Shape, Refusal>
    ensures { as_answer result ≡ answer (file_fault file.now) (shape_of file.now) }
{
    let mut heads = [0usize; HEADS];
    validate_noting(file, &mut heads)
}

// A file that 1 to 10 do not refuse, with its shape.
#[derive(Clone, Copy)]
pub struct Accepted<'a> {
    pub file: &'a [u8],
    pub shape: Shape,
    pub ghost accepted: { file_fault file.now ≡ none } by { Prim.hlevel facts },
    pub ghost shape_is: { as_shape shape ≡ shape_of file.now } by { Prim.hlevel facts },
}

// The file with its shape, or which of 1 to 10 refuses it. Where its heads stand is noted in front of the array lent; of a refused file it is cleared.
pub fn accept_noting<'a>(
    file: &'a [u8],
    heads: &mut [usize; HEADS],
) -> Result<Accepted<'a>, Refusal>
    ensures answer { MatchResult result (λ a. a.file.now ≡ file.now) (λ r. file_fault file.now ≡ some (as_refused r)) }
    ensures heads { heads.new ≡ heads_noted file.now heads.old }
{
    match validate_noting(file, heads) {
        Ok(shape) => Ok(Accepted { file, shape }),
        Err(refusal) => {
            heads.fill(0);
            Err(refusal)
        }
    }
}

// The same for a caller that has no use for the heads.
pub fn accept(file: &[u8]) -> Result<Accepted, Refusal>
    ensures { MatchResult result (λ a. a.file.now ≡ file.now) (λ r. file_fault file.now ≡ some (as_refused r)) }
{
    let shape = validate(file)?;
    Ok(Accepted { file, shape })
}
