// Forcing: when field a holds p, disable writes 0 and assign writes its value.
ghost use Rattle.std.specs.Prelude.{◌≡◌, ◌≤◌, ◌<◌, drop, length, take};
ghost use mathlib.Core.List.{foldl, map};
ghost use Rattle.lists.proofs.All.{All};
ghost use Rattle.spec.specs.Code.{as_kind};
ghost use Rattle.spec.specs.Record.{assignment_of, constraint_of, records_of};
ghost use Rattle.registry.specs.Code.{group_in};
ghost use Rattle.compose.specs.Force.{force_by, write};
ghost use Rattle.compose.specs.Code.{as_engine, chosen_in, constraints_in, enables_of, EnableIn, EnablesIn, is_enabling, is_forced, is_mask, is_set, ChosenFrom};

use crate::groups::Rules;
use crate::numbers::choose;
use spec::domains::part;
use spec::kinds::Kind;
use spec::records::{a_at, kind_at, p_at};

#[derive(Clone, Copy, PartialEq, Eq)]
pub enum Engine {
    Structural,
    Exhaustive,
}

// Writes the members of an enable record; a disable has p = 0.
fn write_members(run: &[u8], row: &mut [i64])
    requires { All (λ m. m.a < length row.old) (records_of run.now) }
    ensures { row.new ≡ foldl write row.old (map assignment_of (records_of run.now)) }
{
    for i in 0..run.len() / 32 {
        let f = a_at(run, i);
        row[f] = p_at(run, i);
    }
}

// The enable record at record head looks at its trigger once; whether it wrote.
fn force_by(file: &[u8], head: usize, end: usize, row: &mut [i64]) -> bool
    requires { EnableIn file.now head end (length row.old) }
    ensures wrote { result ≡ is_forced (constraint_of (group_in file.now head end)) row.old }
    ensures row { row.new ≡ foldl force_by row.old (constraint_of (group_in file.now head end)) }
{
    let a = a_at(file, head);
    if row[a] != p_at(file, head) {
        return false;
    }
    write_members(part(file, head + 1, end), row);
    true
}

// Forces a row by the enable records chosen, in their order; whether any wrote.
pub fn force(file: &[u8], heads: &[usize], chosen: &[u8], row: &mut [i64]) -> bool
    requires { EnablesIn file.now heads.now chosen.now (length row.old) }
    ensures wrote { result ≡ is_forced (chosen_in file.now heads.now chosen.now) row.old }
    ensures row { row.new ≡ foldl force_by row.old (chosen_in file.now heads.now chosen.now) }
{
    let mut wrote = false;
    for number in chosen {
        let k = usize::from(*number);
        // A branch, since most records do not write: `|=` took a quarter longer over 100 of them.
        if force_by(file, heads[k], heads[k + 1], row) {
            wrote = true;
        }
    }
    wrote
}

fn is_mask(kind: Kind) -> bool
    ensures { result ≡ is_mask (as_kind kind) }
{
    matches!(kind, Kind::EnableMask)
}

fn is_set(kind: Kind) -> bool
    ensures { result ≡ is_set (as_kind kind) }
{
    matches!(kind, Kind::EnableSet)
}

// Of an enable record.
pub fn is_enabling(kind: Kind) -> bool
    ensures { result ≡ is_enabling (as_kind kind) }
{
    matches!(kind, Kind::EnableMask | Kind::EnableSet)
}

// At most 257 heads and room for 256 numbers, also in evaluate: numbers are u8; in `Rules` it would be asked of those that number nothing, and an array as the type would ask more than a slice that is as long.
// Writes the numbers of the enable records in the order in which they force: structural in file order, exhaustive all enable_mask first, then all enable_set. How many there are.
pub fn enables_of(engine: Engine, rules: Rules, numbers: &mut [u8]) -> usize
    requires { (length rules.heads.now ≤ 257) × (length numbers.old ≡ 256) }
    ensures chosen { chosen_in rules.entry.file.now rules.entry.heads.now (take result numbers.new) ≡ enables_of (as_engine engine) (constraints_in rules.entry.file.now rules.entry.heads.now) }
    ensures kinds { (result ≤ 256) × ChosenFrom rules.entry.file.now rules.entry.heads.now 0 is_enabling (take result numbers.new) }
    ensures rest { drop result numbers.new ≡ drop result numbers.old }
{
    let many = rules.count();
    match engine {
        Engine::Structural => choose(
            many,
            |k| is_enabling(kind_at(rules.file, rules.heads[k])),
            0,
            numbers,
        ),
        Engine::Exhaustive => {
            let masks = choose(
                many,
                |k| is_mask(kind_at(rules.file, rules.heads[k])),
                0,
                numbers,
            );
            choose(
                many,
                |k| is_set(kind_at(rules.file, rules.heads[k])),
                masks,
                numbers,
            )
        }
    }
}
