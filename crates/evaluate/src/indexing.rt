// The index of a file's long lists of members, for the checks of rows.
ghost use Rattle.std.specs.Prelude.{◌≡◌, suc, get_or, ◌+◌, ◌-◌, ◌/◌, ◌≤◌, ◌<◌, ltb, length, replicate};
ghost use Rattle.lists.specs.Lists.{any, upto};
ghost use Rattle.spec.specs.Code.{as_kind};
ghost use Rattle.registry.specs.Index.{IndexIn};
ghost use Rattle.evaluate.specs.Code.{is_listed, is_long_at, is_long_run, Unindexed};

use compose::groups::Rules;
use registry::check::MARK;
use registry::sorting::index_run;
use spec::domains::part;
use spec::kinds::Kind;
use spec::records::kind_at;

// Room for the index of every file.
pub const RECORDS: usize = 2048;

// As many members as this are read through, where rows are asked about them; more are worth an index.
pub const LONG: usize = 16;

// Fewer rows than these do not pay for an index.
const ROWS: usize = 20;

// A kind whose members a value is looked for in.
fn is_listed(kind: Kind) -> bool
    ensures { result ≡ is_listed (as_kind kind) }
{
    matches!(kind, Kind::Oneof | Kind::Cross)
}

// Constraint k is of such a kind, and has more members than the number given.
fn is_long(rules: Rules, k: usize, least: usize) -> bool
    requires { suc k < length rules.heads.now }
    ensures { result ≡ is_long_run least rules.entry.file.now (get_or rules.entry.heads.now k 0) (get_or rules.entry.heads.now (suc k) 0) }
{
    let head = rules.heads[k];
    let members = rules.heads[k + 1] - head - 1;
    is_listed(kind_at(rules.file, head)) & (least < members)
}

// One of the constraints whose members a value is looked for in has more than 16 members.
pub fn has_long(rules: Rules) -> bool
    ensures { result ≡ any (is_long_at rules.entry.file.now rules.entry.heads.now) (upto (length rules.entry.heads.now - 1)) }
{
    (0..rules.count()).any(|k| is_long(rules, k, LONG))
}

// So many rows are worth an index.
pub fn index_pays(rows: usize) -> bool
    ensures { result ≡ ltb 20 rows }
{
    ROWS < rows
}

// Indexes the members of the head at a record.
fn index_at(file: &[u8], head: usize, end: usize, index: &mut [usize], spare: &mut [usize])
    requires { (head < end) × (end ≤ length file.now / 32) × (length file.now / 32 ≤ length index.old) × (length index.old ≤ 2048) × (length spare.old ≡ length index.old) × IndexIn file.now index.old × Unindexed index.old head }
    ensures index { IndexIn file.now index.new }
    ensures rest { Unindexed index.new end }
{
    let from = head + 1;
    index_run(
        part(file, from, end),
        &mut index[from..end],
        &mut spare[from..end],
    );
    index[head] = MARK + end;
}

// Indexes the heads that have more members than the number given, in an index of zeros.
pub fn index_heads(rules: Rules, least: usize, index: &mut [usize], spare: &mut [usize])
    requires { (length rules.file.now / 32 ≤ length index.old) × (length index.old ≤ 2048) × (length spare.old ≡ length index.old) × (index.old ≡ replicate (length index.old) 0) }
    ensures { IndexIn rules.entry.file.now index.new }
{
    for k in 0..rules.count() {
        if is_long(rules, k, least) {
            index_at(rules.file, rules.heads[k], rules.heads[k + 1], index, spare);
        }
    }
}
