// Numbers: a list's index and a field's value, powers of two, and the bytes of a file read as numbers.
ghost use Rattle.std.specs.Prelude.{◌≡◌, ◌+◌, ◌-◌, ◌≤◌, ◌<◌, ◌^◌, length, take, drop};
ghost use Rattle.lists.specs.Integers.{little_endian};
ghost use Rattle.spec.specs.Record.{word_at};

// An index into a list.
#[derive(Clone, Copy, PartialEq, Eq, PartialOrd, Ord)]
pub struct Index(pub usize);

// The value of a field.
#[derive(Clone, Copy, PartialEq, Eq, PartialOrd, Ord)]
pub struct Value(pub i64);

// The powers of two that widths and shifts take: a table, which is the form that document 01 asks for.
const POWERS: [u64; 64] = [
    1,
    2,
    4,
    8,
    16,
    32,
    64,
    128,
    256,
    512,
    1024,
    2048,
    4096,
    8192,
    16384,
    32768,
    65536,
    131072,
    262144,
    524288,
    1048576,
    2097152,
    4194304,
    8388608,
    16777216,
    33554432,
    67108864,
    134217728,
    268435456,
    536870912,
    1073741824,
    2147483648,
    4294967296,
    8589934592,
    17179869184,
    34359738368,
    68719476736,
    137438953472,
    274877906944,
    549755813888,
    1099511627776,
    2199023255552,
    4398046511104,
    8796093022208,
    17592186044416,
    35184372088832,
    70368744177664,
    140737488355328,
    281474976710656,
    562949953421312,
    1125899906842624,
    2251799813685248,
    4503599627370496,
    9007199254740992,
    18014398509481984,
    36028797018963968,
    72057594037927936,
    144115188075855872,
    288230376151711744,
    576460752303423488,
    1152921504606846976,
    2305843009213693952,
    4611686018427387904,
    9223372036854775808,
];

// The same, lying at one place: a constant array is copied at each use of its name.
static TABLE: [u64; 64] = POWERS;

// 2^k. That k is below 64 is the bound of the call's own index, here and where the table is asked.
pub fn power(k: usize) -> u64
    requires { k < 64 }
    ensures { result ≡ 2 ^ k }
{
    TABLE[k]
}

// The little-endian number at byte `at`.
pub(crate) fn natural_at(s: &[u8], at: usize) -> u64
    requires { at + 8 ≤ length s.now }
    ensures { result ≡ little_endian (take 8 (drop at s.now)) }
{
    // Cut to eight bytes first: of a longer part the compiled code would test the length again for each number.
    u64::from_le_bytes(*s[at..at + 8].first_chunk().unwrap())
}

// The signed one.
pub(crate) fn number_at(s: &[u8], at: usize) -> i64
    requires { at + 8 ≤ length s.now }
    ensures { result ≡ word_at s.now at }
{
    natural_at(s, at).cast_signed()
}
