// The groups of a file by the records at which they start: its fields, its constraints, its projector.
ghost use Rattle.std.specs.Prelude.{◌≡◌, ◌+◌, ◌≤◌, suc, drop, get_or, take};
ghost use Rattle.compose.specs.Code.{HeadsIn, Opened};
ghost use Rattle.compose.specs.Props.{facts};

// Constraints of a file: where their heads stand, and behind these the end of the last. They name fields below the number given.
#[derive(Clone, Copy)]
pub struct Rules<'a> {
    pub file: &'a [u8],
    pub heads: &'a [usize],
    pub fields: usize,
    pub ghost inside: { HeadsIn file.now heads.now fields },
}

impl<'a> Rules<'a> {
    ghost use Rattle.std.specs.Prelude.{◌-◌, length};

    // How many constraints there are. Number k has its head at `heads[k]`, and ends at `heads[k + 1]`.
    pub fn count(self) -> usize
        ensures { result ≡ length self.entry.heads.now - 1 }
    {
        self.heads.len().saturating_sub(1)
    }
}

// An accepted file and where the heads of its groups stand: its fields, its constraints, its projector, and its end behind them.
#[derive(Clone, Copy)]
pub struct Groups<'a> {
    pub file: &'a [u8],
    pub heads: &'a [usize],
    pub fields: usize,
    pub constraints: usize,
    pub ghost opened: { Opened file.now heads.now fields constraints } by { Prim.hlevel facts },
}

impl<'a> Groups<'a> {
    // Where the fields stand, and behind them the end of the last.
    pub fn field_heads(self) -> &'a [usize]
        ensures { result.now ≡ take (suc self.entry.fields) self.entry.heads.now }
    {
        let k = self.fields + 1;
        &self.heads[..k]
    }

    // So many of the constraints, from the first on.
    // That there are as many is the bound of the call's own index.
    pub(crate) fn first_rules(self, count: usize) -> Rules<'a>
        requires { count ≤ self.constraints }
        ensures file { (result.file.now ≡ self.entry.file.now) × (result.fields ≡ self.entry.fields) }
        ensures heads { result.heads.now ≡ take (suc count) (drop self.entry.fields self.entry.heads.now) }
    {
        let k = self.fields + 1;
        let end = k + count;
        Rules {
            file: self.file,
            heads: &self.heads[self.fields..end],
            fields: self.fields,
        }
    }

    // The constraints.
    pub fn rules(self) -> Rules<'a>
        ensures file { (result.file.now ≡ self.entry.file.now) × (result.fields ≡ self.entry.fields) }
        ensures heads { result.heads.now ≡ take (suc self.entry.constraints) (drop self.entry.fields self.entry.heads.now) }
    {
        self.first_rules(self.constraints)
    }

    // The record at which the projector stands, where there is a field.
    pub fn projector(self) -> usize
        ensures { result ≡ get_or self.entry.heads.now (self.entry.fields + self.entry.constraints) 0 }
    {
        self.heads[self.fields + self.constraints]
    }
}
