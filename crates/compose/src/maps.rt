// The kept map of each field.
ghost use Rattle.std.specs.Prelude.{◌≡◌, map, ◌≤◌, None, replicate};
ghost use Rattle.lists.specs.Lists.{upto};
ghost use Rattle.compose.specs.Maps.{kept_map};
ghost use Rattle.compose.specs.Code.{constraints_in, map_in, MapsIn};

use crate::groups::Rules;
use crate::places::KeptMap;
use spec::kinds::Kind;
use spec::records::{a_at, b_at, kind_at};

// Writes the last cross onto each field, in maps that has none.
pub(crate) fn kept_maps(rules: Rules, maps: &mut [Option<KeptMap>; 32])
    requires { (rules.fields ≤ 32) × (maps.old ≡ replicate 32 None) }
    ensures maps { map (map_in rules.entry.file.now maps.new) (upto 32) ≡ map (kept_map (constraints_in rules.entry.file.now rules.entry.heads.now)) (upto 32) }
    ensures inside { MapsIn rules.entry.file.now maps.new rules.entry.fields }
{
    let file = rules.file;
    for k in 0..rules.count() {
        let head = rules.heads[k];
        if kind_at(file, head) == Kind::Cross {
            let f = b_at(file, head);
            maps[f] = Some(KeptMap {
                parent: a_at(file, head),
                from: head + 1,
                to: rules.heads[k + 1],
            });
        }
    }
}
