// The labels of all entries of a kind in one pass: whether they are free or well formed, whether names are unique, and which
// entries are live.
ghost use Rattle.std.specs.Prelude.{◌≡◌, ◌≤◌};
ghost use Rattle.words.specs.Layout.{count_of};
ghost use Rattle.words.specs.Sets.{bits};
ghost use Rattle.tables.specs.Quick.Labels.{tested_labels};

use super::live::Live;
use super::names::{CHAINS, chain, same_name};
use words::fields::{is_label, schema_in};
use words::layout::{Kind, WORDS, count, place};

// The live entries, if all labels are sound. An entry is compared with those of its chain, from the last one on, each met by the
// link of the one after it. There are links for 64 entries. A link is an entry's number and 1, and 0 ends the chain.
// Tried as an Option<u8>: subtype test in RO 0.58 to 0.66 of C.
pub fn test_labels(t: &[u64; WORDS], kind: Kind) -> Option<Live>
    requires { count_of kind ≤ bits }
    ensures { result ≡ tested_labels t.now kind }
{
    let mut last = [0u8; CHAINS];
    let mut before = [0u8; 64];
    let mut live = Live::nobody();
    for i in 0..count(kind) {
        let label = t[place(kind, i)];
        if label != 0 {
            if !is_label(label) {
                return None;
            }
            let b = chain(label);
            let link = last[b];
            let mut met = link;
            while met != 0 {
                if same_name(label, t[place(kind, (met - 1) as u32)]) {
                    return None;
                }
                met = before[(met - 1) as usize];
            }
            before[i as usize] = link;
            last[b] = (i + 1) as u8;
            live = live.joined(schema_in(label), i);
        }
    }
    Some(live)
}
