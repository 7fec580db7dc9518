// Whether a record is live: its used word is not 0.
ghost use Rattle.std.specs.Prelude.{◌≡◌};
ghost use Rattle.tables.specs.HandBack.{is_live, is_free};
ghost use Rattle.records.specs.InWords.{HasRoom};

use crate::nodes;
use crate::nodes::Field;
use answers::Handle;

// A record below the count that is marked live.
#[tactic(auto, using(crate::proofs::Liveness::live_if_marked, crate::proofs::Liveness::idle_if_not_marked, crate::proofs::Liveness::idle_beyond))]
pub fn is_live(nodes: &[u32], max_allocs: u32, node: Handle) -> bool
    requires { HasRoom max_allocs nodes.now }
    ensures { result ≡ is_live nodes.now max_allocs node.0 }
{
    if node.0 < max_allocs {
        if nodes::word(nodes, node, Field::Used) == 0 {
            return false;
        }
        return true;
    }
    false
}

// A link that names a record which is not live: a neighbour to merge with.
pub fn is_free(nodes: &[u32], max_allocs: u32, link: Handle) -> bool
    requires { HasRoom max_allocs nodes.now }
    ensures { result ≡ is_free nodes.now max_allocs link.0 }
{
    if link.0 < max_allocs {
        return nodes::word(nodes, link, Field::Used) == 0;
    }
    false
}
