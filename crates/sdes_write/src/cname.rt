// The CNAME that a compound must have, in the lists of an SDES as they are lent.
ghost use Rattle.std.specs.Prelude.{◌≡◌, length};
ghost use Rattle.sdes_write.specs.Names.{lent_cname};

use sdes_chunk::item;

// Some item lent is a CNAME.
#[tactic(auto, using(crate::proofs::Names::namings))]
pub fn has_cname_unchecked(types: &[u8], values: &[u64]) -> bool
    requires { length types.now ≡ length values.now }
    ensures { result ≡ lent_cname types.now values.now }
{
    for (i, item_type) in types.iter().enumerate() {
        if item::is_cname(*item_type, values[i] as usize) {
            return true;
        }
    }
    false
}
