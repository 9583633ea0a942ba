// Which chunks of an SDES packet name the SSRCs of a list.
ghost use Rattle.std.specs.Prelude.{◌≡◌, ℕ};
ghost use Rattle.rfc3550.specs.Lookup.{Visited, lookup_with};
ghost use Rattle.rtcp.specs.Lookup.{lookup_with_answers};

use rtcp::read_lookup;
use rtcp::read_lookup::RtcpLookup;

// An answer for each SSRC: the index of the first chunk with that SSRC and a CNAME in it, or 255.
#[unsafe(no_mangle)]
pub extern "C" fn rtcp_sdes_lookup(s: &[u8], ssrcs: &[u32], answers: &mut [u8]) -> RtcpLookup
    ensures { (visits : ℕ) × Visited s.now ssrcs.now visits × ((result, answers.new) ≡ lookup_with_answers (lookup_with visits s.now ssrcs.now answers.old)) }
{
    read_lookup::rtcp_sdes_lookup(s, ssrcs, answers)
}
