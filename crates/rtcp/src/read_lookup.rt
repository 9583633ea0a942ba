// Which chunks of an SDES packet name the SSRCs of a list.
ghost use Rattle.std.specs.Prelude.{◌≡◌, ℕ};
ghost use Rattle.rfc3550.specs.Lookup.{Visited, lookup_with};
ghost use Rattle.utils.specs.Error.{parsed_of};
ghost use Rattle.rtcp.specs.Lookup.{lookup_result, lookup_with_answers};

use super::refusal::refused;
use utils::error::RtcpParseError;

#[repr(C)]
#[derive(Clone, Copy, Default)]
pub struct RtcpLookup {
    pub number: u64,
    pub first: u64,
    pub second: u64,
    pub visits: u64,
}

impl From<Result<usize, RtcpParseError>> for RtcpLookup {
    ghost from_gives = { λ a r. r ≡ lookup_result (parsed_of a) };

    fn from(answer: Result<usize, RtcpParseError>) -> RtcpLookup {
        match answer {
            Ok(visits) => RtcpLookup {
                visits: visits as u64,
                ..RtcpLookup::default()
            },
            Err(e) => refused!(RtcpLookup, e),
        }
    }
}

// An answer for each SSRC: the index of the first chunk with that SSRC and a CNAME in it, or 255.
pub fn rtcp_sdes_lookup(s: &[u8], ssrcs: &[u32], answers: &mut [u8]) -> RtcpLookup
    ensures { (visits : ℕ) × Visited s.now ssrcs.now visits × ((result, answers.new) ≡ lookup_with_answers (lookup_with visits s.now ssrcs.now answers.old)) }
{
    RtcpLookup::from(sdes_lookup::lookup(s, ssrcs, answers))
}
