// BYE packets.
ghost use Rattle.std.specs.Prelude.{◌≡◌};
ghost use Rattle.rfc3550.specs.Answer.{map_ok};
ghost use Rattle.rfc3550.specs.Read.{BYE, read_as, read_source_at};
ghost use Rattle.utils.specs.Error.{parsed_of};
ghost use Rattle.bye.specs.Bye.{bye_view};
ghost use Rattle.rtcp.specs.Bye.{bye_result, source_result};

use super::refusal::refused;
use bye::Bye;
use utils::error::RtcpParseError;
use utils::packet_parser::RtcpPacketParser;

#[repr(C)]
#[derive(Clone, Copy, Default)]
pub struct RtcpBye {
    pub number: u64,
    pub first: u64,
    pub second: u64,
    pub n_sources: u64,
    pub has_reason: u64,
    pub reason: u64,
    pub reason_len: u64,
    pub tail: u64,
    pub tail_len: u64,
    pub body: u64,
    pub padding_len: u64,
}

#[repr(C)]
#[derive(Clone, Copy, Default)]
pub struct RtcpSource {
    pub number: u64,
    pub first: u64,
    pub second: u64,
    pub ssrc: u64,
}

impl From<Result<u32, RtcpParseError>> for RtcpSource {
    ghost from_gives = { λ a r. r ≡ source_result (parsed_of a) };

    fn from(answer: Result<u32, RtcpParseError>) -> RtcpSource {
        match answer {
            Ok(ssrc) => RtcpSource {
                ssrc: ssrc as u64,
                ..RtcpSource::default()
            },
            Err(e) => refused!(RtcpSource, e),
        }
    }
}

// No From, which can require nothing: the length of the tail needs an accepted packet.
#[tactic(auto, using(crate::proofs::Byes::byes))]
pub fn rtcp_bye_parse(s: &[u8]) -> RtcpBye
    ensures { result ≡ bye_result (map_ok bye_view (read_as BYE s.now)) }
{
    match Bye::parse(s) {
        Ok(bye) => RtcpBye {
            n_sources: bye.n_sources as u64,
            has_reason: u64::from(bye.has_reason),
            reason: bye.reason as u64,
            reason_len: bye.reason_len as u64,
            tail: (bye.reason + bye.reason_len) as u64,
            tail_len: (bye.body - (bye.reason + bye.reason_len)) as u64,
            body: bye.body as u64,
            padding_len: bye.padding_len as u64,
            ..RtcpBye::default()
        },
        Err(e) => refused!(RtcpBye, e),
    }
}

// The source with an index, from 0.
pub fn rtcp_bye_source(s: &[u8], i: u64) -> RtcpSource
    ensures { result ≡ source_result (read_source_at s.now i) }
{
    RtcpSource::from(Bye::source(s, i as usize))
}
