// BYE: goodbye packets (bye.rs of rtcp-types).
#![tactic(auto)]

pub mod write;

ghost use Rattle.std.specs.Prelude.{◌≡◌, ◌+◌, ◌-◌, take, drop};
ghost use Rattle.rfc3550.specs.Read.{BYE, read_source_at};
ghost use Rattle.utils.specs.Error.{parsed_of};
ghost use Rattle.bye.specs.Bye.{bye_view};

use utils::error::RtcpParseError;
use utils::packet_parser::RtcpPacketParser;

// reason is the place of the reason's first byte or, where there is none, the end of the sources; the tail lies between the reason's end
// and body, where the padding starts. has_reason stands beside them, and they are no Option: where there is no reason, the tail starts at
// their sum all the same, and C is given both.
#[derive(Clone, Copy)]
pub struct Bye {
    pub n_sources: usize,
    pub has_reason: bool,
    pub reason: usize,
    pub reason_len: usize,
    pub body: usize,
    pub padding_len: usize,
}

impl Bye {
    pub const MIN_PACKET_LEN: usize = 4;

    pub const PACKET_TYPE: u8 = 203;

    // The source with an index, from 0.
    #[tactic(auto, using(crate::proofs::Byes::byes))]
    pub fn source(s: &[u8], i: usize) -> Result<u32, RtcpParseError>
        ensures { parsed_of result ≡ read_source_at s.now i }
    {
        let bye = Bye::parse(s)?;
        if bye.n_sources <= i {
            return Err(RtcpParseError::NothingLeft);
        }
        Ok(utils::parser::u32_from_be_bytes(s, Bye::MIN_PACKET_LEN + 4 * i))
    }

    pub fn reason(self, s: &[u8]) -> &[u8]
        ensures { result.now ≡ take self.reason_len (drop self.reason s.now) }
    {
        utils::parser::part(s, self.reason, self.reason_len)
    }

    // The bytes after the reason.
    pub fn tail(self, s: &[u8]) -> &[u8]
        ensures { result.now ≡ take (self.body - (self.reason + self.reason_len)) (drop (self.reason + self.reason_len) s.now) }
    {
        if self.body < self.reason {
            return &s[..0];
        }
        let len = self.body - self.reason;
        if len < self.reason_len {
            return &s[..0];
        }
        utils::parser::part(s, self.reason + self.reason_len, len - self.reason_len)
    }

    // By hand, as `App::padding_bytes`.
    pub fn padding_bytes(self, s: &[u8]) -> &[u8]
        ensures { result.now ≡ take self.padding_len (drop self.body s.now) }
    {
        utils::parser::part(s, self.body, self.padding_len)
    }
}

impl RtcpPacketParser for Bye {
    ghost kind = { BYE };

    ghost view = { bye_view };

    #[tactic(auto, using(crate::proofs::Byes::readings))]
    fn read(s: &[u8]) -> Option<Bye> {
        let body = utils::parser::body_of(s, Bye::MIN_PACKET_LEN, Bye::PACKET_TYPE)?;
        let n_sources = utils::parser::parse_count(s) as usize;
        let end = Bye::MIN_PACKET_LEN + 4 * n_sources;
        if body < end {
            return None;
        }
        let padding_len = s.len() - body;
        if body == end {
            return Some(Bye {
                n_sources,
                has_reason: false,
                reason: end,
                reason_len: 0,
                body,
                padding_len,
            });
        }
        let reason_len = usize::from(s[end]);
        let reason = end + 1;
        if body < reason + reason_len {
            return None;
        }
        Some(Bye {
            n_sources,
            has_reason: true,
            reason,
            reason_len,
            body,
            padding_len,
        })
    }

    #[cold]
    #[tactic(auto, using(crate::proofs::Byes::readings))]
    fn why_unchecked(s: &[u8]) -> RtcpParseError {
        let Some(actual) = utils::parser::body_of(s, Bye::MIN_PACKET_LEN, Bye::PACKET_TYPE) else {
            return utils::parser::why_header_unchecked(s, Bye::MIN_PACKET_LEN, Bye::PACKET_TYPE);
        };
        let n_sources = utils::parser::parse_count(s) as usize;
        let end = Bye::MIN_PACKET_LEN + 4 * n_sources;
        if actual < end {
            return RtcpParseError::Truncated {
                expected: end,
                actual,
            };
        }
        let expected = end + 1 + usize::from(s[end]);
        RtcpParseError::Truncated { expected, actual }
    }
}
