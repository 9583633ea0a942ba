// A packet of a type outside 200 to 204: it has no layout of its own.
ghost use Rattle.std.specs.Prelude.{◌≡◌, ◌-◌, take, drop};
ghost use Rattle.rfc3550.specs.Read.{UNKNOWN};
ghost use Rattle.compound.specs.Unknown.{unknown_view};

use super::kind::is_unknown;
use utils::error::RtcpParseError;
use utils::packet_parser::RtcpPacketParser;
use utils::parser;

// count is the low 5 bits; body is the end of the body, where the padding starts.
#[derive(Clone, Copy)]
pub struct Unknown {
    pub packet_type: u8,
    pub count: u8,
    pub body: usize,
    pub padding_len: usize,
}

impl Unknown {
    pub const MIN_PACKET_LEN: usize = 4;

    // The bytes between the header and the padding, of the packet that was parsed.
    pub fn body_bytes(self, s: &[u8]) -> &[u8]
        ensures { result.now ≡ take (self.body - 4) (drop 4 s.now) }
    {
        parser::between(s, Unknown::MIN_PACKET_LEN, self.body)
    }

    // By hand, as `App::padding_bytes`.
    pub fn padding_bytes(self, s: &[u8]) -> &[u8]
        ensures { result.now ≡ take self.padding_len (drop self.body s.now) }
    {
        parser::part(s, self.body, self.padding_len)
    }
}

impl RtcpPacketParser for Unknown {
    ghost kind = { UNKNOWN };

    ghost view = { unknown_view };

    #[tactic(auto, using(crate::proofs::Unknowns::unknowns))]
    fn read(s: &[u8]) -> Option<Unknown> {
        let body = parser::body_if(s, Unknown::MIN_PACKET_LEN, is_unknown(s))?;
        Some(Unknown {
            packet_type: parser::parse_packet_type(s),
            count: parser::parse_count(s),
            body,
            padding_len: s.len() - body,
        })
    }

    #[cold]
    #[tactic(auto, using(crate::proofs::Unknowns::unknowns))]
    fn why_unchecked(s: &[u8]) -> RtcpParseError {
        let actual = parser::parse_packet_type(s);
        parser::why_header_if_unchecked(s, Unknown::MIN_PACKET_LEN, is_unknown(s), actual, 0)
    }
}
