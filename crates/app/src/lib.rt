// APP: application-defined packets (app.rs of rtcp-types).
#![tactic(auto)]

pub mod write;

ghost use Rattle.std.specs.Prelude.{◌≡◌, ◌-◌, take, drop};
ghost use Rattle.rfc3550.specs.Read.{APP};
ghost use Rattle.app.specs.App.{app_view};

use utils::error::RtcpParseError;
use utils::packet_parser::RtcpPacketParser;

// The data follow the name; body is their end, where the padding starts.
#[derive(Clone, Copy)]
pub struct App {
    pub ssrc: u32,
    pub subtype: u8,
    pub body: usize,
    pub padding_len: usize,
}

impl App {
    pub const MIN_PACKET_LEN: usize = 12;

    pub const PACKET_TYPE: u8 = 204;

    pub const NAME: usize = 8;

    pub const NAME_LEN: usize = 4;

    pub fn name(self, s: &[u8]) -> &[u8]
        ensures { result.now ≡ take 4 (drop 8 s.now) }
    {
        utils::parser::part(s, App::NAME, App::NAME_LEN)
    }

    pub fn data(self, s: &[u8]) -> &[u8]
        ensures { result.now ≡ take (self.body - 12) (drop 12 s.now) }
    {
        utils::parser::between(s, App::MIN_PACKET_LEN, self.body)
    }

    // By hand in each kind, one line: a trait would ask the body and the padding's length of each.
    pub fn padding_bytes(self, s: &[u8]) -> &[u8]
        ensures { result.now ≡ take self.padding_len (drop self.body s.now) }
    {
        utils::parser::part(s, self.body, self.padding_len)
    }
}

impl RtcpPacketParser for App {
    ghost kind = { APP };

    ghost view = { app_view };

    #[tactic(auto, using(crate::proofs::Apps::apps))]
    fn read(s: &[u8]) -> Option<App> {
        let body = utils::parser::body_of(s, App::MIN_PACKET_LEN, App::PACKET_TYPE)?;
        Some(App {
            ssrc: utils::parser::parse_ssrc(s),
            subtype: utils::parser::parse_count(s),
            body,
            padding_len: s.len() - body,
        })
    }

    #[cold]
    #[tactic(auto, using(crate::proofs::Apps::apps))]
    fn why_unchecked(s: &[u8]) -> RtcpParseError {
        utils::parser::why_header_unchecked(s, App::MIN_PACKET_LEN, App::PACKET_TYPE)
    }
}
