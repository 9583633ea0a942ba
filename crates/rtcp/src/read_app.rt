// APP packets.
ghost use Rattle.std.specs.Prelude.{◌≡◌};
ghost use Rattle.rfc3550.specs.Answer.{map_ok};
ghost use Rattle.rfc3550.specs.Read.{APP, read_as};
ghost use Rattle.app.specs.App.{app_view};
ghost use Rattle.rtcp.specs.App.{app_result};

use super::refusal::refused;
use app::App;
use utils::packet_parser::RtcpPacketParser;

#[repr(C)]
#[derive(Clone, Copy, Default)]
pub struct RtcpApp {
    pub number: u64,
    pub first: u64,
    pub second: u64,
    pub subtype: u64,
    pub ssrc: u64,
    pub name: u64,
    pub name_len: u64,
    pub data: u64,
    pub data_len: u64,
    pub body: u64,
    pub padding_len: u64,
}

// No From, which can require nothing: the length of the data needs an accepted packet.
#[tactic(auto, using(crate::proofs::Apps::apps))]
pub fn rtcp_app_parse(s: &[u8]) -> RtcpApp
    ensures { result ≡ app_result (map_ok app_view (read_as APP s.now)) }
{
    match App::parse(s) {
        Ok(app) => RtcpApp {
            subtype: app.subtype as u64,
            ssrc: app.ssrc as u64,
            name: App::NAME as u64,
            name_len: App::NAME_LEN as u64,
            data: App::MIN_PACKET_LEN as u64,
            data_len: (app.body - App::MIN_PACKET_LEN) as u64,
            body: app.body as u64,
            padding_len: app.padding_len as u64,
            ..RtcpApp::default()
        },
        Err(e) => refused!(RtcpApp, e),
    }
}
