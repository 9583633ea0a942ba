// A packet of any kind.
ghost use Rattle.std.specs.Prelude.{◌≡◌, None};
ghost use Rattle.rfc3550.specs.Answer.{refused, map_ok};
ghost use Rattle.rfc3550.specs.Packet.{has_cname};
ghost use Rattle.rfc3550.specs.Read.{kind_of, type_in, low_in, read_as};
ghost use Rattle.utils.specs.Error.{parse_refusal, value_in, parsed_of};
ghost use Rattle.compound.specs.Packet.{packet_view};

use super::kind::{Kind, kind_of};
use super::unknown::Unknown;
use app::App;
use bye::Bye;
use report::receiver::ReceiverReport;
use report::report::Report;
use report::sender::SenderReport;
use sdes::sdes::Sdes;
use utils::error::RtcpParseError;
use utils::packet_parser::RtcpPacketParser;

#[derive(Clone, Copy)]
pub enum Packet {
    Sr(SenderReport),
    Rr(ReceiverReport),
    Sdes(Sdes),
    Bye(Bye),
    App(App),
    Unknown(Unknown),
}

impl Packet {
    // The packet that the bytes are, from the first to the last. By a match, here and below: the kinds are six and closed, and each arm calls another type.
    pub fn parse(s: &[u8]) -> Result<Packet, RtcpParseError>
        ensures { parsed_of result ≡ map_ok packet_view (read_as (kind_of (type_in s.now) (low_in s.now)) s.now) }
    {
        let packet = match kind_of(s) {
            Kind::Sr => Packet::Sr(SenderReport::parse(s)?),
            Kind::Rr => Packet::Rr(ReceiverReport::parse(s)?),
            Kind::Sdes => Packet::Sdes(Sdes::parse(s)?),
            Kind::Bye => Packet::Bye(Bye::parse(s)?),
            Kind::App => Packet::App(App::parse(s)?),
            Kind::Unknown => Packet::Unknown(Unknown::parse(s)?),
        };
        Ok(packet)
    }

    // Why a packet that is refused is.
    #[cold]
    #[tactic(auto, using(crate::proofs::Packets::packets))]
    pub fn why_unchecked(s: &[u8]) -> RtcpParseError
        requires { value_in (read_as (kind_of (type_in s.now) (low_in s.now)) s.now) ≡ None }
        ensures { refused (parse_refusal result) ≡ read_as (kind_of (type_in s.now) (low_in s.now)) s.now }
    {
        match kind_of(s) {
            Kind::Sr => SenderReport::why_unchecked(s),
            Kind::Rr => ReceiverReport::why_unchecked(s),
            Kind::Sdes => Sdes::why_unchecked(s),
            Kind::Bye => Bye::why_unchecked(s),
            Kind::App => App::why_unchecked(s),
            Kind::Unknown => Unknown::why_unchecked(s),
        }
    }

    // Whether the packet has a CNAME; None where it is refused.
    #[tactic(auto, using(crate::proofs::Packets::verdicts))]
    pub fn verdict(s: &[u8]) -> Option<bool>
        ensures { result ≡ value_in (map_ok has_cname (read_as (kind_of (type_in s.now) (low_in s.now)) s.now)) }
    {
        match kind_of(s) {
            Kind::Sr => {
                let _ = SenderReport::body_of(s)?;
                Some(false)
            }
            Kind::Rr => {
                let _ = ReceiverReport::body_of(s)?;
                Some(false)
            }
            Kind::Sdes => {
                let sdes = Sdes::read(s)?;
                Some(sdes.has_cname)
            }
            Kind::Bye => {
                let _ = Bye::read(s)?;
                Some(false)
            }
            Kind::App => {
                let _ = App::read(s)?;
                Some(false)
            }
            Kind::Unknown => {
                let _ = Unknown::read(s)?;
                Some(false)
            }
        }
    }
}
