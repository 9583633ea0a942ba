// The kind that a packet is read as: the one place where packet types are told apart.
ghost use Rattle.std.specs.Prelude.{◌≡◌};
ghost use Rattle.rfc3550.specs.Read.{UNKNOWN, kind_of, of_kind, type_in, low_in};
ghost use Rattle.compound.specs.Kind.{kind_in};

use app::App;
use bye::Bye;
use report::receiver::ReceiverReport;
use report::report::Report;
use report::sender::SenderReport;
use sdes::sdes::Sdes;
use utils::parser;

#[derive(Clone, Copy, PartialEq, Eq)]
pub enum Kind {
    Sr,
    Rr,
    Sdes,
    Bye,
    App,
    Unknown,
}

#[tactic(auto, using(crate::proofs::PacketKinds::kinds_by_type))]
pub fn kind_of(s: &[u8]) -> Kind
    ensures { kind_in result ≡ kind_of (type_in s.now) (low_in s.now) }
{
    match parser::parse_packet_type(s) {
        SenderReport::PACKET_TYPE => Kind::Sr,
        ReceiverReport::PACKET_TYPE => Kind::Rr,
        Sdes::PACKET_TYPE => Kind::Sdes,
        Bye::PACKET_TYPE => Kind::Bye,
        App::PACKET_TYPE => Kind::App,
        _ => Kind::Unknown,
    }
}

// Whether the packet is of no kind that has a layout.
pub fn is_unknown(s: &[u8]) -> bool
    ensures { result ≡ of_kind UNKNOWN (type_in s.now) (low_in s.now) }
{
    kind_of(s) == Kind::Unknown
}
