// One packet to be read, of any kind (lib.rs, `RtcpPacketParser`).
ghost use Rattle.std.specs.Prelude.{◌≡◌, None};
ghost use Rattle.rfc3550.specs.Answer.{refused, map_ok};
ghost use Rattle.rfc3550.specs.Packet.{Packet};
ghost use Rattle.rfc3550.specs.Read.{Kind, read_as};
ghost use Rattle.utils.specs.Error.{parse_refusal, value_in, parsed_of};

use crate::error::RtcpParseError;

pub trait RtcpPacketParser: Copy {
    // The kind that is read, and what is read of its packet.
    ghost kind: { Kind };

    ghost view: { Packet → Self };

    // None where the packet is refused.
    fn read(s: &[u8]) -> Option<Self>
        ensures { result ≡ value_in (map_ok view (read_as kind s.now)) };

    // Why a packet that is refused is.
    fn why_unchecked(s: &[u8]) -> RtcpParseError
        requires { value_in (read_as kind s.now) ≡ None }
        ensures { refused (parse_refusal result) ≡ read_as kind s.now };

    // What is read of the packet, or why it is refused.
    #[inline(always)]
    #[tactic(auto, using(crate::proofs::Values::values))]
    final fn parse(s: &[u8]) -> Result<Self, RtcpParseError>
        ensures { parsed_of result ≡ map_ok view (read_as kind s.now) }
    {
        match Self::read(s) {
            Some(packet) => Ok(packet),
            None => Err(Self::why_unchecked(s)),
        }
    }
}
