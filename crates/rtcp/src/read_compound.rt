// Datagrams, and the walk over their packets.
ghost use Rattle.std.specs.Prelude.{◌≡◌};
ghost use Rattle.rfc3550.specs.Answer.{map_ok, refused};
ghost use Rattle.rfc3550.specs.Read.{kind_of, type_in, low_in, read_as};
ghost use Rattle.rfc3550.specs.Compound.{read_compound};
ghost use Rattle.rfc3550.specs.Walk.{open_walk, step};
ghost use Rattle.utils.specs.Error.{code_refusal, value_in, parsed_of};
ghost use Rattle.utils.specs.List.{lay_list};
ghost use Rattle.compound.specs.Compound.{compound_view, packet_rows, walk_at, step_view};
ghost use Rattle.rtcp.specs.Compound.{bare_numbers, sr_numbers, rr_numbers, sdes_numbers, bye_numbers, app_numbers, unknown_numbers, packet_numbers, compound_result, walk_result, step_result};
ghost use Rattle.rtcp.specs.WriteResult.{written_with_buffer};

use super::refusal::refused;
use super::write_result::RtcpWritten;
use app::App;
use bye::Bye;
use compound::compound::{Compound, Walk, packet_len, why_len_unchecked};
use compound::kind::{Kind, kind_of};
use compound::packet::Packet;
use compound::unknown::Unknown;
use report::receiver::ReceiverReport;
use report::report::Report;
use report::sender::SenderReport;
use sdes::sdes::Sdes;
use utils::error::{Code, RtcpParseError};
use utils::packet_parser::RtcpPacketParser;

#[repr(C)]
#[derive(Clone, Copy, Default)]
pub struct RtcpCompound {
    pub number: u64,
    pub first: u64,
    pub second: u64,
    pub n_packets: u64,
}

#[repr(C)]
#[derive(Clone, Copy, Default)]
pub struct RtcpWalk {
    pub number: u64,
    pub first: u64,
    pub second: u64,
    pub at: u64,
}

// The packet has `len` bytes from `offset`. Every other place is counted from the packet's start, so the numbers are those that the function of
// its kind gives of these bytes; 0 where its kind has no such field, since C has one struct for all kinds.
#[repr(C)]
#[derive(Clone, Copy, Default)]
pub struct RtcpStep {
    pub number: u64,
    pub first: u64,
    pub second: u64,
    pub kind: u64,
    pub packet_type: u64,
    pub count: u64,
    pub offset: u64,
    pub len: u64,
    pub body: u64,
    pub padding_len: u64,
    pub ssrc: u64,
    pub ntp_timestamp: u64,
    pub rtp_timestamp: u64,
    pub packet_count: u64,
    pub octet_count: u64,
    pub extension: u64,
    pub has_cname: u64,
    pub has_reason: u64,
    pub reason: u64,
    pub reason_len: u64,
    pub at: u64,
}

impl RtcpStep {
    // A refusal by its three numbers, with the walk that went in; no From, since it takes two values.
    fn coded(code: Code, at: u64) -> RtcpStep
        ensures { result ≡ step_result at (refused (code_refusal code)) }
    {
        RtcpStep {
            at,
            ..refused!(RtcpStep, code)
        }
    }
}

// A packet of any kind as C's numbers. The kind is its packet type, or 0 where the type has no layout.
#[derive(Clone, Copy, Default)]
struct PacketNumbers {
    kind: u64,
    packet_type: u64,
    count: u64,
    body: u64,
    padding_len: u64,
    ssrc: u64,
    ntp_timestamp: u64,
    rtp_timestamp: u64,
    packet_count: u64,
    octet_count: u64,
    extension: u64,
    has_cname: u64,
    has_reason: u64,
    reason: u64,
    reason_len: u64,
}

impl PacketNumbers {
    // What every kind has.
    fn bare(packet_type: u8, count: usize, body: usize, padding_len: usize) -> PacketNumbers
        ensures { result ≡ bare_numbers packet_type count body padding_len }
    {
        PacketNumbers {
            kind: packet_type as u64,
            packet_type: packet_type as u64,
            count: count as u64,
            body: body as u64,
            padding_len: padding_len as u64,
            ..PacketNumbers::default()
        }
    }

    // None where the packet is refused. By a match: the kinds are six and closed, and each arm calls another type.
    #[tactic(auto, using(crate::proofs::Datagrams::kinds))]
    fn read(s: &[u8]) -> Option<PacketNumbers>
        ensures { result ≡ value_in (map_ok packet_numbers (read_as (kind_of (type_in s.now) (low_in s.now)) s.now)) }
    {
        match kind_of(s) {
            Kind::Sr => Some(Self::from(SenderReport::read(s)?)),
            Kind::Rr => Some(Self::from(ReceiverReport::read(s)?)),
            Kind::Sdes => Some(Self::from(Sdes::read(s)?)),
            Kind::Bye => Some(Self::from(Bye::read(s)?)),
            Kind::App => Some(Self::from(App::read(s)?)),
            Kind::Unknown => Some(Self::from(Unknown::read(s)?)),
        }
    }
}

impl From<SenderReport> for PacketNumbers {
    ghost from_gives = { λ sr n. n ≡ sr_numbers sr };

    fn from(sr: SenderReport) -> PacketNumbers {
        PacketNumbers {
            ssrc: sr.ssrc as u64,
            ntp_timestamp: sr.ntp_timestamp,
            rtp_timestamp: sr.rtp_timestamp as u64,
            packet_count: sr.packet_count as u64,
            octet_count: sr.octet_count as u64,
            extension: sr.extension as u64,
            ..Self::bare(
                SenderReport::PACKET_TYPE,
                sr.n_reports,
                sr.body,
                sr.padding_len,
            )
        }
    }
}

impl From<ReceiverReport> for PacketNumbers {
    ghost from_gives = { λ rr n. n ≡ rr_numbers rr };

    fn from(rr: ReceiverReport) -> PacketNumbers {
        PacketNumbers {
            ssrc: rr.ssrc as u64,
            extension: rr.extension as u64,
            ..Self::bare(
                ReceiverReport::PACKET_TYPE,
                rr.n_reports,
                rr.body,
                rr.padding_len,
            )
        }
    }
}

impl From<Sdes> for PacketNumbers {
    ghost from_gives = { λ sdes n. n ≡ sdes_numbers sdes };

    fn from(sdes: Sdes) -> PacketNumbers {
        PacketNumbers {
            has_cname: u64::from(sdes.has_cname),
            ..Self::bare(
                Sdes::PACKET_TYPE,
                sdes.n_chunks,
                sdes.body,
                sdes.padding_len,
            )
        }
    }
}

impl From<Bye> for PacketNumbers {
    ghost from_gives = { λ bye n. n ≡ bye_numbers bye };

    fn from(bye: Bye) -> PacketNumbers {
        PacketNumbers {
            has_reason: u64::from(bye.has_reason),
            reason: bye.reason as u64,
            reason_len: bye.reason_len as u64,
            ..Self::bare(Bye::PACKET_TYPE, bye.n_sources, bye.body, bye.padding_len)
        }
    }
}

impl From<App> for PacketNumbers {
    ghost from_gives = { λ app n. n ≡ app_numbers app };

    fn from(app: App) -> PacketNumbers {
        PacketNumbers {
            ssrc: app.ssrc as u64,
            ..Self::bare(
                App::PACKET_TYPE,
                app.subtype as usize,
                app.body,
                app.padding_len,
            )
        }
    }
}

impl From<Unknown> for PacketNumbers {
    ghost from_gives = { λ unknown n. n ≡ unknown_numbers unknown };

    fn from(unknown: Unknown) -> PacketNumbers {
        PacketNumbers {
            kind: 0,
            ..Self::bare(
                unknown.packet_type,
                unknown.count as usize,
                unknown.body,
                unknown.padding_len,
            )
        }
    }
}

impl From<Result<Compound, RtcpParseError>> for RtcpCompound {
    ghost from_gives = { λ a r. r ≡ compound_result (parsed_of a) };

    fn from(answer: Result<Compound, RtcpParseError>) -> RtcpCompound {
        match answer {
            Ok(compound) => RtcpCompound {
                n_packets: compound.n_packets as u64,
                ..RtcpCompound::default()
            },
            Err(e) => refused!(RtcpCompound, e),
        }
    }
}

impl From<Result<Walk, RtcpParseError>> for RtcpWalk {
    ghost from_gives = { λ a r. r ≡ walk_result (parsed_of a) };

    fn from(answer: Result<Walk, RtcpParseError>) -> RtcpWalk {
        match answer {
            Ok(walk) => RtcpWalk {
                at: walk.at as u64,
                ..RtcpWalk::default()
            },
            Err(e) => refused!(RtcpWalk, e),
        }
    }
}

pub fn rtcp_compound_parse(s: &[u8]) -> RtcpCompound
    ensures { result ≡ compound_result (map_ok compound_view (read_compound s.now)) }
{
    RtcpCompound::from(Compound::parse(s))
}

// Three numbers for each packet, in order, into a lent list: its type, its offset in the datagram and its length.
pub fn rtcp_compound_packets(s: &[u8], packets: &mut [u64]) -> RtcpWritten
    ensures { (result, packets.new) ≡ written_with_buffer (lay_list (map_ok packet_rows (read_compound s.now)) packets.old) }
{
    RtcpWritten::from(Compound::packets(s, packets))
}

pub fn rtcp_walk_open(s: &[u8]) -> RtcpWalk
    ensures { result ≡ walk_result (map_ok walk_at (open_walk s.now)) }
{
    RtcpWalk::from(Walk::open(s))
}

#[tactic(auto, using(crate::proofs::Datagrams::datagrams))]
pub fn rtcp_walk_step(s: &[u8], at: u64) -> RtcpStep
    ensures { result ≡ step_result at (map_ok step_view (step s.now at)) }
{
    let from = at as usize;
    let Some(len) = packet_len(s, from) else {
        let why = why_len_unchecked(s, from);
        return RtcpStep::coded(Code::from(why), at);
    };
    let end = from + len;
    let Some(n) = PacketNumbers::read(&s[from..end]) else {
        let why = Packet::why_unchecked(&s[from..end]);
        return RtcpStep::coded(Code::from(why), at);
    };
    RtcpStep {
        kind: n.kind,
        packet_type: n.packet_type,
        count: n.count,
        offset: at,
        len: len as u64,
        body: n.body,
        padding_len: n.padding_len,
        ssrc: n.ssrc,
        ntp_timestamp: n.ntp_timestamp,
        rtp_timestamp: n.rtp_timestamp,
        packet_count: n.packet_count,
        octet_count: n.octet_count,
        extension: n.extension,
        has_cname: n.has_cname,
        has_reason: n.has_reason,
        reason: n.reason,
        reason_len: n.reason_len,
        at: end as u64,
        ..RtcpStep::default()
    }
}
