// A datagram: packets laid end to end, a report first, a CNAME in some SDES chunk, padding in the last packet only.
ghost use Rattle.std.specs.Prelude.{◌≡◌, None, [], ◌∷◌, ◌+◌, ◌*◌, ◌≤◌, length, drop};
ghost use Rattle.rfc3550.specs.Answer.{ok, refused, map_ok};
ghost use Rattle.rfc3550.specs.Bytes.{store};
ghost use Rattle.rfc3550.specs.Packet.{has_cname};
ghost use Rattle.rfc3550.specs.Read.{type_in, stated};
ghost use Rattle.rfc3550.specs.Compound.{read_packet, read_compound};
ghost use Rattle.rfc3550.specs.Walk.{open_walk, step};
ghost use Rattle.utils.specs.Error.{parse_refusal, value_in, parsed_of};
ghost use Rattle.utils.specs.List.{listed_of, lay_list};
ghost use Rattle.compound.specs.Compound.{frame, padding_last, report_first, frame_at, with_length, compound_view, packet_rows, walk_at, step_view};

use super::packet::Packet;
use report::report::is_report;
use utils::error::RtcpParseError;
use utils::list::ListError;

// No padding, or nothing that follows the packet.
fn padding_last(rest: &[u8], stated: usize) -> bool
    requires { 4 ≤ length rest.now }
    ensures { result ≡ padding_last rest.now stated }
{
    if utils::parser::parse_padding_bit(rest) {
        return stated == rest.len();
    }
    true
}

// A report, or a packet that is not the first.
fn report_first(first: bool, packet_type: u8) -> bool
    ensures { result ≡ report_first first packet_type }
{
    !first || is_report(packet_type)
}

// The packet's length by the steps of its frame; None where one refuses.
#[tactic(auto, using(crate::proofs::Compounds::frames))]
fn frame_len(rest: &[u8], first: bool) -> Option<usize>
    ensures { result ≡ value_in (frame first rest.now) }
{
    if rest.len() < 4 {
        return None;
    }
    if utils::parser::parse_version(rest) != 2 {
        return None;
    }
    let stated = utils::parser::parse_length(rest);
    if rest.len() < stated {
        return None;
    }
    if !padding_last(rest, stated) {
        return None;
    }
    if !report_first(first, utils::parser::parse_packet_type(rest)) {
        return None;
    }
    Some(stated)
}

// Why a step of the frame refuses.
#[cold]
#[tactic(auto, using(crate::proofs::Compounds::frames))]
fn why_frame_unchecked(rest: &[u8], first: bool) -> RtcpParseError
    requires { value_in (frame first rest.now) ≡ None }
    ensures { refused (parse_refusal result) ≡ frame first rest.now }
{
    if rest.len() < 4 {
        return RtcpParseError::Truncated {
            expected: 4,
            actual: rest.len(),
        };
    }
    let version = utils::parser::parse_version(rest);
    if version != 2 {
        return RtcpParseError::UnsupportedVersion(version);
    }
    let stated = utils::parser::parse_length(rest);
    if rest.len() < stated {
        return RtcpParseError::Truncated {
            expected: stated,
            actual: rest.len(),
        };
    }
    if !padding_last(rest, stated) {
        return RtcpParseError::NonLastCompoundPacketPadding;
    }
    RtcpParseError::FirstPacketNoReport(utils::parser::parse_packet_type(rest))
}

// The length of the packet at a place of a datagram, by the steps of its frame; None where none is left, or a step refuses.
#[tactic(auto, using(crate::proofs::Compounds::compounds))]
pub fn packet_len(s: &[u8], at: usize) -> Option<usize>
    ensures { result ≡ value_in (frame_at s.now at) }
{
    if s.len() <= at {
        return None;
    }
    frame_len(&s[at..], at == 0)
}

// Why packet_len is None.
#[cold]
#[tactic(auto, using(crate::proofs::Compounds::compounds))]
pub fn why_len_unchecked(s: &[u8], at: usize) -> RtcpParseError
    requires { value_in (frame_at s.now at) ≡ None }
    ensures { refused (parse_refusal result) ≡ frame_at s.now at }
{
    if s.len() <= at {
        return RtcpParseError::NothingLeft;
    }
    why_frame_unchecked(&s[at..], at == 0)
}

// Whether the packet at the start of the bytes left has a CNAME, and its length.
#[tactic(auto, using(crate::proofs::Compounds::frames))]
fn check_packet(rest: &[u8], first: bool) -> Result<(bool, usize), RtcpParseError>
    ensures { parsed_of result ≡ map_ok (with_length has_cname rest.now) (read_packet first rest.now) }
{
    let Some(len) = frame_len(rest, first) else {
        return Err(why_frame_unchecked(rest, first));
    };
    let Some(has_cname) = Packet::verdict(&rest[..len]) else {
        return Err(Packet::why_unchecked(&rest[..len]));
    };
    Ok((has_cname, len))
}

// An accepted datagram: the number of its packets.
#[derive(Clone, Copy)]
pub struct Compound {
    pub n_packets: usize,
}

impl Compound {
    // How many numbers of a lent list one packet takes.
    pub const PACKET_ROW: usize = 3;

    #[tactic(auto, using(crate::proofs::Compounds::compounds))]
    pub fn parse(s: &[u8]) -> Result<Compound, RtcpParseError>
        ensures { parsed_of result ≡ map_ok compound_view (read_compound s.now) }
    {
        if s.len() == 0 {
            return Err(RtcpParseError::Truncated {
                expected: 4,
                actual: 0,
            });
        }
        let mut at = 0;
        let mut n_packets = 0;
        let mut has_cname = false;
        // A while: how many packets there are is what it finds out.
        while at < s.len() {
            let (cname, len) = check_packet(&s[at..], at == 0)?;
            has_cname |= cname;
            at += len;
            n_packets += 1;
        }
        if !has_cname {
            return Err(RtcpParseError::NoCname);
        }
        Ok(Compound { n_packets })
    }

    // Three numbers for each packet, in order, into a lent list: its type, its offset in the datagram and its length.
    #[tactic(auto, using(crate::proofs::Listing::listings))]
    pub fn packets(s: &[u8], packets: &mut [u64]) -> Result<usize, ListError>
        ensures { (listed_of result, packets.new) ≡ lay_list (map_ok packet_rows (read_compound s.now)) packets.old }
    {
        let compound = Compound::parse(s)?;
        let len = compound.n_packets * Compound::PACKET_ROW;
        if packets.len() < len {
            return Err(ListError::TooShort(len));
        }
        list_all_unchecked(s, compound, packets);
        Ok(len)
    }
}

// The three numbers of the packet at a place, into a list from index to on, and the packet's length.
#[tactic(auto, using(crate::proofs::Listing::listings))]
fn list_packet_unchecked(s: &[u8], at: usize, list: &mut [u64], to: usize) -> usize
    requires { (at + 4 ≤ length s.now) × (to + 3 ≤ length list.old) }
    ensures { (result ≡ stated (drop at s.now)) × (list.new ≡ store to (type_in (drop at s.now) ∷ at ∷ result ∷ []) list.old) }
{
    let rest = &s[at..];
    let len = utils::parser::parse_length(rest);
    list[to] = u64::from(rest[1]);
    list[to + 1] = at as u64;
    list[to + 2] = len as u64;
    len
}

// The packets of an accepted datagram, into a list that is long enough.
#[tactic(auto, using(crate::proofs::Listing::listings))]
fn list_all_unchecked(s: &[u8], compound: Compound, list: &mut [u64])
    requires { (map_ok compound_view (read_compound s.now) ≡ ok compound) × (compound.n_packets * 3 ≤ length list.old) }
    ensures { (ok (compound.n_packets * 3), list.new) ≡ lay_list (map_ok packet_rows (read_compound s.now)) list.old }
{
    let mut at = 0;
    for i in 0..compound.n_packets {
        at += list_packet_unchecked(s, at, list, i * Compound::PACKET_ROW);
    }
}

// A walk over the packets of a datagram: the place of the next one.
#[derive(Clone, Copy)]
pub struct Walk {
    pub at: usize,
}

impl Walk {
    // Opens only on an accepted datagram.
    #[tactic(auto, using(crate::proofs::Compounds::compounds))]
    pub fn open(s: &[u8]) -> Result<Walk, RtcpParseError>
        ensures { parsed_of result ≡ map_ok walk_at (open_walk s.now) }
    {
        let _ = Compound::parse(s)?;
        Ok(Walk { at: 0 })
    }

    // The packet at the walk's place, and the walk after it.
    #[tactic(auto, using(crate::proofs::Compounds::compounds))]
    pub fn step(self, s: &[u8]) -> Result<(Packet, Walk), RtcpParseError>
        ensures { parsed_of result ≡ map_ok step_view (step s.now self.at) }
    {
        let at = self.at;
        let Some(len) = packet_len(s, at) else {
            return Err(why_len_unchecked(s, at));
        };
        let end = at + len;
        let packet = Packet::parse(&s[at..end])?;
        Ok((packet, Walk { at: end }))
    }
}
