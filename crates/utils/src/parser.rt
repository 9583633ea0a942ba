// Numbers, most significant byte first, and the header of a packet.
ghost use Rattle.std.specs.Prelude.{◌≡◌, None, ◌+◌, ◌-◌, ◌≤◌, ◌<◌, length, take, drop, eqb};
ghost use Rattle.rfc3550.specs.Answer.{refused};
ghost use Rattle.rfc3550.specs.Bytes.{val};
ghost use Rattle.rfc3550.specs.Read.{version_in, padded, low_in, type_in, stated, check_header};
ghost use Rattle.utils.specs.Error.{parse_refusal, value_in, parsed_of};
ghost use Rattle.utils.specs.Parser.{check_padding};

use super::error::RtcpParseError;

// The bytes from a place on, as many as the array has.
pub(crate) fn bytes_at<const N: usize>(s: &[u8], at: usize) -> [u8; N]
    requires { at + N ≤ length s.now }
    ensures { result ≡ take N (drop at s.now) }
{
    *s[at..at + N].as_array().unwrap()
}

pub fn u16_from_be_bytes(s: &[u8], at: usize) -> u16
    requires { at + 2 ≤ length s.now }
    ensures { result ≡ val (take 2 (drop at s.now)) }
{
    u16::from_be_bytes(bytes_at(s, at))
}

pub fn u32_from_be_bytes(s: &[u8], at: usize) -> u32
    requires { at + 4 ≤ length s.now }
    ensures { result ≡ val (take 4 (drop at s.now)) }
{
    u32::from_be_bytes(bytes_at(s, at))
}

pub fn u64_from_be_bytes(s: &[u8], at: usize) -> u64
    requires { at + 8 ≤ length s.now }
    ensures { result ≡ val (take 8 (drop at s.now)) }
{
    u64::from_be_bytes(bytes_at(s, at))
}

#[tactic(auto, unfolding(rfc3550::specs::Read::version_in))]
pub fn parse_version(s: &[u8]) -> u8
    requires { 4 ≤ length s.now }
    ensures { result ≡ version_in s.now }
{
    s[0] / 64
}

#[tactic(auto, unfolding(rfc3550::specs::Read::padded))]
pub fn parse_padding_bit(s: &[u8]) -> bool
    requires { 4 ≤ length s.now }
    ensures { result ≡ padded s.now }
{
    s[0] / 32 % 2 == 1
}

// The low 5 bits of the first byte; 0 where there is no byte, and no Option: what is asked of a packet tests its length besides.
#[tactic(auto, unfolding(rfc3550::specs::Read::low_in))]
pub fn parse_count(s: &[u8]) -> u8
    ensures { (result ≡ low_in s.now) × (result < 32) }
{
    s.first().copied().unwrap_or(0) % 32
}

// The second byte; 0 where there is none, and no Option, as in parse_count.
#[tactic(auto, unfolding(rfc3550::specs::Read::type_in))]
pub fn parse_packet_type(s: &[u8]) -> u8
    ensures { result ≡ type_in s.now }
{
    s.get(1).copied().unwrap_or(0)
}

// The length that the header states, in bytes.
#[tactic(auto, unfolding(rfc3550::specs::Read::stated))]
pub fn parse_length(s: &[u8]) -> usize
    requires { 4 ≤ length s.now }
    ensures { result ≡ stated s.now }
{
    4 * (u16_from_be_bytes(s, 2) as usize + 1)
}

pub fn parse_ssrc(s: &[u8]) -> u32
    requires { 8 ≤ length s.now }
    ensures { result ≡ val (take 4 (drop 4 s.now)) }
{
    u32_from_be_bytes(s, 4)
}

// The length of the body by the padding's step; None where it is refused. That a packet has 4 bytes at least stands at each function of a header: a struct
// of a kind's least length and the bytes would be made at each call.
#[tactic(auto, using(crate::proofs::Headers::bodies))]
fn padded_body(s: &[u8], min_packet_len: usize) -> Option<usize>
    requires { (4 ≤ min_packet_len) × (min_packet_len ≤ length s.now) }
    ensures { result ≡ value_in (check_padding min_packet_len s.now) }
{
    if !parse_padding_bit(s) {
        return Some(s.len());
    }
    let padding = usize::from(s[s.len() - 1]);
    if padding == 0 {
        return None;
    }
    if padding % 4 != 0 {
        return None;
    }
    if s.len() - min_packet_len < padding {
        return None;
    }
    Some(s.len() - padding)
}

// The length of a packet's body, which is its length less the padding, by the steps common to every kind; None where one refuses.
#[tactic(auto, using(crate::proofs::Headers::headers))]
pub fn body_if(s: &[u8], min_packet_len: usize, wanted: bool) -> Option<usize>
    requires { 4 ≤ min_packet_len }
    ensures { result ≡ value_in (check_header min_packet_len wanted (0, 0) s.now) }
{
    if s.len() < min_packet_len {
        return None;
    }
    if parse_version(s) != 2 {
        return None;
    }
    if !wanted {
        return None;
    }
    let length = parse_length(s);
    if s.len() < length {
        return None;
    }
    if length < s.len() {
        return None;
    }
    padded_body(s, min_packet_len)
}

// Why a packet that these steps refuse is refused.
#[cold]
#[tactic(auto, using(crate::proofs::Headers::headers))]
pub fn why_header_if_unchecked(
    s: &[u8],
    min_packet_len: usize,
    wanted: bool,
    actual: u8,
    requested: u8,
) -> RtcpParseError
    requires { (4 ≤ min_packet_len) × (value_in (check_header min_packet_len wanted (actual, requested) s.now) ≡ None) }
    ensures { refused (parse_refusal result) ≡ check_header min_packet_len wanted (actual, requested) s.now }
{
    if s.len() < min_packet_len {
        return RtcpParseError::Truncated {
            expected: min_packet_len,
            actual: s.len(),
        };
    }
    let version = parse_version(s);
    if version != 2 {
        return RtcpParseError::UnsupportedVersion(version);
    }
    if !wanted {
        return RtcpParseError::PacketTypeMismatch { actual, requested };
    }
    let length = parse_length(s);
    if s.len() < length {
        return RtcpParseError::Truncated {
            expected: length,
            actual: s.len(),
        };
    }
    if length < s.len() {
        return RtcpParseError::TooLarge {
            expected: length,
            actual: s.len(),
        };
    }
    RtcpParseError::InvalidPadding
}

// The length of the body by these steps, or why one refuses.
#[tactic(auto, using(crate::proofs::Headers::checks))]
pub fn check_header_if(
    s: &[u8],
    min_packet_len: usize,
    wanted: bool,
    actual: u8,
    requested: u8,
) -> Result<usize, RtcpParseError>
    requires { 4 ≤ min_packet_len }
    ensures { parsed_of result ≡ check_header min_packet_len wanted (actual, requested) s.now }
{
    match body_if(s, min_packet_len, wanted) {
        Some(body) => Ok(body),
        None => Err(why_header_if_unchecked(s, min_packet_len, wanted, actual, requested)),
    }
}

// The same of a kind that its type alone names: the length of the body, or None.
#[tactic(auto, using(crate::proofs::Headers::types))]
pub fn body_of(s: &[u8], min_packet_len: usize, packet_type: u8) -> Option<usize>
    requires { 4 ≤ min_packet_len }
    ensures { result ≡ value_in (check_header min_packet_len (eqb (type_in s.now) packet_type) (type_in s.now, packet_type) s.now) }
{
    let wanted = parse_packet_type(s) == packet_type;
    body_if(s, min_packet_len, wanted)
}

// Why a packet of which body_of finds no body is refused.
#[cold]
#[tactic(auto, using(crate::proofs::Headers::types))]
pub fn why_header_unchecked(s: &[u8], min_packet_len: usize, packet_type: u8) -> RtcpParseError
    requires { (4 ≤ min_packet_len) × (value_in (check_header min_packet_len (eqb (type_in s.now) packet_type) (type_in s.now, packet_type) s.now) ≡ None) }
    ensures { refused (parse_refusal result) ≡ check_header min_packet_len (eqb (type_in s.now) packet_type) (type_in s.now, packet_type) s.now }
{
    let actual = parse_packet_type(s);
    why_header_if_unchecked(
        s,
        min_packet_len,
        actual == packet_type,
        actual,
        packet_type,
    )
}

// The length of the body of a kind that its type alone names, or why the packet is refused.
#[tactic(auto, using(crate::proofs::Values::values))]
pub fn check_header(
    s: &[u8],
    min_packet_len: usize,
    packet_type: u8,
) -> Result<usize, RtcpParseError>
    requires { 4 ≤ min_packet_len }
    ensures { parsed_of result ≡ check_header min_packet_len (eqb (type_in s.now) packet_type) (type_in s.now, packet_type) s.now }
{
    match body_of(s, min_packet_len, packet_type) {
        Some(body) => Ok(body),
        None => Err(why_header_unchecked(s, min_packet_len, packet_type)),
    }
}

// The part of the bytes from a place on, of a length, cut where the bytes end.
pub fn part(s: &[u8], at: usize, len: usize) -> &[u8]
    ensures { result.now ≡ take len (drop at s.now) }
{
    let rest = &s[at.min(s.len())..];
    &rest[..len.min(rest.len())]
}

// The part of the bytes from one place to another; none where the second comes first.
pub fn between(s: &[u8], from: usize, to: usize) -> &[u8]
    ensures { result.now ≡ take (to - from) (drop from s.now) }
{
    part(s, from, to.saturating_sub(from))
}
