// An SDES item.
#![tactic(auto, using(crate::proofs::Items::items))]

ghost use Rattle.std.specs.Prelude.{◌≡◌, None, ◌∷◌, [], ◌+◌, ◌≤◌, length, take, drop};
ghost use Rattle.rfc3550.specs.Answer.{ok, refused, map_ok};
ghost use Rattle.rfc3550.specs.Packet.{is_cname};
ghost use Rattle.rfc3550.specs.Read.{read_item, read_prefix};
ghost use Rattle.rfc3550.specs.Walk.{item_step};
ghost use Rattle.utils.specs.Error.{parse_refusal, value_in, parsed_of};
ghost use Rattle.sdes_chunk.specs.Item.{item_first, item_size, read_end, step_end, value_start, value_len, part_of};

use utils::error::RtcpParseError;
use utils::parser;

// The type, the length of what follows the first two bytes, and of that the prefix (0 where the type is not PRIV, and no Option: C is given
// this number).
#[derive(Clone, Copy)]
pub struct SdesItem {
    pub type_: u8,
    pub length: usize,
    pub prefix_len: usize,
}

// The place behind the item at a place that has two bytes at least; None where it is refused.
fn end_unchecked(chunk: &[u8], at: usize) -> Option<usize>
    requires { at + 2 ≤ length chunk.now }
    ensures { result ≡ read_end chunk.now at }
{
    let rest = &chunk[at..];
    let length = usize::from(rest[1]);
    let end = at + 2 + length;
    if chunk.len() < end {
        return None;
    }
    if rest[0] != SdesItem::PRIV {
        return Some(end);
    }
    if length == 0 {
        return None;
    }
    if length - 1 < usize::from(rest[2]) {
        return None;
    }
    Some(end)
}

// How many bytes the item at the start of the rest of a chunk takes; None where it is refused.
fn item_size(rest: &[u8]) -> Option<usize>
    ensures { result ≡ value_in (map_ok item_size (read_item rest.now)) }
{
    if rest.len() < 2 {
        return None;
    }
    end_unchecked(rest, 0)
}

// The place behind the item at a place of the chunk; None where there is none, or it is refused. A single byte is no item.
pub fn item_end(chunk: &[u8], at: usize) -> Option<usize>
    ensures { result ≡ step_end chunk.now at }
{
    if chunk.len() < 2 {
        return None;
    }
    if chunk.len() - 2 < at {
        return None;
    }
    if chunk[at] == 0 {
        return None;
    }
    end_unchecked(chunk, at)
}

// Why there is no step over an item at a place where item_end finds none.
#[cold]
pub fn why_end_unchecked(chunk: &[u8], at: usize) -> RtcpParseError
    requires { value_in (item_step chunk.now at) ≡ None }
    ensures { refused (parse_refusal result) ≡ item_step chunk.now at }
{
    if chunk.len() <= at {
        return RtcpParseError::NothingLeft;
    }
    if chunk[at] == 0 {
        return RtcpParseError::NothingLeft;
    }
    why_item_unchecked(&chunk[at..])
}

// The item at the start of the rest of a chunk, where it is not refused.
pub fn item_of_unchecked(rest: &[u8]) -> SdesItem
    requires { value_in (read_item rest.now) ≡ None → ⊥ }
    ensures { ok result ≡ map_ok item_first (read_item rest.now) }
{
    let type_ = rest[0];
    let length = usize::from(rest[1]);
    if type_ != SdesItem::PRIV {
        return SdesItem {
            type_,
            length,
            prefix_len: 0,
        };
    }
    let prefix_len = usize::from(rest[2]);
    SdesItem {
        type_,
        length,
        prefix_len,
    }
}

// Why an item that is refused is.
#[cold]
pub fn why_item_unchecked(rest: &[u8]) -> RtcpParseError
    requires { value_in (read_item rest.now) ≡ None }
    ensures { refused (parse_refusal result) ≡ read_item rest.now }
{
    if rest.len() < 2 {
        return RtcpParseError::Truncated {
            expected: 4,
            actual: rest.len(),
        };
    }
    let length = usize::from(rest[1]);
    if rest.len() - 2 < length {
        return RtcpParseError::Truncated {
            expected: 2 + length,
            actual: rest.len(),
        };
    }
    if length == 0 {
        return RtcpParseError::Truncated {
            expected: 3,
            actual: 2,
        };
    }
    let len = usize::from(rest[2]);
    let available = length - 1;
    RtcpParseError::SdesPrivPrefixTooLarge { len, available }
}

// The test that an item is a CNAME.
pub fn is_cname(type_: u8, length: usize) -> bool
    ensures { result ≡ is_cname type_ length }
{
    type_ == SdesItem::CNAME
}

impl SdesItem {
    pub const CNAME: u8 = 1;

    pub const NAME: u8 = 2;

    pub const EMAIL: u8 = 3;

    pub const PHONE: u8 = 4;

    pub const LOC: u8 = 5;

    pub const TOOL: u8 = 6;

    pub const NOTE: u8 = 7;

    pub const PRIV: u8 = 8;

    // The item at the start of the rest of a chunk.
    pub fn parse(rest: &[u8]) -> Result<SdesItem, RtcpParseError>
        ensures { parsed_of result ≡ map_ok item_first (read_item rest.now) }
    {
        match item_size(rest) {
            Some(_) => Ok(item_of_unchecked(rest)),
            None => Err(why_item_unchecked(rest)),
        }
    }

    // The test that an item is a CNAME.
    pub fn is_cname(self) -> bool
        ensures { result ≡ is_cname self.type_ self.length }
    {
        is_cname(self.type_, self.length)
    }

    // The value, of the bytes that the item was parsed from.
    pub fn value(self, rest: &[u8]) -> &[u8]
        ensures { result.now ≡ take (value_len self) (drop (value_start self) rest.now) }
    {
        let type_ = self.type_;
        let length = self.length;
        let prefix_len = self.prefix_len;
        if type_ != SdesItem::PRIV {
            return parser::part(rest, 2, length);
        }
        if length <= prefix_len {
            return parser::part(rest, 0, 0);
        }
        let len = length - 1 - prefix_len;
        let start = 3 + prefix_len.min(rest.len());
        parser::part(rest, start, len)
    }

    // The prefix of the item at the start of the rest.
    pub fn priv_prefix(rest: &[u8]) -> Result<&[u8], RtcpParseError>
        ensures { part_of result ≡ read_prefix rest.now }
    {
        let Some(_) = item_size(rest) else {
            return Err(why_item_unchecked(rest));
        };
        let item = item_of_unchecked(rest);
        let type_ = item.type_;
        if type_ != SdesItem::PRIV {
            return Err(RtcpParseError::NotPriv(type_));
        }
        let end = 3 + item.prefix_len;
        Ok(&rest[3..end])
    }
}
