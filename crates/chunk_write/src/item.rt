// SDES items, written (sdes.rs, `SdesItemBuilder`).
#![tactic(auto, using(crate::proofs::Items::items))]

ghost use Rattle.std.specs.Prelude.{◌≡◌, ◌&&◌, not, ◌+◌, ◌≤◌, None, eqb, length, take, drop};
ghost use Rattle.rfc3550.specs.Answer.{refused};
ghost use Rattle.rfc3550.specs.Bytes.{store};
ghost use Rattle.rfc3550.specs.Packet.{priv, item, item_bytes};
ghost use Rattle.rfc3550.specs.Write.{item_given, item_size};
ghost use Rattle.utils.specs.Error.{value_in, write_refusal};
ghost use Rattle.utils.specs.Writer.{written_of};
ghost use Rattle.chunk_write.specs.Sizes.{lent, size_of, priv_head};

use crate::lone_writer::LoneWriter;
use sdes_chunk::item::SdesItem;
use utils::error::RtcpWriteError;
use utils::writer;

// What the length of an item states; of a PRIV item one byte less is prefix and value.
const MAX_VALUE_LEN: u64 = 255;

const MAX_PRIV_LEN: u64 = 254;

// Neither 0 nor PRIV: behind its length such an item has its value alone.
fn has_value_alone(item_type: u8) -> bool
    ensures { result ≡ (not (eqb item_type 0) && not (eqb item_type 8)) }
{
    if item_type == 0 {
        return false;
    }
    item_type != SdesItem::PRIV
}

// The size of an item of a type and two lengths; None where it is refused. By three numbers: a struct of them would be made at each place to be taken
// apart there.
pub fn size_of_lengths(item_type: u8, prefix_len: u64, value_len: u64) -> Option<usize>
    ensures { result ≡ value_in (size_of item_type prefix_len value_len) }
{
    if has_value_alone(item_type) {
        if MAX_VALUE_LEN < value_len {
            return None;
        }
        return Some((2 + value_len) as usize);
    }
    if item_type == 0 {
        return None;
    }
    if MAX_PRIV_LEN < prefix_len {
        return None;
    }
    if MAX_PRIV_LEN - prefix_len < value_len {
        return None;
    }
    Some((3 + prefix_len + value_len) as usize)
}

// Why an item that has no size is refused.
#[cold]
pub fn why_lengths_unchecked(item_type: u8, prefix_len: u64, value_len: u64) -> RtcpWriteError
    requires { value_in (size_of item_type prefix_len value_len) ≡ None }
    ensures { refused (write_refusal result) ≡ size_of item_type prefix_len value_len }
{
    if item_type == 0 {
        return RtcpWriteError::ItemTypeZero;
    }
    if item_type != SdesItem::PRIV {
        return RtcpWriteError::SdesValueTooLarge {
            len: value_len as usize,
            max: MAX_VALUE_LEN as u8,
        };
    }
    if MAX_PRIV_LEN < prefix_len {
        return RtcpWriteError::SdesPrivPrefixTooLarge {
            len: prefix_len as usize,
            max: MAX_PRIV_LEN as u8,
        };
    }
    let max = MAX_PRIV_LEN - prefix_len;
    RtcpWriteError::SdesValueTooLarge {
        len: value_len as usize,
        max: max as u8,
    }
}

// The size of an item of a type and two lengths, or why it is refused.
#[tactic(auto, using(utils::proofs::Values::values))]
pub fn check_lengths(
    item_type: u8,
    prefix_len: u64,
    value_len: u64,
) -> Result<usize, RtcpWriteError>
    ensures { written_of result ≡ size_of item_type prefix_len value_len }
{
    match size_of_lengths(item_type, prefix_len, value_len) {
        Some(size) => Ok(size),
        None => Err(why_lengths_unchecked(item_type, prefix_len, value_len)),
    }
}

// Lays what stands before the prefix and the value of a PRIV item.
fn write_priv_head(buf: &mut [u8], prefix_len: usize, text_len: usize)
    requires { (prefix_len ≤ text_len) × (text_len ≤ 254) × (3 ≤ length buf.old) }
    ensures { buf.new ≡ store 0 (priv_head prefix_len text_len) buf.old }
{
    buf[0] = SdesItem::PRIV;
    buf[1] = (1 + text_len) as u8;
    buf[2] = prefix_len as u8;
}

fn write_priv(buf: &mut [u8], prefix: &[u8], value: &[u8])
    requires { (length prefix.now + length value.now ≤ 254) × (3 + length prefix.now + length value.now ≤ length buf.old) }
    ensures { buf.new ≡ store 0 (item_bytes (priv prefix.now value.now)) buf.old }
{
    let p = prefix.len();
    write_priv_head(buf, p, p + value.len());
    writer::write_bytes_unchecked(buf, 3, prefix);
    writer::write_bytes_unchecked(buf, 3 + p, value);
}

// Lays a PRIV item whose prefix and value stand side by side.
pub fn write_priv_text_unchecked(buf: &mut [u8], prefix_len: usize, text: &[u8])
    requires { (prefix_len ≤ length text.now) × (length text.now ≤ 254) × (3 + length text.now ≤ length buf.old) }
    ensures { buf.new ≡ store 0 (item_bytes (priv (take prefix_len text.now) (drop prefix_len text.now))) buf.old }
{
    write_priv_head(buf, prefix_len, text.len());
    writer::write_bytes_unchecked(buf, 3, text);
}

// Lays an item that is not PRIV.
pub fn write_other_unchecked(buf: &mut [u8], item_type: u8, value: &[u8])
    requires { (length value.now ≤ 255) × (2 + length value.now ≤ length buf.old) }
    ensures { buf.new ≡ store 0 (item_bytes (item item_type value.now)) buf.old }
{
    buf[0] = item_type;
    buf[1] = value.len() as u8;
    writer::write_bytes_unchecked(buf, 2, value);
}

// What an item is written of: a PRIV item of its prefix and its value, any other of its value alone.
#[derive(Clone, Copy)]
pub struct SdesItemBuilder<'a> {
    pub type_: u8,
    pub prefix: &'a [u8],
    pub value: &'a [u8],
}

impl<'a> LoneWriter for SdesItemBuilder<'a> {
    ghost size = { λ i. item_size (lent i.type_ i.prefix.now i.value.now) };

    ghost bytes = { λ i. item_bytes (item_given (lent i.type_ i.prefix.now i.value.now)) };

    #[inline(always)]
    fn size_of(self) -> Option<usize> {
        let prefix_len = self.prefix.len() as u64;
        let value_len = self.value.len() as u64;
        size_of_lengths(self.type_, prefix_len, value_len)
    }

    #[inline(always)]
    fn why_size_unchecked(self) -> RtcpWriteError {
        let prefix_len = self.prefix.len() as u64;
        let value_len = self.value.len() as u64;
        why_lengths_unchecked(self.type_, prefix_len, value_len)
    }

    #[inline(always)]
    fn write_into_unchecked(self, buf: &mut [u8]) {
        if self.type_ == SdesItem::PRIV {
            write_priv(buf, self.prefix, self.value);
            return;
        }
        write_other_unchecked(buf, self.type_, self.value);
    }
}
