// The chunks of lent lists, one after the other: one SSRC and one item count for each chunk; for each item a type, a prefix length and a
// value length; one run of bytes, item by item, prefix then value.
ghost use Rattle.std.specs.Prelude.{◌≡◌, ◌+◌, ◌-◌, ◌<◌, ◌≤◌, eqb, length, MatchOption};
ghost use Rattle.rfc3550.specs.Answer.{refused};
ghost use Rattle.rfc3550.specs.Bytes.{sum, store};
ghost use Rattle.utils.specs.Error.{write_refusal};
ghost use Rattle.chunk_write.specs.Sizes.{at_most, chunks_end, ItemsMeasured, ChunksMeasured};
ghost use Rattle.chunk_write.specs.Lists.{agree_in, listed_in, refused_in, items_end_in, chunks_end_in, FirstItems, LaterItems, PartFits, PartLaid, ItemsFitIn, ItemsLaidIn, ChunkFitsIn, ChunkLaidIn, laid_in, ChunksFitIn};

use crate::item;
use sdes_chunk::chunk::word_boundary_unchecked;
use sdes_chunk::item::SdesItem;
use utils::error::RtcpWriteError;
use utils::writer;

// The lists of items, side by side as C lends them: there is no heap to put them together in.
#[derive(Clone, Copy)]
pub struct ItemLists<'a> {
    pub types: &'a [u8],
    pub prefixes: &'a [u64],
    pub values: &'a [u64],
    pub bytes: &'a [u8],
}

impl<'a> ItemLists<'a> {
    // The first so many items; the bytes stay whole.
    #[inline(always)]
    fn first_unchecked(self, count: usize) -> ItemLists<'a>
        requires { (count ≤ length self.types.now) × listed_in self }
        ensures { FirstItems count self.entry result }
    {
        ItemLists {
            types: &self.types[..count],
            prefixes: &self.prefixes[..count],
            values: &self.values[..count],
            bytes: self.bytes,
        }
    }

    // The items after these.
    #[inline(always)]
    fn after_unchecked(self, count: usize) -> ItemLists<'a>
        requires { (count ≤ length self.types.now) × listed_in self }
        ensures { LaterItems count self.entry result }
    {
        ItemLists {
            types: &self.types[count..],
            prefixes: &self.prefixes[count..],
            values: &self.values[count..],
            bytes: self.bytes,
        }
    }
}

// What the numbers leave of a total; None where they sum to more.
#[tactic(auto, using(crate::proofs::Sizes::sums))]
fn left_of(total: u64, xs: &[u64]) -> Option<u64>
    ensures { MatchOption result (total < sum xs.now) (λ left. left + sum xs.now ≡ total) }
{
    let mut left = total;
    for x in xs {
        left = left.checked_sub(*x)?;
    }
    Some(left)
}

// Whether the numbers sum to the total.
#[tactic(auto, using(crate::proofs::Sizes::sums))]
pub fn sum_is(xs: &[u64], total: u64) -> bool
    ensures { result ≡ eqb (sum xs.now) total }
{
    left_of(total, xs) == Some(0)
}

// The same for the numbers of two lists.
#[tactic(auto, using(crate::proofs::Sizes::sums))]
fn sums_are(prefixes: &[u64], values: &[u64], total: u64) -> bool
    ensures { result ≡ eqb (sum prefixes.now + sum values.now) total }
{
    left_of(total, prefixes).is_some_and(|left| sum_is(values, left))
}

// The lists of items have one length, and the lengths that they hold sum to the bytes.
#[tactic(auto, using(crate::proofs::Sizes::sums))]
pub fn items_agree(items: ItemLists) -> bool
    ensures { result ≡ agree_in items.entry }
{
    if items.types.len() != items.prefixes.len() {
        return false;
    }
    if items.types.len() != items.values.len() {
        return false;
    }
    sums_are(items.prefixes, items.values, items.bytes.len() as u64)
}

// Why the first refused item is refused, or that all are too large together.
#[cold]
#[tactic(auto, using(crate::proofs::Sizes::asking))]
pub fn why_items_unchecked(items: ItemLists) -> RtcpWriteError
    requires { listed_in items }
    ensures { refused (write_refusal result) ≡ refused_in items.entry }
{
    for (i, item_type) in items.types.iter().enumerate() {
        let p = items.prefixes[i];
        let v = items.values[i];
        if let Err(why) = item::check_lengths(*item_type, p, v) {
            return why;
        }
    }
    RtcpWriteError::PacketTooLarge
}

// The index after some items, and how many bytes are left after theirs.
#[derive(Clone, Copy)]
pub struct ItemsEnd {
    pub end: usize,
    pub left: u64,
}

// The end of the items, if they start at index at; None where an item is refused or takes more bytes than are left.
#[tactic(auto, using(crate::proofs::Sizes::ending))]
fn items_end(at: usize, bytes_left: u64, items: ItemLists) -> Option<ItemsEnd>
    requires { ItemsMeasured at bytes_left items.types.now items.prefixes.now items.values.now }
    ensures { result ≡ items_end_in at bytes_left items.entry }
{
    let mut end = at;
    let mut left = bytes_left;
    for (i, item_type) in items.types.iter().enumerate() {
        let p = items.prefixes[i];
        let v = items.values[i];
        let size = item::size_of_lengths(*item_type, p, v)?;
        left = left.checked_sub(p)?.checked_sub(v)?;
        end += size;
    }
    Some(ItemsEnd { end, left })
}

// The index after the chunks, if they start at index start; None where an item is refused, the lists disagree or that index is past the limit. By the
// number of the bytes, and not by what is lent of them: a caller may have the lengths alone.
#[tactic(auto, using(crate::proofs::Sizes::counting))]
pub fn chunks_end_of_lengths_unchecked(
    start: usize,
    limit: usize,
    counts: &[u64],
    items: ItemLists,
    bytes_len: usize,
) -> Option<usize>
    requires { ChunksMeasured start counts.now items.types.now items.prefixes.now items.values.now bytes_len }
    ensures { result ≡ at_most limit (chunks_end start bytes_len counts.now items.entry.types.now items.entry.prefixes.now items.entry.values.now) }
{
    let mut at = start;
    let mut left = bytes_len as u64;
    let mut rest = items;
    for count in counts {
        let c = *count as usize;
        if rest.types.len() < c {
            return None;
        }
        let here = items_end(at + 4, left, rest.first_unchecked(c))?;
        at = word_boundary_unchecked(here.end);
        left = here.left;
        rest = rest.after_unchecked(c);
    }
    if rest.types.len() != 0 {
        return None;
    }
    if left != 0 {
        return None;
    }
    if limit < at {
        return None;
    }
    Some(at)
}

// The same where the bytes are lent.
pub fn chunks_end_unchecked(
    start: usize,
    limit: usize,
    counts: &[u64],
    items: ItemLists,
) -> Option<usize>
    requires { ChunksMeasured start counts.now items.types.now items.prefixes.now items.values.now (length items.bytes.now) }
    ensures { result ≡ at_most limit (chunks_end_in start counts.now items.entry) }
{
    chunks_end_of_lengths_unchecked(start, limit, counts, items, items.bytes.len())
}

// Lays the item whose bytes start at index from, at index at, and returns its size.
#[tactic(auto, using(crate::proofs::Laying::parts))]
fn write_item_at(
    buf: &mut [u8],
    at: usize,
    item_type: u8,
    bytes: &[u8],
    from: usize,
    prefix_len: usize,
    value_len: usize,
) -> usize
    requires { PartFits item_type prefix_len value_len from (length bytes.now) at (length buf.old) }
    ensures { PartLaid item_type prefix_len value_len from bytes.now at buf.old result buf.new }
{
    let middle = from + prefix_len;
    let end = middle + value_len;
    if item_type == SdesItem::PRIV {
        item::write_priv_text_unchecked(&mut buf[at..], prefix_len, &bytes[from..end]);
        return 3 + prefix_len + value_len;
    }
    item::write_other_unchecked(&mut buf[at..], item_type, &bytes[middle..end]);
    2 + value_len
}

// The items from the first up to the last-th, whose bytes start at index from. By their indices in the whole lists: so a packet's chunks are laid
// without a part of each list for each chunk.
#[derive(Clone, Copy)]
struct ItemRange {
    first: usize,
    last: usize,
    from: usize,
}

// The index after what was laid, and the index after the lent bytes that it took.
#[derive(Clone, Copy)]
pub struct LaidEnd {
    pub end: usize,
    pub taken: usize,
}

// Lays the items of the range from index to on.
#[tactic(auto, using(crate::proofs::Laying::ranges))]
fn write_items(buf: &mut [u8], to: usize, items: ItemLists, range: ItemRange) -> LaidEnd
    requires { (to ≤ length buf.old) × ItemsFitIn items range (length buf.old - to) }
    ensures { ItemsLaidIn to items.entry range buf.old result buf.new }
{
    let mut end = to;
    let mut taken = range.from;
    for i in range.first..range.last {
        let p = items.prefixes[i] as usize;
        let v = items.values[i] as usize;
        end += write_item_at(buf, end, items.types[i], items.bytes, taken, p, v);
        taken = taken + p + v;
    }
    LaidEnd { end, taken }
}

// Lays the chunk of such items at the start of buf.
#[tactic(auto, using(crate::proofs::Laying::chunks))]
fn write_chunk(buf: &mut [u8], ssrc: u32, items: ItemLists, range: ItemRange) -> LaidEnd
    requires { ChunkFitsIn items range (length buf.old) }
    ensures { ChunkLaidIn ssrc items.entry range buf.old result buf.new }
{
    writer::write_u32_unchecked(buf, 0, ssrc);
    let laid = write_items(buf, 4, items, range);
    writer::write_fill_unchecked(buf, laid.end);
    LaidEnd {
        end: word_boundary_unchecked(laid.end),
        taken: laid.taken,
    }
}

// Lays the chunks of lists that have a size, from index start on, each into the part of buf from its start on.
#[tactic(auto, using(crate::proofs::Laying::chunking))]
pub fn write_chunks_unchecked(
    buf: &mut [u8],
    start: usize,
    ssrcs: &[u32],
    counts: &[u64],
    items: ItemLists,
)
    requires { ChunksFitIn start ssrcs.now counts.now items (length buf.old) }
    ensures { buf.new ≡ store start (laid_in ssrcs.now counts.now items.entry) buf.old }
{
    let mut first: usize = 0;
    let mut from: usize = 0;
    let mut at = start;
    for (k, ssrc) in ssrcs.iter().enumerate() {
        let last = first + counts[k] as usize;
        let range = ItemRange { first, last, from };
        let laid = write_chunk(&mut buf[at..], *ssrc, items, range);
        at += laid.end;
        from = laid.taken;
        first = last;
    }
}

#[cfg(test)]
mod tests {
    use super::*;

    // The chunk of a CNAME of two bytes takes 12, and one without an item 8.
    #[test]
    fn chunks_end_after_their_closing_zeros(rt: HostRuntime) {
        let (counts, types, prefixes, values) = ([1u64, 0], [1u8], [0u64], [2u64]);
        let items = ItemLists {
            types: &types,
            prefixes: &prefixes,
            values: &values,
            bytes: b"ab",
        };
        assert_eq!(rt; chunks_end_unchecked(4, 16, &counts[..1], items), Some(16));
        assert_eq!(rt; chunks_end_unchecked(4, 24, &counts, items), Some(24));
        assert_eq!(rt; chunks_end_unchecked(4, 23, &counts, items), None);
        // an item of no chunk, and bytes left over
        assert_eq!(rt; chunks_end_unchecked(4, 24, &counts[1..], items), None);
        let over = items.after_unchecked(1);
        assert_eq!(rt; chunks_end_unchecked(4, 24, &counts[1..], over), None);
    }

    #[test]
    fn lists_without_an_item_end_too(rt: HostRuntime) {
        let none = ItemLists {
            types: &[],
            prefixes: &[],
            values: &[],
            bytes: &[],
        };
        assert_eq!(rt; chunks_end_unchecked(4, 4, &[], none), Some(4));
        assert_eq!(rt; chunks_end_unchecked(4, 20, &[0u64, 0], none), Some(20));
        assert_eq!(rt; chunks_end_unchecked(4, 3, &[], none), None);
    }
}
