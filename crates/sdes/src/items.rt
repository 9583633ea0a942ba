// The chunks and items of a source description, all at once: a walk by calls checks the packet again at each level.
#![tactic(auto, using(crate::proofs::ItemTurns::rows))]

ghost use Rattle.std.specs.Prelude.{◌≡◌, None, ℕ, ◌+◌, ◌<◌, ◌≤◌, length, get_or};
ghost use Rattle.rfc3550.specs.Answer.{map_ok};
ghost use Rattle.rfc3550.specs.Bytes.{store};
ghost use Rattle.rfc3550.specs.Read.{SDES, read_as};
ghost use Rattle.utils.specs.List.{listed_of, lay_list};
ghost use Rattle.sdes_chunk.specs.Item.{step_end};
ghost use Rattle.sdes.specs.ItemRows.{sdes_rows};
ghost use Rattle.sdes.specs.ItemPlaces.{chunk_place, HasRow, RowsAt, place_after, row_at, row_of, Needed, RoomFor, LaidUpTo, ItemsLaid, AllLaid};

use super::sdes::Sdes;
use sdes_chunk::item::SdesItem;
use sdes_chunk::{chunk, item};
use utils::list::ListError;
use utils::packet_parser::RtcpPacketParser;
use utils::parser;

// How many numbers a row has.
pub const ITEM_ROW: usize = 5;

// The numbers of one row.
#[derive(Clone, Copy)]
struct Row {
    ssrc: u32,
    type_: u32,
    value: u32,
    prefix_len: u32,
    value_len: u32,
}

// The body of an accepted packet, which has at most 65536 words of four bytes.
#[derive(Clone, Copy)]
struct Body<'a> {
    bytes: &'a [u8],
    ghost short: { length bytes.now ≤ 262144 },
}

// A place where an item stands, or the zero that ends a chunk's items, and the SSRC of the chunk.
#[derive(Clone, Copy)]
struct Place {
    ssrc: u32,
    at: usize,
}

// The first place of the chunk that starts here. Behind the last chunk there is no SSRC, and none is asked for: a place there ends the walk.
fn chunk_place(body: &[u8], start: usize) -> Place
    requires { start ≤ 262148 }
    ensures { result ≡ chunk_place body.now start }
{
    let at = start + 4;
    if body.len() <= at {
        return Place { ssrc: 0, at };
    }
    let ssrc = parser::u32_from_be_bytes(body, start);
    Place { ssrc, at }
}

// The place of the next row.
fn after(body: Body, place: Place) -> Place
    requires { HasRow body.bytes.now place.at }
    ensures { result ≡ place_after body.entry.bytes.now place }
{
    let at = place.at;
    let Some(end) = item::item_end(body.bytes, at) else {
        return chunk_place(body.bytes, chunk::word_boundary_unchecked(at));
    };
    Place {
        ssrc: place.ssrc,
        at: end,
    }
}

// The row of an item, which is read from the part that starts with it.
fn item_row(body: Body, place: Place) -> Row
    requires { step_end body.bytes.now place.at ≡ None → ⊥ }
    ensures { row_of result ≡ row_at body.entry.bytes.now place }
{
    let at = place.at;
    let item = item::item_of_unchecked(&body.bytes[at..]);
    let type_ = item.type_;
    let length = item.length;
    if type_ != SdesItem::PRIV {
        return Row {
            ssrc: place.ssrc,
            type_: type_ as u32,
            value: (at + 2) as u32,
            prefix_len: 0,
            value_len: length as u32,
        };
    }
    let prefix_len = item.prefix_len;
    Row {
        ssrc: place.ssrc,
        type_: type_ as u32,
        value: (at + 3 + prefix_len) as u32,
        prefix_len: prefix_len as u32,
        value_len: (length - 1 - prefix_len) as u32,
    }
}

fn write_row(rows: &mut [u32], i: usize, row: Row)
    requires { i + 5 ≤ length rows.old }
    ensures { rows.new ≡ store i (row_of row) rows.old }
{
    rows[i] = row.ssrc;
    rows[i + 1] = row.type_;
    rows[i + 2] = row.value;
    rows[i + 3] = row.prefix_len;
    rows[i + 4] = row.value_len;
}

// Lays the row of a zero that ends a chunk's items, and gives the first place of the next chunk.
fn lay_end(body: Body, place: Place, rows: &mut [u32], i: usize) -> Place
    requires { HasRow body.bytes.now place.at × (get_or body.bytes.now place.at 0 ≡ 0) × (i + 5 ≤ length rows.old) }
    ensures { (result ≡ place_after body.entry.bytes.now place) × (rows.new ≡ store i (row_at body.entry.bytes.now place) rows.old) }
{
    let at = place.at;
    let row = Row {
        ssrc: place.ssrc,
        type_: 0,
        value: at as u32,
        prefix_len: 0,
        value_len: 0,
    };
    write_row(rows, i, row);
    chunk_place(body.bytes, chunk::word_boundary_unchecked(at))
}

// How many rows there are.
fn count_rows(body: Body) -> usize
    requires { (n : ℕ) × RowsAt n body.bytes.now (chunk_place body.bytes.now 4) }
    ensures { (result ≤ 262144) × RowsAt result body.entry.bytes.now (chunk_place body.entry.bytes.now 4) }
{
    let mut place = chunk_place(body.bytes, Sdes::MIN_PACKET_LEN);
    let mut n = 0;
    // A while: how many rows there are is what it finds out.
    while place.at < body.bytes.len() {
        place = after(body, place);
        n += 1;
    }
    n
}

// How long the list has to be, where this room is too short. A row takes two bytes of the body at least: room for so many is enough, and spares the count.
fn needed(body: Body, room: usize) -> Option<usize>
    requires { (n : ℕ) × RowsAt n body.bytes.now (chunk_place body.bytes.now 4) }
    ensures { Needed body.entry.bytes.now room result }
{
    if body.bytes.len() / 2 * ITEM_ROW <= room {
        return None;
    }
    let size = count_rows(body) * ITEM_ROW;
    if size <= room {
        return None;
    }
    Some(size)
}

// The place of the next row, and its index in the list.
#[derive(Clone, Copy)]
struct Next {
    place: Place,
    i: usize,
}

// Lays the rows of a chunk's items, up to the zero that ends them.
fn lay_items(body: Body, first: Next, rows: &mut [u32]) -> Next
    requires { (first.place.at < length body.bytes.now) × RoomFor body.bytes.now first.place rows.old first.i }
    ensures { (get_or body.entry.bytes.now result.place.at 0 ≡ 0) × ItemsLaid body.entry.bytes.now first.place first.i rows.old result.place result.i rows.new }
{
    let mut next = first;
    // A loop: how many items there are is what it finds out.
    loop {
        let Some(end) = item::item_end(body.bytes, next.place.at) else {
            return next;
        };
        write_row(rows, next.i, item_row(body, next.place));
        next.place.at = end;
        next.i += ITEM_ROW;
    }
}

// Lays the rows of a chunk.
fn lay_chunk(body: Body, first: Next, rows: &mut [u32]) -> Next
    requires { (first.place.at < length body.bytes.now) × RoomFor body.bytes.now first.place rows.old first.i }
    ensures { (first.place.at < result.place.at) × LaidUpTo body.entry.bytes.now first.place first.i rows.old result.place result.i rows.new }
{
    let end = lay_items(body, first, rows);
    let place = lay_end(body, end.place, rows, end.i);
    Next {
        place,
        i: end.i + ITEM_ROW,
    }
}

// Lays the rows from the list's start on, and says how many numbers they are.
fn lay_rows(body: Body, rows: &mut [u32]) -> usize
    requires { RoomFor body.bytes.now (chunk_place body.bytes.now 4) rows.old 0 }
    ensures { AllLaid body.entry.bytes.now rows.old result rows.new }
{
    let mut next = Next {
        place: chunk_place(body.bytes, Sdes::MIN_PACKET_LEN),
        i: 0,
    };
    // A while: a chunk says where the next one starts.
    while next.place.at < body.bytes.len() {
        next = lay_chunk(body, next, rows);
    }
    next.i
}

// Five numbers for each item: the SSRC of its chunk, its type, the place of its value counted from the packet's start, the length of its
// prefix, which stands right before the value (PRIV; 0 otherwise), and the length of its value. After the items of each chunk a row of
// type 0 ends it: the SSRC, 0, the place of the zero that ends them, 0, 0. So a chunk without items has one row, and a packet without
// chunks none.
pub fn items(s: &[u8], rows: &mut [u32]) -> Result<usize, ListError>
    ensures { (listed_of result, rows.new) ≡ lay_list (map_ok sdes_rows (read_as SDES s.now)) rows.old }
{
    let sdes = Sdes::parse(s)?;
    let body = Body {
        bytes: &s[..sdes.body],
    };
    if let Some(size) = needed(body, rows.len()) {
        return Err(ListError::TooShort(size));
    }
    Ok(lay_rows(body, rows))
}
