// The compound writer. Its state is four numbers that the caller keeps and lends at each call, with the buffer: the length so far, and three flags
// (padded, cname, closed), set where they are not 0. Later numbers may be added behind them: a caller never looks into the state.
ghost use Rattle.std.specs.Prelude.{◌≡◌, []};
ghost use Rattle.rfc3550.specs.Packet.{receiver, sender};
ghost use Rattle.rfc3550.specs.Write.{give_report, give_sdes, give_bye, give_app};
ghost use Rattle.rfc3550.specs.Writer.{fresh, add, close, call};
ghost use Rattle.utils.specs.Writer.{written_of};
ghost use Rattle.report_write.specs.Report.{block_lists};
ghost use Rattle.sdes_write.specs.Packets.{lists};
ghost use Rattle.compound_write.specs.Writer.{writer_of, call_of};
ghost use Rattle.rtcp.specs.WriteCompound.{writer_in, writer_out, call_result, call_with_state, call_with_buffer};

use super::refusal::refused;
use app::write::AppBuilder;
use bye::write::ByeBuilder;
use chunk_write::chunks::ItemLists;
use compound_write::writer::{Call, Writer};
use report_write::receiver::{ReceiverInfo, ReceiverReportBuilder};
use report_write::report_block::BlockLists;
use report_write::sender::{SenderInfo, SenderReportBuilder};
use sdes_write::SdesBuilder;
use utils::error::RtcpWriteError;

// What a call answers: 0, or the refusal and its details, which leaves the writer and the buffer as they were.
#[repr(C)]
#[derive(Clone, Copy, Default)]
pub struct RtcpCall {
    pub number: u64,
    pub first: u64,
    pub second: u64,
}

// No From, as in writer_out: neither type is of this crate.
pub fn writer_in(state: &[u64; 4]) -> Writer
    ensures { writer_of result ≡ writer_in state.now }
{
    Writer {
        len: state[0] as usize,
        padded: 0 < state[1],
        cname: 0 < state[2],
        closed: 0 < state[3],
    }
}

fn writer_out(state: &mut [u64; 4], writer: Writer)
    ensures { state.new ≡ writer_out (writer_of writer) }
{
    let padded = u64::from(writer.padded);
    let cname = u64::from(writer.cname);
    let closed = u64::from(writer.closed);
    *state = [writer.len as u64, padded, cname, closed];
}

impl From<Result<(), RtcpWriteError>> for RtcpCall {
    ghost from_gives = { λ w r. r ≡ call_result (written_of w) };

    fn from(answer: Result<(), RtcpWriteError>) -> RtcpCall {
        match answer {
            Ok(()) => RtcpCall::default(),
            Err(e) => refused!(RtcpCall, e),
        }
    }
}

// The answer of a call; the state is that of the writer after it, on a refusal as it was.
fn hand_on(state: &mut [u64; 4], call: Call) -> RtcpCall
    ensures { (result, state.new) ≡ call_with_state state.old (call_of call) }
{
    if call.answer.is_ok() {
        writer_out(state, call.writer);
    }
    RtcpCall::from(call.answer)
}

pub fn rtcp_writer_new(writer: &mut [u64; 4])
    ensures { writer.new ≡ writer_out fresh }
{
    writer_out(writer, Writer::new());
}

pub fn rtcp_writer_add_rr(
    writer: &mut [u64; 4],
    buf: &mut [u8],
    ssrc: u32,
    fractions: &[u8],
    losses: &[i32],
    words: &[u32],
    padding: u64,
) -> RtcpCall
    ensures { (result, writer.new, buf.new) ≡ call_with_buffer writer.old (call (add (give_report (receiver ssrc) (block_lists fractions.now losses.now words.now) padding)) (writer_in writer.old) buf.old) }
{
    let w = writer_in(writer);
    let blocks = BlockLists {
        fractions,
        losses,
        words,
    };
    let rr = ReceiverReportBuilder {
        reporter: ReceiverInfo { ssrc },
        blocks,
        padding,
    };
    hand_on(writer, w.add(buf, rr))
}

pub fn rtcp_writer_add_sr(
    writer: &mut [u64; 4],
    buf: &mut [u8],
    ssrc: u32,
    ntp_timestamp: u64,
    rtp_timestamp: u32,
    packet_count: u32,
    octet_count: u32,
    fractions: &[u8],
    losses: &[i32],
    words: &[u32],
    padding: u64,
) -> RtcpCall
    ensures { (result, writer.new, buf.new) ≡ call_with_buffer writer.old (call (add (give_report (sender ssrc ntp_timestamp rtp_timestamp packet_count octet_count) (block_lists fractions.now losses.now words.now) padding)) (writer_in writer.old) buf.old) }
{
    let w = writer_in(writer);
    let reporter = SenderInfo {
        ssrc,
        ntp_timestamp,
        rtp_timestamp,
        packet_count,
        octet_count,
    };
    let blocks = BlockLists {
        fractions,
        losses,
        words,
    };
    let sr = SenderReportBuilder {
        reporter,
        blocks,
        padding,
    };
    hand_on(writer, w.add(buf, sr))
}

pub fn rtcp_writer_add_sdes(
    writer: &mut [u64; 4],
    buf: &mut [u8],
    ssrcs: &[u32],
    counts: &[u64],
    types: &[u8],
    prefixes: &[u64],
    values: &[u64],
    bytes: &[u8],
    padding: u64,
) -> RtcpCall
    ensures { (result, writer.new, buf.new) ≡ call_with_buffer writer.old (call (add (give_sdes (lists ssrcs.now counts.now types.now prefixes.now values.now bytes.now) padding)) (writer_in writer.old) buf.old) }
{
    let w = writer_in(writer);
    let items = ItemLists {
        types,
        prefixes,
        values,
        bytes,
    };
    let sdes = SdesBuilder {
        ssrcs,
        counts,
        items,
        padding,
    };
    hand_on(writer, w.add(buf, sdes))
}

pub fn rtcp_writer_add_bye(
    writer: &mut [u64; 4],
    buf: &mut [u8],
    sources: &[u32],
    reason: &[u8],
    padding: u64,
) -> RtcpCall
    ensures { (result, writer.new, buf.new) ≡ call_with_buffer writer.old (call (add (give_bye sources.now reason.now padding)) (writer_in writer.old) buf.old) }
{
    let w = writer_in(writer);
    let bye = ByeBuilder {
        sources,
        reason,
        padding,
    };
    hand_on(writer, w.add(buf, bye))
}

pub fn rtcp_writer_add_app(
    writer: &mut [u64; 4],
    buf: &mut [u8],
    subtype: u64,
    ssrc: u32,
    name: &[u8],
    data: &[u8],
    padding: u64,
) -> RtcpCall
    ensures { (result, writer.new, buf.new) ≡ call_with_buffer writer.old (call (add (give_app subtype ssrc name.now «data».now padding)) (writer_in writer.old) buf.old) }
{
    let w = writer_in(writer);
    let app = AppBuilder {
        subtype,
        ssrc,
        name,
        data,
        padding,
    };
    hand_on(writer, w.add(buf, app))
}

pub fn rtcp_writer_close(writer: &mut [u64; 4]) -> RtcpCall
    ensures { (result, writer.new, []) ≡ call_with_buffer writer.old (call close (writer_in writer.old) []) }
{
    let w = writer_in(writer);
    hand_on(writer, w.close())
}
