// Rows that read: the C function, then its answer's fields in their order.
ghost use Rattle.std.specs.Prelude.{◌≡◌, take, drop};

use super::answer::Answer;
use super::operation::{Part, Reading};
use super::print::bytes;
use super::row::Row;
use app::App;
use bye::Bye;
use compound::unknown::Unknown;
use report::receiver::ReceiverReport;
use report::report::Report;
use report::sender::SenderReport;
use rtcp::{read_app, read_bye, read_compound, read_report, read_sdes};
use sdes::sdes::Sdes;
use sdes_chunk::item::SdesItem;
use std::io;
use utils::packet_parser::RtcpPacketParser;

fn value(to: &mut Vec<u8>, s: &[u8]) -> io::Result<()> {
    let parsed = SdesItem::parse(s);
    let Ok(item) = parsed else {
        return bytes(to, b"");
    };
    bytes(to, item.value(s))
}

fn prefix(to: &mut Vec<u8>, s: &[u8]) -> io::Result<()> {
    bytes(to, SdesItem::priv_prefix(s).unwrap_or_default())
}

// A part of what is read; of a packet that is refused, no byte.
macro_rules! shown {
    ($to:ident, $kind:ident, $part:ident, $s:ident) => {
        bytes($to, $kind::read($s).map(|it| it.$part($s)).unwrap_or_default())
    };
}

// An APP's name by its place, whatever the packet: of one that is refused, bytes 8 to 11 too, as many of them as it has.
fn app_name(s: &[u8]) -> &[u8]
    ensures { result.now ≡ take 4 (drop 8 s.now) }
{
    utils::parser::part(s, App::NAME, App::NAME_LEN)
}

pub fn part(to: &mut Vec<u8>, part: Part, s: &[u8]) -> io::Result<()> {
    match part {
        Part::RrExtension => shown!(to, ReceiverReport, extension, s),
        Part::RrPadding => shown!(to, ReceiverReport, padding_bytes, s),
        Part::SrExtension => shown!(to, SenderReport, extension, s),
        Part::SrPadding => shown!(to, SenderReport, padding_bytes, s),
        Part::AppName => bytes(to, app_name(s)),
        Part::AppData => shown!(to, App, data, s),
        Part::AppPadding => shown!(to, App, padding_bytes, s),
        Part::ByeReason => shown!(to, Bye, reason, s),
        Part::ByeTail => shown!(to, Bye, tail, s),
        Part::ByePadding => shown!(to, Bye, padding_bytes, s),
        Part::SdesPadding => shown!(to, Sdes, padding_bytes, s),
        Part::UnknownBody => shown!(to, Unknown, body_bytes, s),
        Part::UnknownPadding => shown!(to, Unknown, padding_bytes, s),
        Part::ItemValue => value(to, s),
        Part::ItemPrefix => prefix(to, s),
    }
}

pub fn row(to: &mut Vec<u8>, reading: Reading, row: &Row) -> io::Result<()> {
    let s = row.bytes();
    let at: u64 = row.number(0);
    match reading {
        Reading::BlockParse => read_report::rtcp_block_parse(s).print(to),
        Reading::RrReportBlock => read_report::rtcp_rr_report_block(s, at).print(to),
        Reading::SrReportBlock => read_report::rtcp_sr_report_block(s, at).print(to),
        Reading::RrParse => read_report::rtcp_rr_parse(s).print(to),
        Reading::SrParse => read_report::rtcp_sr_parse(s).print(to),
        Reading::AppParse => read_app::rtcp_app_parse(s).print(to),
        Reading::ByeParse => read_bye::rtcp_bye_parse(s).print(to),
        Reading::ByeSource => read_bye::rtcp_bye_source(s, at).print(to),
        Reading::SdesParse => read_sdes::rtcp_sdes_parse(s).print(to),
        Reading::ItemParse => read_sdes::rtcp_item_parse(s).print(to),
        Reading::ItemPrivPrefix => read_sdes::rtcp_item_priv_prefix(s).print(to),
        Reading::ChunkParse => read_sdes::rtcp_chunk_parse(s).print(to),
        Reading::ChunkWalkOpen => read_sdes::rtcp_chunk_walk_open(s).print(to),
        Reading::ChunkWalkStep => {
            read_sdes::rtcp_chunk_walk_step(s, at, row.number(1)).print(to)
        }
        Reading::ItemWalkOpen => read_sdes::rtcp_item_walk_open(s).print(to),
        Reading::ItemWalkStep => read_sdes::rtcp_item_walk_step(s, at).print(to),
        Reading::CompoundParse => read_compound::rtcp_compound_parse(s).print(to),
        Reading::WalkOpen => read_compound::rtcp_walk_open(s).print(to),
        Reading::WalkStep => read_compound::rtcp_walk_step(s, at).print(to),
    }
}
