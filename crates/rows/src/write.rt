// Rows that write, `ROOM PADDING ..` or `ROOM ..`: alone the size and the write, else a call of the compound writer.
// A list of a row is named by the place where it ends, among the row's numbers or among its bytes.
use super::answer::Answer;
use super::forms;
use super::operation::{Packet, Way, Writing};
use super::print::{bytes, numbers};
use super::row::{Row, SPACE};
use report_write::receiver::ReceiverInfo;
use report_write::sender::SenderInfo;
use rtcp::write_compound::RtcpCall;
use rtcp::{read_lookup, write_app, write_bye, write_compound, write_report, write_sdes};
use std::alloc::AllocError;
use std::io;

// A row, and what its call writes to: the text of the answers, the compound writer's four numbers as C has them, and a buffer. All but the row stay for the
// next call.
#[derive(Drop)]
pub struct Request<'row, 'to> {
    pub row: &'row Row,
    pub to: &'to mut Vec<u8>,
    pub writer: &'to mut [u64; 4],
    pub buf: &'to mut [u8],
}

// The blocks of a report as the C functions take them, and the padding.
#[derive(Drop)]
pub struct Blocks<'a> {
    pub fractions: &'a [u8],
    pub losses: Vec<i32>,
    pub words: Vec<u32>,
    pub padding: u64,
}

impl<'a> Blocks<'a> {
    // The losses begin at a place, and the words follow.
    fn of(row: &'a Row, losses: u64, words: u64, end: u64) -> Result<Blocks<'a>, AllocError> {
        Ok(Blocks {
            fractions: row.bytes(),
            losses: row.list(losses, words)?,
            words: row.list(words, end)?,
            padding: row.number(1),
        })
    }

    // `ROOM PADDING SSRC LOSSES WORDS`, then these; the bytes are the fractions. No From, here and below: it allocates.
    fn of_rr(row: &'a Row) -> Result<Blocks<'a>, AllocError> {
        Blocks::of(row, 5, row.number(3), row.number(4))
    }

    // `ROOM PADDING SSRC NTP RTP PACKETS OCTETS LOSSES WORDS`, then these.
    fn of_sr(row: &'a Row) -> Result<Blocks<'a>, AllocError> {
        Blocks::of(row, 9, row.number(7), row.number(8))
    }
}

fn sender_info(row: &Row) -> SenderInfo {
    SenderInfo {
        ssrc: row.number(2),
        ntp_timestamp: row.number(3),
        rtp_timestamp: row.number(4),
        packet_count: row.number(5),
        octet_count: row.number(6),
    }
}

fn make_stale(buf: &mut [u8]) {
    let stale = buf.len().min(SPACE);
    buf[..stale].fill(0x5A);
}

impl Request<'_, '_> {
    // What a call of the compound writer answers, and the writer after it.
    fn called(&mut self, call: RtcpCall) -> io::Result<()> {
        call.print(self.to)?;
        numbers(self.to, self.writer)
    }

    fn rr(&mut self, way: Way) -> io::Result<()> {
        let ssrc: u32 = self.row.number(2);
        let Blocks {
            fractions,
            losses,
            words,
            padding,
        } = Blocks::of_rr(self.row)?;
        match way {
            Way::Alone => {
                write_report::rtcp_rr_size(fractions, &losses, &words, padding).print(self.to)?;
                write_report::rtcp_rr_write(
                    self.buf, ssrc, fractions, &losses, &words, padding,
                ).print(self.to)
            }
            Way::Added => {
                let call = write_compound::rtcp_writer_add_rr(
                    self.writer,
                    self.buf,
                    ssrc,
                    fractions,
                    &losses,
                    &words,
                    padding,
                );
                self.called(call)
            }
        }
    }

    fn sr(&mut self, way: Way) -> io::Result<()> {
        match way {
            Way::Alone => self.write_sr(),
            Way::Added => self.add_sr(),
        }
    }

    fn write_sr(&mut self) -> io::Result<()> {
        let info = sender_info(self.row);
        let Blocks {
            fractions,
            losses,
            words,
            padding,
        } = Blocks::of_sr(self.row)?;
        write_report::rtcp_sr_size(fractions, &losses, &words, padding).print(self.to)?;
        write_report::rtcp_sr_write(
            self.buf,
            info.ssrc,
            info.ntp_timestamp,
            info.rtp_timestamp,
            info.packet_count,
            info.octet_count,
            fractions,
            &losses,
            &words,
            padding,
        )
        .print(self.to)
    }

    fn add_sr(&mut self) -> io::Result<()> {
        let info = sender_info(self.row);
        let Blocks {
            fractions,
            losses,
            words,
            padding,
        } = Blocks::of_sr(self.row)?;
        let call = write_compound::rtcp_writer_add_sr(
            self.writer,
            self.buf,
            info.ssrc,
            info.ntp_timestamp,
            info.rtp_timestamp,
            info.packet_count,
            info.octet_count,
            fractions,
            &losses,
            &words,
            padding,
        );
        self.called(call)
    }

    // `ROOM PADDING SSRCS COUNTS PREFIXES VALUES TYPES`, then these; the types are bytes.
    fn sdes(&mut self, way: Way) -> io::Result<()> {
        let row = self.row;
        let padding: u64 = row.number(1);
        let ssrcs: Vec<u32> = row.list(7, row.number(2))?;
        let counts: Vec<u64> = row.list(row.number(2), row.number(3))?;
        let prefixes: Vec<u64> = row.list(row.number(3), row.number(4))?;
        let values: Vec<u64> = row.list(row.number(4), row.number(5))?;
        let (types, rest) = row.halves(row.number(6));
        match way {
            Way::Alone => {
                write_sdes::rtcp_sdes_size(
                    &ssrcs, &counts, types, &prefixes, &values, rest, padding,
                ).print(self.to)?;
                write_sdes::rtcp_sdes_write(
                    self.buf, &ssrcs, &counts, types, &prefixes, &values, rest, padding,
                )
                .print(self.to)
            }
            Way::Added => {
                let call = write_compound::rtcp_writer_add_sdes(
                    self.writer,
                    self.buf,
                    &ssrcs,
                    &counts,
                    types,
                    &prefixes,
                    &values,
                    rest,
                    padding,
                );
                self.called(call)
            }
        }
    }

    // `ROOM PADDING END`, then the sources; the reason is the bytes.
    fn bye(&mut self, way: Way) -> io::Result<()> {
        let padding: u64 = self.row.number(1);
        let sources: Vec<u32> = self.row.list(3, self.row.number(2))?;
        let reason = self.row.bytes();
        match way {
            Way::Alone => {
                write_bye::rtcp_bye_size(&sources, reason, padding).print(self.to)?;
                write_bye::rtcp_bye_write(self.buf, &sources, reason, padding).print(self.to)
            }
            Way::Added => {
                let call = write_compound::rtcp_writer_add_bye(
                    self.writer,
                    self.buf,
                    &sources,
                    reason,
                    padding,
                );
                self.called(call)
            }
        }
    }

    // `ROOM PADDING SUBTYPE SSRC NAME`; the bytes are the name and the data.
    fn app(&mut self, way: Way) -> io::Result<()> {
        let padding: u64 = self.row.number(1);
        let subtype: u64 = self.row.number(2);
        let ssrc: u32 = self.row.number(3);
        let (name, data) = self.row.halves(self.row.number(4));
        match way {
            Way::Alone => {
                write_app::rtcp_app_size(subtype, name, data, padding).print(self.to)?;
                write_app::rtcp_app_write(self.buf, subtype, ssrc, name, data, padding).print(
                    self.to,
                )
            }
            Way::Added => {
                let call = write_compound::rtcp_writer_add_app(
                    self.writer,
                    self.buf,
                    subtype,
                    ssrc,
                    name,
                    data,
                    padding,
                );
                self.called(call)
            }
        }
    }

    fn packet(&mut self, packet: Packet, way: Way) -> io::Result<()> {
        match packet {
            Packet::Rr => self.rr(way),
            Packet::Sr => self.sr(way),
            Packet::Sdes => self.sdes(way),
            Packet::Bye => self.bye(way),
            Packet::App => self.app(way),
            Packet::RrRecords => {
                let reporter = ReceiverInfo {
                    ssrc: self.row.number(2),
                };
                forms::report(self, way, reporter, &Blocks::of_rr(self.row)?)
            }
            Packet::SrRecords => {
                let reporter = sender_info(self.row);
                forms::report(self, way, reporter, &Blocks::of_sr(self.row)?)
            }
        }
    }

    // `ROOM SSRC PREFIXES VALUES TYPES`, then these.
    fn chunk(&mut self) -> io::Result<()> {
        let row = self.row;
        let ssrc: u32 = row.number(1);
        let prefixes: Vec<u64> = row.list(5, row.number(2))?;
        let values: Vec<u64> = row.list(row.number(2), row.number(3))?;
        let (types, rest) = row.halves(row.number(4));
        write_sdes::rtcp_chunk_size(types, &prefixes, &values, rest).print(self.to)?;
        write_sdes::rtcp_chunk_write(self.buf, ssrc, types, &prefixes, &values, rest).print(self.to)
    }

    // `ROOM TYPE PREFIX`; the bytes are the prefix and the value.
    fn item(&mut self) -> io::Result<()> {
        let type_ = (self.row.number::<u64>(1) % 256) as u8;
        let (prefix, value) = self.row.halves(self.row.number(2));
        write_sdes::rtcp_item_size(type_, prefix, value).print(self.to)?;
        write_sdes::rtcp_item_write(self.buf, type_, prefix, value).print(self.to)
    }

    // `ROOM SSRCS`, then these. Of the visits it says whether they are at most the packet's count: no more of them is fixed.
    fn lookup(&mut self) -> io::Result<()> {
        let s = self.row.bytes();
        let ssrcs: Vec<u32> = self.row.list(2, self.row.number(1))?;
        let r = read_lookup::rtcp_sdes_lookup(s, &ssrcs, self.buf);
        let count = s.first().map_or(0, |head| head % 32);
        let bounded = u64::from(r.visits <= u64::from(count));
        numbers(self.to, &[r.number, r.first, r.second, bounded])
    }

    // `ROOM LENGTH PADDED CNAME CLOSED`.
    fn set(&mut self) -> io::Result<()> {
        let row = self.row;
        *self.writer = [row.number(1), row.number(2), row.number(3), row.number(4)];
        numbers(self.to, self.writer)
    }

    fn run(&mut self, writing: Writing) -> io::Result<()> {
        match writing {
            Writing::Chunk => self.chunk(),
            Writing::Item => self.item(),
            Writing::Packet(packet, way) => self.packet(packet, way),
            Writing::New => {
                write_compound::rtcp_writer_new(self.writer);
                numbers(self.to, self.writer)
            }
            Writing::Close => {
                let call = write_compound::rtcp_writer_close(self.writer);
                self.called(call)
            }
            Writing::Set => self.set(),
            Writing::Lookup => self.lookup(),
        }
    }

    pub fn write(mut self, writing: Writing) -> io::Result<()> {
        if !writing.goes_on() {
            make_stale(self.buf);
        }
        self.run(writing)?;
        let Request { to, buf, .. } = self;
        bytes(to, buf)
    }
}
