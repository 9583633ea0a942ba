// What a row can ask for.
ghost use Rattle.std.specs.Prelude.{◌↔◌, ◌<◌, IsOk};

use std::error::Error;
use std::fmt;

#[derive(Clone, Copy, Debug, PartialEq, Eq)]
pub enum Operation {
    Read(Reading),
    Part(Part),
    Walk(Walking),
    Write(Writing),
    Receive(Receiving),
}

// The C functions that read.
#[derive(Clone, Copy, Debug, PartialEq, Eq)]
pub enum Reading {
    BlockParse,
    RrReportBlock,
    SrReportBlock,
    RrParse,
    SrParse,
    AppParse,
    ByeParse,
    ByeSource,
    SdesParse,
    ItemParse,
    ItemPrivPrefix,
    ChunkParse,
    ChunkWalkOpen,
    ChunkWalkStep,
    ItemWalkOpen,
    ItemWalkStep,
    CompoundParse,
    WalkOpen,
    WalkStep,
}

// A part of the packet or the item that the bytes are.
#[derive(Clone, Copy, Debug, PartialEq, Eq)]
pub enum Part {
    RrExtension,
    RrPadding,
    SrExtension,
    SrPadding,
    AppName,
    AppData,
    AppPadding,
    ByeReason,
    ByeTail,
    ByePadding,
    SdesPadding,
    UnknownBody,
    UnknownPadding,
    ItemValue,
    ItemPrefix,
}

// The walk over chunks that holds its bytes: opened, stepped from a place, or stepped from its start on.
#[derive(Clone, Copy, Debug, PartialEq, Eq)]
pub enum Walking {
    Open,
    Step,
    Chunk,
}

// The functions that write, and those of the compound writer.
#[derive(Clone, Copy, Debug, PartialEq, Eq)]
pub enum Writing {
    Chunk,
    Item,
    Packet(Packet, Way),
    New,
    Close,
    Set,
    Lookup,
}

// A packet to be written; of a report, whether its blocks are given as lists or as records.
#[derive(Clone, Copy, Debug, PartialEq, Eq)]
pub enum Packet {
    Rr,
    Sr,
    Sdes,
    Bye,
    App,
    RrRecords,
    SrRecords,
}

// Whether a packet is written alone, or added to the compound.
#[derive(Clone, Copy, Debug, PartialEq, Eq)]
pub enum Way {
    Alone,
    Added,
}

// The figures of a reception.
#[derive(Clone, Copy, Debug, PartialEq, Eq)]
pub enum Receiving {
    New,
    Update,
    ReportBlock,
    History,
}

// The operations in the order in which the first line names them.
const IN_ORDER: [Operation; 61] = [
    Operation::Read(Reading::BlockParse),
    Operation::Read(Reading::RrReportBlock),
    Operation::Read(Reading::SrReportBlock),
    Operation::Read(Reading::RrParse),
    Operation::Read(Reading::SrParse),
    Operation::Read(Reading::AppParse),
    Operation::Read(Reading::ByeParse),
    Operation::Read(Reading::ByeSource),
    Operation::Read(Reading::SdesParse),
    Operation::Read(Reading::ItemParse),
    Operation::Read(Reading::ItemPrivPrefix),
    Operation::Read(Reading::ChunkParse),
    Operation::Read(Reading::ChunkWalkOpen),
    Operation::Read(Reading::ChunkWalkStep),
    Operation::Read(Reading::ItemWalkOpen),
    Operation::Read(Reading::ItemWalkStep),
    Operation::Read(Reading::CompoundParse),
    Operation::Read(Reading::WalkOpen),
    Operation::Read(Reading::WalkStep),
    Operation::Part(Part::RrExtension),
    Operation::Part(Part::RrPadding),
    Operation::Part(Part::SrExtension),
    Operation::Part(Part::SrPadding),
    Operation::Part(Part::AppName),
    Operation::Part(Part::AppData),
    Operation::Part(Part::AppPadding),
    Operation::Part(Part::ByeReason),
    Operation::Part(Part::ByeTail),
    Operation::Part(Part::ByePadding),
    Operation::Part(Part::SdesPadding),
    Operation::Part(Part::UnknownBody),
    Operation::Part(Part::UnknownPadding),
    Operation::Part(Part::ItemValue),
    Operation::Part(Part::ItemPrefix),
    Operation::Walk(Walking::Open),
    Operation::Walk(Walking::Step),
    Operation::Walk(Walking::Chunk),
    Operation::Write(Writing::Chunk),
    Operation::Write(Writing::Item),
    Operation::Write(Writing::Packet(Packet::Rr, Way::Alone)),
    Operation::Write(Writing::Packet(Packet::Sr, Way::Alone)),
    Operation::Write(Writing::Packet(Packet::Sdes, Way::Alone)),
    Operation::Write(Writing::Packet(Packet::Bye, Way::Alone)),
    Operation::Write(Writing::Packet(Packet::App, Way::Alone)),
    Operation::Write(Writing::Packet(Packet::RrRecords, Way::Alone)),
    Operation::Write(Writing::Packet(Packet::SrRecords, Way::Alone)),
    Operation::Write(Writing::New),
    Operation::Write(Writing::Packet(Packet::Rr, Way::Added)),
    Operation::Write(Writing::Packet(Packet::Sr, Way::Added)),
    Operation::Write(Writing::Packet(Packet::Sdes, Way::Added)),
    Operation::Write(Writing::Packet(Packet::Bye, Way::Added)),
    Operation::Write(Writing::Packet(Packet::App, Way::Added)),
    Operation::Write(Writing::Packet(Packet::RrRecords, Way::Added)),
    Operation::Write(Writing::Packet(Packet::SrRecords, Way::Added)),
    Operation::Write(Writing::Close),
    Operation::Write(Writing::Set),
    Operation::Write(Writing::Lookup),
    Operation::Receive(Receiving::New),
    Operation::Receive(Receiving::Update),
    Operation::Receive(Receiving::ReportBlock),
    Operation::Receive(Receiving::History),
];

// A place that no operation has.
#[derive(Clone, Copy, Debug, PartialEq, Eq)]
pub struct NoSuchOperation;

impl fmt::Display for NoSuchOperation {
    fn fmt<W: fmt::Write>(&self, f: &mut fmt::Formatter<W>) -> fmt::Result {
        f.write_str("no such operation")
    }
}

impl Error for NoSuchOperation {}

impl TryFrom<usize> for Operation {
    type Error = NoSuchOperation;

    ghost try_from_gives = { λ place r. IsOk r ↔ (place < 61) };

    fn try_from(place: usize) -> Result<Operation, NoSuchOperation> {
        IN_ORDER.get(place).copied().ok_or(NoSuchOperation)
    }
}

impl Writing {
    // Whether it goes on with what the buffer has; every other one finds stale bytes there.
    pub fn goes_on(self) -> bool {
        matches!(
            self,
            Writing::Packet(_, Way::Added) | Writing::Close | Writing::Set
        )
    }
}
