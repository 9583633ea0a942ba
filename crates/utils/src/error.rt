// The refusals of document 01. Names are rtcp-types' own where it has the case.
ghost use Rattle.std.specs.Prelude.{◌≡◌};
ghost use Rattle.rfc3550.specs.Answer.{refusal};
ghost use Rattle.utils.specs.Error.{parse_refusal, write_refusal, code_refusal};

// From the input, reading (1 to 6) and compound reading (7 to 9); from the state (25, 30); from the list lent to a lookup (31).
#[derive(Clone, Copy)]
pub enum RtcpParseError {
    UnsupportedVersion(u8),
    Truncated { expected: usize, actual: usize },
    TooLarge { expected: usize, actual: usize },
    InvalidPadding,
    SdesPrivPrefixTooLarge { len: usize, available: usize },
    PacketTypeMismatch { actual: u8, requested: u8 },
    FirstPacketNoReport(u8),
    NoCname,
    NonLastCompoundPacketPadding,
    NothingLeft,
    NotPriv(u8),
    AnswersTooShort,
}

// From the input, writing (10 to 24); from the state of a writer (26 to 29).
#[derive(Clone, Copy)]
pub enum RtcpWriteError {
    OutputTooSmall(u64),
    InvalidPadding { padding: u64 },
    AppSubtypeOutOfRange { subtype: u64, max: u8 },
    InvalidName,
    DataLen32bitMultiple(usize),
    TooManySources { count: usize, max: u8 },
    ReasonLenTooLarge { len: usize, max: u8 },
    CumulativeLostTooLarge { value: u32, max: u32 },
    TooManyReportBlocks { count: usize, max: u8 },
    TooManySdesChunks { count: usize, max: u8 },
    SdesValueTooLarge { len: usize, max: u8 },
    SdesPrivPrefixTooLarge { len: usize, max: u8 },
    PacketTooLarge,
    ItemTypeZero,
    ListsDisagree,
    WriterClosed,
    FirstPacketNoReport,
    NoCname,
    AlreadyPadded,
}

// A refusal's number and its two details.
#[derive(Clone, Copy)]
pub struct Code {
    pub number: u64,
    pub first: u64,
    pub second: u64,
}

pub(crate) fn coded(number: u64, first: u64, second: u64) -> Code
    ensures { code_refusal result ≡ refusal number first second }
{
    Code {
        number,
        first,
        second,
    }
}

impl From<RtcpParseError> for Code {
    ghost from_gives = { λ e c. code_refusal c ≡ parse_refusal e };

    #[cold]
    fn from(e: RtcpParseError) -> Code {
        match e {
            RtcpParseError::UnsupportedVersion(version) => coded(1, version as u64, 0),
            RtcpParseError::Truncated { expected, actual } => coded(
                2,
                expected as u64,
                actual as u64,
            ),
            RtcpParseError::TooLarge { expected, actual } => coded(
                3,
                expected as u64,
                actual as u64,
            ),
            RtcpParseError::InvalidPadding => coded(4, 0, 0),
            RtcpParseError::SdesPrivPrefixTooLarge { len, available } => coded(
                5,
                len as u64,
                available as u64,
            ),
            RtcpParseError::PacketTypeMismatch { actual, requested } => coded(
                6,
                actual as u64,
                requested as u64,
            ),
            RtcpParseError::FirstPacketNoReport(packet_type) => coded(7, packet_type as u64, 0),
            RtcpParseError::NoCname => coded(8, 0, 0),
            RtcpParseError::NonLastCompoundPacketPadding => coded(9, 0, 0),
            RtcpParseError::NothingLeft => coded(25, 0, 0),
            RtcpParseError::NotPriv(type_) => coded(30, type_ as u64, 0),
            RtcpParseError::AnswersTooShort => coded(31, 0, 0),
        }
    }
}

impl From<RtcpWriteError> for Code {
    ghost from_gives = { λ e c. code_refusal c ≡ write_refusal e };

    #[cold]
    fn from(e: RtcpWriteError) -> Code {
        match e {
            RtcpWriteError::OutputTooSmall(size) => coded(10, size, 0),
            RtcpWriteError::InvalidPadding { padding } => coded(11, padding, 0),
            RtcpWriteError::AppSubtypeOutOfRange { subtype, max } => coded(12, subtype, max as u64),
            RtcpWriteError::InvalidName => coded(13, 0, 0),
            RtcpWriteError::DataLen32bitMultiple(len) => coded(14, len as u64, 0),
            RtcpWriteError::TooManySources { count, max } => coded(15, count as u64, max as u64),
            RtcpWriteError::ReasonLenTooLarge { len, max } => coded(16, len as u64, max as u64),
            RtcpWriteError::CumulativeLostTooLarge { value, max } => coded(
                17,
                value as u64,
                max as u64,
            ),
            RtcpWriteError::TooManyReportBlocks { count, max } => coded(
                18,
                count as u64,
                max as u64,
            ),
            RtcpWriteError::TooManySdesChunks { count, max } => coded(19, count as u64, max as u64),
            RtcpWriteError::SdesValueTooLarge { len, max } => coded(20, len as u64, max as u64),
            RtcpWriteError::SdesPrivPrefixTooLarge { len, max } => coded(
                21, len as u64, max as u64,
            ),
            RtcpWriteError::PacketTooLarge => coded(22, 0, 0),
            RtcpWriteError::ItemTypeZero => coded(23, 0, 0),
            RtcpWriteError::ListsDisagree => coded(24, 0, 0),
            RtcpWriteError::WriterClosed => coded(26, 0, 0),
            RtcpWriteError::FirstPacketNoReport => coded(27, 0, 0),
            RtcpWriteError::NoCname => coded(28, 0, 0),
            RtcpWriteError::AlreadyPadded => coded(29, 0, 0),
        }
    }
}
