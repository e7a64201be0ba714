// The refusals and their numbers, as specs/Refusals.antt has them.
ghost use Rattle.std.specs.Prelude.{◌≡◌};
ghost use Rattle.fields.specs.Refusals.{refusal_number};

// Why a step, a call or a record is refused.
#[derive(Debug, Clone, Copy, PartialEq, Eq, Hash)]
pub enum Refusal {
    MainLength,
    DataLength,
    CodeLength,
    LogLength,
    OutOfRange,
    TadrOutside,
    AddrUnaligned,
    ScratchpadSet,
    StackFull,
    PayloadOutside,
    CmdUnlisted,
    FormatMissing,
    CycleWrong,
    ModeWrong,
    DirectUnaligned,
    MpgUnaligned,
    TopsMissing,
    DescriptorB,
    LogFull,
    MarkWrong,
    KindWrong,
    CountWrong,
    AddressWrong,
    RecordCut,
    PadWrong,
    SheetLong,
    OutputShort,
    ChainLong,
    NumberMissing,
    CodeWaits,
    GroupDeep,
    TotalFull,
    KeptExceed,
    RangesExceed,
}

impl Refusal {
    // The papers' number.
    pub fn number(self) -> u32
        ensures { result ≡ refusal_number self }
    {
        match self {
            Refusal::MainLength => 1,
            Refusal::DataLength => 2,
            Refusal::CodeLength => 3,
            Refusal::LogLength => 4,
            Refusal::OutOfRange => 5,
            Refusal::TadrOutside => 10,
            Refusal::AddrUnaligned => 11,
            Refusal::ScratchpadSet => 12,
            Refusal::StackFull => 13,
            Refusal::PayloadOutside => 14,
            Refusal::CmdUnlisted => 20,
            Refusal::FormatMissing => 21,
            Refusal::CycleWrong => 22,
            Refusal::ModeWrong => 23,
            Refusal::DirectUnaligned => 24,
            Refusal::MpgUnaligned => 25,
            Refusal::TopsMissing => 26,
            Refusal::DescriptorB => 30,
            Refusal::LogFull => 31,
            Refusal::MarkWrong => 40,
            Refusal::KindWrong => 41,
            Refusal::CountWrong => 42,
            Refusal::AddressWrong => 43,
            Refusal::RecordCut => 44,
            Refusal::PadWrong => 45,
            Refusal::SheetLong => 46,
            Refusal::OutputShort => 47,
            Refusal::ChainLong => 49,
            Refusal::NumberMissing => 50,
            Refusal::CodeWaits => 51,
            Refusal::GroupDeep => 52,
            Refusal::TotalFull => 54,
            Refusal::KeptExceed => 55,
            Refusal::RangesExceed => 56,
        }
    }
}

// The number of a call whose buffers are too short.
pub const BUFFER_SHORT: u32 = 60;

// The numbers of the answers of a run that are neither done nor a refusal.
pub const ALLOWANCE_USED: u32 = 90;

pub const INTERRUPT_MET: u32 = 91;
