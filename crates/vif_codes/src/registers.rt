// The unit with some of its registers replaced, and those that UNPACK reads.
ghost use Rattle.std.specs.Prelude.{◌≡◌};
ghost use Rattle.vif_codes.specs.Setters.{with_cycle, with_offset, with_base, with_itops, with_mode, with_mskpath3, with_mark, with_row, with_waiting};
ghost use Rattle.vif_codes.specs.Payload.{write_registers};

use super::{Vif, Waiting};
use unpack_rules::Registers;

impl Vif {
    pub fn with_cycle(self, cl: u32, wl: u32) -> Vif
        ensures { result ≡ with_cycle self cl wl }
    {
        Vif { cl, wl, ..self }
    }

    // OFST, with DBF 0 and TOPS.
    pub fn with_offset(self, ofst: u32, tops: u32) -> Vif
        ensures { result ≡ with_offset self ofst tops }
    {
        Vif {
            ofst,
            dbf: false,
            tops,
            ..self
        }
    }

    pub fn with_base(self, base: u32) -> Vif
        ensures { result ≡ with_base self base }
    {
        Vif { base, ..self }
    }

    pub fn with_itops(self, itops: u32) -> Vif
        ensures { result ≡ with_itops self itops }
    {
        Vif { itops, ..self }
    }

    pub(crate) fn with_mode(self, mode: u32) -> Vif
        ensures { result ≡ with_mode self mode }
    {
        Vif { mode, ..self }
    }

    pub fn with_mskpath3(self, mskpath3: bool) -> Vif
        ensures { result ≡ with_mskpath3 self mskpath3 }
    {
        Vif { mskpath3, ..self }
    }

    pub fn with_mark(self, mark: u32) -> Vif
        ensures { result ≡ with_mark self mark }
    {
        Vif { mark, ..self }
    }

    pub fn with_row(self, row: [u32; 4]) -> Vif
        ensures { result ≡ with_row self row }
    {
        Vif { row, ..self }
    }

    pub fn with_waiting(self, waiting: Waiting) -> Vif
        ensures { result ≡ with_waiting self waiting }
    {
        Vif { waiting, ..self }
    }

    pub fn write_registers(self) -> Registers
        ensures { result ≡ write_registers self }
    {
        let col = self.col;
        Registers {
            cl: self.cl,
            wl: self.wl,
            mode: self.mode,
            mask: self.mask,
            col,
        }
    }
}
