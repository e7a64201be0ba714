// The memories that calls run on, as large as a case may have them.
use cases::{Damaged, Memories, fill};
use wire::{long_at, word_at};

// VIF1's memories, VIF0's, and the log.
#[derive(Drop)]
pub(crate) struct Board<'a> {
    pub(crate) data: &'a mut [u32],
    pub(crate) code: &'a mut [u8],
    pub(crate) small_data: &'a mut [u32],
    pub(crate) small_code: &'a mut [u8],
    pub(crate) log: &'a mut [u64],
}

impl Board<'_> {
    // The memories of a channel's unit and the log, as long as a case's header says.
    pub(crate) fn lend<'b>(
        &'b mut self,
        header: &[u8],
        channel: u32,
    ) -> Result<Memories<'b>, Damaged> {
        let Board {
            data,
            code,
            small_data,
            small_code,
            log,
        } = self;
        let log = log.get_mut(..word_at(header, 20) as usize).ok_or(Damaged)?;
        if channel == 0 {
            let data = small_data
                .get_mut(..word_at(header, 40) as usize)
                .ok_or(Damaged)?;
            let code = small_code
                .get_mut(..word_at(header, 44) as usize)
                .ok_or(Damaged)?;
            return Ok(Memories { data, code, log });
        }
        let data = data.get_mut(..word_at(header, 12) as usize).ok_or(Damaged)?;
        let code = code.get_mut(..word_at(header, 16) as usize).ok_or(Damaged)?;
        Ok(Memories { data, code, log })
    }

    // What a case fills them with, where they are within their limits.
    pub(crate) fn fill(&mut self, header: &[u8]) -> Result<(), Damaged> {
        let first = long_at(header, 24);
        let small = self.lend(header, 0)?;
        fill(small.data, first.wrapping_add(5));
        fill(small.code, first.wrapping_add(6));
        self.lend(header, 1)?.fill(first);
        Ok(())
    }
}
