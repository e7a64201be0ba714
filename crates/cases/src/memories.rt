// A unit's memories and the log as a case has them.
ghost use Rattle.std.specs.Prelude.{◌≡◌, ◌+◌, ◌%◌, ◌^◌, ◌++◌, ◌&&◌, length, take, leb, is_ok, IfOk};
ghost use Rattle.wire.specs.Words.{sent_all};
ghost use Rattle.cases.specs.Memories.{ruled, fill_number, memories_words, sum_of};
ghost use Rattle.cases.specs.Changes.{word_changes, byte_changes, long_changes, kept};

use super::changes::tell;
use super::filling::fill;
use super::run::Damaged;
use super::sums::sum;
use super::whole::emit_bytes;
use wire::Output;

// Data memory, code memory and log, as long as a case says.
#[derive(Drop)]
pub struct Memories<'a> {
    pub data: &'a mut [u32],
    pub code: &'a mut [u8],
    pub log: &'a mut [u64],
}

impl Memories<'_> {
    // The start of each, of these lengths, where they are within their limits.
    pub fn lend<'b>(
        &'b mut self,
        data: usize,
        code: usize,
        log: usize,
    ) -> Result<Memories<'b>, Damaged>
        ensures limits { is_ok result
            ≡ (leb «data» (length self.old.«data».now) && (leb code (length self.old.code.now) && leb log (length self.old.log.now))) }
        ensures lengths { IfOk result (λ m. (length m.«data».now ≡ «data») × (length m.code.now ≡ code) × (length m.log.now ≡ log)) }
        ensures values { IfOk result (λ m. (m.«data».now ≡ take «data» self.old.«data».now)
            × (m.code.now ≡ take code self.old.code.now)
            × (m.log.now ≡ take log self.old.log.now)) }
    {
        let Memories {
            data: all_data,
            code: all_code,
            log: all_log,
        } = self;
        let data = all_data.get_mut(..data).ok_or(Damaged)?;
        let code = all_code.get_mut(..code).ok_or(Damaged)?;
        let log = all_log.get_mut(..log).ok_or(Damaged)?;
        Ok(Memories { data, code, log })
    }

    pub fn fill(&mut self, first: u64)
        ensures filled { (self.new.«data».now ≡ ruled (fill_number (2 ^ 32) first) (length self.old.«data».now))
            × (self.new.code.now ≡ ruled (fill_number (2 ^ 8) (first + 1)) (length self.old.code.now))
            × (self.new.log.now ≡ ruled (fill_number (2 ^ 64) (first + 2)) (length self.old.log.now)) }
        ensures same_references { (self.new.«data».ghost_name ≡ self.old.«data».ghost_name)
            × (self.new.code.ghost_name ≡ self.old.code.ghost_name)
            × (self.new.log.ghost_name ≡ self.old.log.ghost_name) }
    {
        fill(self.data, first);
        fill(self.code, first.wrapping_add(1));
        fill(self.log, first.wrapping_add(2));
    }

    // The sum of all their numbers.
    pub fn sum(&self) -> u64
        ensures { result ≡ (sum_of self.now.«data».now + sum_of self.now.code.now + sum_of self.now.log.now) % 2 ^ 64 }
    {
        sum(self.data)
            .wrapping_add(sum(self.code))
            .wrapping_add(sum(self.log))
    }

    // Puts them whole into the results.
    pub fn emit(&self, out: &mut Output)
        ensures { out.new ≡ sent_all out.old.out out.old.at (memories_words self.now.«data».now self.now.code.now self.now.log.now) }
    {
        out.emit_all(self.data);
        emit_bytes(out, self.code);
        out.emit_all(self.log);
    }

    // Puts what changed in them into the results, and takes it over.
    pub fn tell(&self, before: &mut Memories<'_>, out: &mut Output)
        ensures result_after { out.new ≡ sent_all out.old.out out.old.at
            (word_changes self.now.«data».now before.old.«data».now
            ++ (byte_changes self.now.code.now before.old.code.now ++ long_changes self.now.log.now before.old.log.now)) }
        ensures taken_over { (before.new.«data».now ≡ kept self.now.«data».now before.old.«data».now)
            × (before.new.code.now ≡ kept self.now.code.now before.old.code.now)
            × (before.new.log.now ≡ kept self.now.log.now before.old.log.now) }
        ensures same_references { (before.new.«data».ghost_name ≡ before.old.«data».ghost_name)
            × (before.new.code.ghost_name ≡ before.old.code.ghost_name)
            × (before.new.log.ghost_name ≡ before.old.log.ghost_name) }
    {
        tell(out, self.data, before.data);
        tell(out, self.code, before.code);
        tell(out, self.log, before.log);
    }
}
