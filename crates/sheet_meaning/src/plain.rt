// The plain meaning of a sheet: a machine fed the records in order.
ghost use Rattle.std.specs.Prelude.{◌≡◌, [], ◌∷◌, ◌+◌, ◌*◌, ◌<◌, ◌≤◌, length, get_or};
ghost use Rattle.std.proofs.lemmas.List.Edits.{sets};
ghost use Rattle.fields.specs.Memory.{word_at, long_at};
ghost use Rattle.gif.specs.Log.{entry_size, entry, numbers};
ghost use Rattle.memories.specs.declared.VifUnit.TheVariants.{Vif1};
ghost use Rattle.memories.specs.Units.{data_words, code_bytes};
ghost use Rattle.sheet.specs.Records.{bytes_at, number};
ghost use Rattle.sheet.specs.Meaning.{put_vectors, put_instructions, entries_at};
ghost use Rattle.sheet.specs.MeaningAnswer.{meaning_answer};
ghost use Rattle.sheet.specs.Results.{left, meaning_of_sheet};
ghost use Rattle.sheet.specs.Fed.{fed_all};
ghost use Rattle.sheet_meaning.specs.Feeding.{vector_at, fed_in, with_fed, RecordsRoom, feed_refusal};
ghost use Rattle.sheet_meaning.specs.FeedLaws.{feed_nothing, feed_on, feed_before, feed_behind, feed_fits};

use fields::Refusal;
use gif::Entry;
use memories::VifUnit;
use sheet::{Act, Kind, Record, SheetError, TestedAct, Totals, act_on};

const QUADWORDS: usize = memories::VIF1_QUADWORDS as usize;

const INSTRUCTIONS: usize = memories::VIF1_INSTRUCTIONS as usize;

// The path of a GS record's entries.
const GS_PATH: u64 = 2;

// The register of a program start's entry.
const START_REGISTER: u64 = 256;

// The word at a place that lies inside.
fn word_inside(sheet: &[u8], at: usize) -> u32
    requires { at + 4 ≤ length sheet.now }
    ensures { result ≡ word_at sheet.now at }
{
    u32::from_le_bytes([sheet[at], sheet[at + 1], sheet[at + 2], sheet[at + 3]])
}

// The 64 bits at a place that lies inside.
fn long_inside(sheet: &[u8], at: usize) -> u64
    requires { at + 8 ≤ length sheet.now }
    ensures { result ≡ long_at sheet.now at }
{
    u64::from(word_inside(sheet, at)) + u64::from(word_inside(sheet, at + 4)) * 0x1_0000_0000
}

// The entry at a place of the sheet.
pub(crate) fn entry_at(sheet: &[u8], at: usize) -> Entry
    requires { at + 16 ≤ length sheet.now }
    ensures { result ≡ entry 2 (get_or sheet.now (at + 8) 0) (number (bytes_at sheet.now at 8)) }
{
    Entry {
        path: GS_PATH,
        register: u64::from(sheet[at + 8]),
        value: long_inside(sheet, at),
    }
}

// The entry of a program start.
pub(crate) fn start_entry(a: u32) -> Entry
    ensures { result ≡ entry 0 256 a }
{
    Entry {
        path: gif::START_PATH,
        register: START_REGISTER,
        value: u64::from(a),
    }
}

// The vector at a place of the sheet, to quadword q.
fn put_vector(sheet: &[u8], at: usize, data: &mut [u32], q: usize)
    requires { (at + 16 ≤ length sheet.now) × (4 * q + 4 ≤ length «data».old) }
    ensures { «data».new ≡ sets «data».old (4 * q) (vector_at sheet.now at) }
{
    data[4 * q..4 * q + 4].copy_from_slice(&[
        word_inside(sheet, at),
        word_inside(sheet, at + 4),
        word_inside(sheet, at + 8),
        word_inside(sheet, at + 12),
    ]);
}

pub(crate) fn put_vectors(sheet: &[u8], body: usize, n: usize, a: usize, data: &mut [u32])
    requires { (body + 16 * n ≤ length sheet.now) × (a < 4294967296) × (length «data».old ≡ data_words Vif1) }
    ensures { «data».new
        ≡ put_vectors a (bytes_at sheet.now body (16 * n)) n 0 «data».old }
{
    for j in 0..n {
        put_vector(sheet, body + 16 * j, data, (a + j) % QUADWORDS);
    }
}

// The instruction at a place of the sheet, to a place of the memory.
fn put_instruction(sheet: &[u8], at: usize, code: &mut [u8], to: usize)
    requires { (at + 8 ≤ length sheet.now) × (to + 8 ≤ length code.old) }
    ensures { code.new ≡ sets code.old to (bytes_at sheet.now at 8) }
{
    code[to..to + 8].copy_from_slice(&sheet[at..at + 8]);
}

pub(crate) fn put_instructions(sheet: &[u8], body: usize, n: usize, a: usize, code: &mut [u8])
    requires { (body + 8 * n ≤ length sheet.now) × (a < 4294967296) × (length code.old ≡ code_bytes Vif1) }
    ensures { code.new
        ≡ put_instructions a (bytes_at sheet.now body (8 * n)) n 0 code.old }
{
    for j in 0..n {
        put_instruction(sheet, body + 8 * j, code, 8 * ((a + j) % INSTRUCTIONS));
    }
}

fn put_entry(log: &mut [u64], used: u64, e: Entry)
    requires { entry_size * (used + 1) ≤ length log.old }
    ensures { log.new ≡ sets log.old (entry_size * used) (numbers (e ∷ [])) }
{
    gif::write_entry(log, used, e.path, e.register, e.value);
}

fn put_entries(sheet: &[u8], body: usize, n: usize, log: &mut [u64], used: u64)
    requires { (body + 16 * n ≤ length sheet.now) × (entry_size * (used + n) ≤ length log.old) }
    ensures { log.new
        ≡ sets log.old (entry_size * used) (numbers (entries_at (bytes_at sheet.now body (16 * n)) n 0)) }
{
    for j in 0..n {
        put_entry(log, used + j as u64, entry_at(sheet, body + 16 * j));
    }
}

// The memories and a log that a sheet is fed to, and the entries used.
#[derive(Drop)]
struct Feeder<'a> {
    data: &'a mut [u32],
    code: &'a mut [u8],
    log: &'a mut [u64],
    used: u64,
}

impl Act for Feeder<'_> {
    ghost act = { λ rs f. with_fed f (fed_all rs (fed_in f)) };

    ghost Room = { λ rs f. RecordsRoom rs (fed_in f) };

    // A record does what its row says.
    fn take(&mut self, sheet: &[u8], body: usize, found: Record) {
        let n = found.count as usize;
        let a = found.address as usize;
        match found.kind {
            Kind::Data => put_vectors(sheet, body, n, a, self.data),
            Kind::Code => put_instructions(sheet, body, n, a, self.code),
            Kind::Gs => {
                put_entries(sheet, body, n, self.log, self.used);
                self.used += n as u64;
            }
            Kind::Start => {
                put_entry(self.log, self.used, start_entry(found.address));
                self.used += 1;
            }
        }
    }

    ghost nothing = { λ f. feed_nothing f };

    ghost onward = { λ rs ss f. feed_on rs ss f };

    ghost before = { λ rs ss f h. feed_before rs ss _ h };

    ghost behind = { λ rs ss f h. feed_behind rs ss _ h };
}

impl TestedAct for Feeder<'_> {
    ghost refusal = { λ t f. feed_refusal t (fed_in f) };

    // The lengths, and then 31 where the log has no room for the entries.
    fn test(&self, sums: Totals) -> Result<(), Refusal> {
        memories::test_lengths(VifUnit::Vif1, self.data, self.code, self.log, self.used)?;
        let room = self.log.len() as u64 / gif::ENTRY_SIZE - self.used;
        if room < sums.entries {
            return Err(Refusal::LogFull);
        }
        Ok(())
    }

    ghost fits = { λ rs f m h. feed_fits rs _ h };
}

// Feeds a sheet's records to the memories and the log, which a refusal leaves as they are.
pub fn meaning(
    sheet: &[u8],
    data: &mut [u32],
    code: &mut [u8],
    log: &mut [u64],
    used: u64,
) -> Result<u64, SheetError>
    ensures { left (meaning_answer result) «data».new code.new log.new
        ≡ meaning_of_sheet sheet.now «data».old code.old log.old used }
{
    memories::test_lengths(VifUnit::Vif1, data, code, log, used)?;
    let mut feeder = Feeder {
        data,
        code,
        log,
        used,
    };
    act_on(sheet, &mut feeder)?;
    Ok(feeder.used)
}
