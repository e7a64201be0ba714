// The chain, as document 01 lays it out.
ghost use Rattle.std.specs.Prelude.{◌≡◌, ◌+◌, ◌*◌, ◌<◌, ◌≤◌, length};
ghost use Rattle.std.proofs.lemmas.List.Edits.{sets};
ghost use Rattle.sheet.specs.Records.{record_of, body_length, bytes_at};
ghost use Rattle.sheet.specs.Sizes.{record_quadwords};
ghost use Rattle.sheet.specs.Layout.{words_bytes, code_words, gif_tag_words, padding_words, lead_words, laid_out};
ghost use Rattle.sheet.specs.BuildAnswer.{build_answer};
ghost use Rattle.sheet.specs.Build.{left, build_of, exported_number};
ghost use Rattle.sheet_builder.specs.WriteLaws.{write_nothing, write_on, write_before, write_behind, write_fits};
ghost use Rattle.sheet_builder.specs.Writing.{RecordRoom, out, with_out, write, WriteRoom, write_refusal};

use fields::Refusal;
use sheet::{Act, Kind, Record, SheetError, TestedAct, Totals, act_on, body_length};

// Writes words; answers the place after them.
fn put_words(words: &[u32], output: &mut [u8], at: usize) -> usize
    requires { at + 4 * length words.now ≤ length output.old }
    ensures { (result ≡ at + 4 * length words.now) × (output.new ≡ sets output.old at (words_bytes words.now)) }
{
    let mut to = at;
    for word in words {
        output[to..to + 4].copy_from_slice(&word.to_le_bytes());
        to += 4;
    }
    to
}

fn quadwords_after_tag(kind: Kind, n: u32) -> u32
    requires { n ≤ 255 }
    ensures { result + 1 ≡ record_quadwords kind n }
{
    match kind {
        Kind::Data => 1 + n,
        Kind::Code => 1 + n.div_ceil(2),
        Kind::Gs => 2 + n,
        Kind::Start => 1,
    }
}

fn code_words(kind: Kind, n: u32, a: u32) -> [u32; 4]
    requires { (n ≤ 255) × (a < 65536) }
    ensures { result ≡ code_words kind n a }
{
    match kind {
        Kind::Data => [0, 0x0100_0101, 0x0500_0000, 0x6c00_0000 + n * 65536 + a],
        Kind::Code => [0, 0, 0, 0x4a00_0000 + n * 65536 + a],
        Kind::Gs => [0, 0, 0, 0x5000_0000 + (n + 1)],
        Kind::Start => [0, 0, 0, 0x1400_0000 + a],
    }
}

// The GIF tag of a GS record; answers the place after it.
fn put_gif_tag(kind: Kind, n: u32, output: &mut [u8], at: usize) -> usize
    requires { (n ≤ 255) × (at + 4 * length (gif_tag_words kind n) ≤ length output.old) }
    ensures { (result ≡ at + 4 * length (gif_tag_words kind n)) × (output.new ≡ sets output.old at (words_bytes (gif_tag_words kind n))) }
{
    match kind {
        Kind::Gs => put_words(&[n + 0x8000, 0x1000_0000, 0xE, 0], output, at),
        _ => at,
    }
}

// The tag, the codes and the GIF tag; answers the place of the body.
fn put_lead(found: Record, output: &mut [u8], at: usize) -> usize
    requires { (found.count ≤ 255) × (found.address < 65536) × (at + 4 * length (lead_words found.kind found.count found.address) ≤ length output.old) }
    ensures { (result ≡ at + 4 * length (lead_words found.kind found.count found.address))
        × (output.new ≡ sets output.old at (words_bytes (lead_words found.kind found.count found.address))) }
{
    let Record {
        kind,
        count,
        address,
        ..
    } = found;
    let tag = [0x1000_0000 + quadwords_after_tag(kind, count), 0, 0, 0];
    let codes_at = put_words(&tag, output, at);
    let gif_tag_at = put_words(&code_words(kind, count, address), output, codes_at);
    put_gif_tag(kind, count, output, gif_tag_at)
}

// The NOPs after an odd number of instructions; answers the place after them.
fn put_padding(kind: Kind, n: u32, output: &mut [u8], at: usize) -> usize
    requires { at + 4 * length (padding_words kind n) ≤ length output.old }
    ensures { (result ≡ at + 4 * length (padding_words kind n)) × (output.new ≡ sets output.old at (words_bytes (padding_words kind n))) }
{
    match kind {
        Kind::Code if n % 2 == 1 => put_words(&[0, 0], output, at),
        _ => at,
    }
}

// Copies bytes, a loop by itself: by `copy_from_slice` the library for C would ask for memmove.
fn copy_bytes(from: &[u8], to: &mut [u8])
    requires { length from.now ≡ length to.old }
    ensures { to.new ≡ from.now }
{
    for i in 0..from.len() {
        to[i] = from[i];
    }
}

// A record's part of the chain; answers the place after it.
fn put_record(sheet: &[u8], body: usize, found: Record, output: &mut [u8], at: usize) -> usize
    requires { RecordRoom sheet.now body found.kind found.count found.address output.old at }
    ensures { (result ≡ at + 16 * record_quadwords found.kind found.count)
        × (output.new
        ≡ sets output.old at
        (laid_out (record_of found.kind found.count found.address (bytes_at sheet.now body (body_length found.kind found.count))))) }
{
    let size = body_length(found.kind, found.count);
    let to = put_lead(found, output, at);
    copy_bytes(&sheet[body..body + size], &mut output[to..to + size]);
    put_padding(found.kind, found.count, output, to + size)
}

// The output, and the place after what was written.
#[derive(Drop)]
struct Writer<'a> {
    output: &'a mut [u8],
    to: usize,
}

impl Act for Writer<'_> {
    ghost act = { λ rs w. with_out w (write rs (out w.output.now w.to)) };

    ghost Room = { λ rs w. WriteRoom rs (out w.output.now w.to) };

    fn take(&mut self, sheet: &[u8], body: usize, found: Record) {
        self.to = put_record(sheet, body, found, self.output, self.to);
    }

    ghost nothing = { λ w. write_nothing w };

    ghost onward = { λ rs ss w. write_on rs ss w };

    ghost before = { λ rs ss w h. write_before rs ss _ h };

    ghost behind = { λ rs ss w h. write_behind rs ss _ h };
}

impl TestedAct for Writer<'_> {
    ghost refusal = { λ t w. write_refusal t (out w.output.now w.to) };

    // 47 where the chain is longer than what is left of the output.
    fn test(&self, sums: Totals) -> Result<(), Refusal> {
        let room = (self.output.len().saturating_sub(self.to) / 16) as u64;
        if room < sums.quadwords {
            return Err(Refusal::OutputShort);
        }
        Ok(())
    }

    ghost fits = { λ rs w m h. write_fits rs _ m h };
}

// Builds the chain of a sheet in the output, which a refusal leaves as it is.
pub fn build(sheet: &[u8], output: &mut [u8]) -> Result<usize, SheetError>
    ensures { left (build_answer result) output.new ≡ build_of sheet.now output.old }
{
    let mut writer = Writer { output, to: 0 };
    let quadwords = act_on(sheet, &mut writer)?.quadwords;
    let Writer { output, to } = writer;
    put_words(&[0x7000_0000, 0, 0, 0], output, to);
    Ok(16 * quadwords as usize)
}

// The same with one number for its answer: the chain's length in bytes, or the refusal without its offset.
pub fn build_number(sheet: &[u8], output: &mut [u8]) -> usize
    ensures { (result ≡ exported_number (build_of sheet.now output.old).answer)
        × (output.new ≡ (build_of sheet.now output.old).output) }
{
    match build(sheet, output) {
        Ok(n) => n,
        Err(e) => e.refusal.number() as usize,
    }
}

#[cfg(test)]
mod tests {
    use super::*;
    use sheet::{Fitting, measure};
    use std::test::Fail;

    // A start at 5 and a vector for 3: a sheet and an output that fit give the chain that document 01 lays out, but for its end tag.
    #[test]
    fn chain_of_a_sheet_that_fits(rt: HostRuntime) -> Result<(), Fail> {
        let sheet = [
            0x9e, 0x51, 4, 0, 5, 0, 0x9e, 0x51, 1, 1, 3, 0, 7, 0, 0, 0, 0, 0, 0, 0, 0, 0, 0, 0, 0,
            0, 0, 9,
        ];
        let sums = measure(&sheet)?;
        let mut chain = [0xff; 256];
        let mut writer = Writer {
            output: &mut chain,
            to: 0,
        };
        writer.test(sums)?;
        let to = Fitting {
            sheet: &sheet,
            actor: &mut writer,
        }
        .act()
        .to;
        let quadwords = [
            [0x1000_0001u32, 0, 0, 0],
            [0, 0, 0, 0x1400_0005],
            [0x1000_0002, 0, 0, 0],
            [0, 0x0100_0101, 0x0500_0000, 0x6c01_0003],
            [7, 0, 0, 0x0900_0000],
        ];
        assert_eq!(rt; to, 80);
        for (bytes, word) in chain.chunks_exact(4).zip(quadwords.as_flattened()) {
            assert_eq!(rt; bytes, word.to_le_bytes().as_slice());
        }
        Ok(())
    }
}
