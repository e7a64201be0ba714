// Data of the tag that a path holds, many quadwords at a time. Each format has a loop of its own, since each carries something else from one quadword to the next:
// Q and a nibble, a nibble, nothing. One loop over closures that do would be no plainer.
ghost use Rattle.std.specs.Prelude.{◌≡◌, ◌<◌, ◌≤◌, None, Some};
ghost use Rattle.fields.specs.Counts.{one_if};
ghost use Rattle.gif.specs.declared.TagFormat.TheVariants.{Packed, Reglist, Image};
ghost use Rattle.gif.specs.Log.{LogFits};
ghost use Rattle.gif.specs.Tag.{path_of};
ghost use Rattle.gif.specs.Range.{TagFits, PlaceFits};
ghost use Rattle.gif.specs.Feed.{quadwords_result};
ghost use Rattle.gif.specs.Inner.{QuadwordsInside, DataFits, place_after_many, many_close, TakenAtOnce};

use super::image::image_writes;
use super::log::append;
use super::memory::Source;
use super::packed::{often_writes, packed_q};
use super::reglist::{halves, second_descriptor};
use super::step::path_at_tag;
use super::tag::{descriptor_in, next_nibble, tag_closes, tag_writes};
use super::{ENTRY_SIZE, HeldTag, Path, QuadwordsResult, TagFormat};
use fields::one_if;

// What n data quadwords of a tag leave.
fn data_result(tag: HeldTag, q: u32, used: u64, n: u32) -> QuadwordsResult
    requires { n ≤ tag.due }
    ensures { result ≡ quadwords_result (path_of q (place_after_many tag n)) used n (one_if (many_close tag n)) (Ok tt) }
{
    QuadwordsResult {
        path: Path {
            q,
            place: tag.place_after_many(n),
        },
        used,
        taken: n,
        packets: one_if(tag.many_close(n)),
        answer: Ok(()),
    }
}

// n data quadwords of PACKED, or those before descriptor B.
fn packed_data(
    source: Source<'_>,
    q: u32,
    tag: HeldTag,
    n: u32,
    log: &mut [u64],
    used: u64,
) -> QuadwordsResult
    requires { DataFits tag source.main.now source.a n log.old used × (tag.format ≡ Packed) }
    ensures { TakenAtOnce source.entry.which source.entry.main.now source.entry.a n (path_of q (Some tag)) used log.old result log.new }
{
    let mut latest = q;
    let mut entries = used;
    let mut nibble = tag.taken() % tag.nreg;
    for k in 0..n {
        let descriptor = descriptor_in(tag.descriptors, nibble);
        if descriptor == 11 {
            return data_result(tag, latest, entries, k);
        }
        let quad = source.quadword(k);
        let writes = often_writes(descriptor, latest, quad);
        entries = append(log, entries, source.which, writes);
        latest = packed_q(descriptor, latest, quad);
        nibble = next_nibble(nibble, tag.nreg);
    }
    data_result(tag, latest, entries, n)
}

// n data quadwords of REGLIST, or those before descriptor B.
fn reglist_data(
    source: Source<'_>,
    q: u32,
    tag: HeldTag,
    n: u32,
    log: &mut [u64],
    used: u64,
) -> QuadwordsResult
    requires { DataFits tag source.main.now source.a n log.old used × (tag.format ≡ Reglist) }
    ensures { TakenAtOnce source.entry.which source.entry.main.now source.entry.a n (path_of q (Some tag)) used log.old result log.new }
{
    let item = 2 * tag.taken();
    let mut entries = used;
    let mut nibble = item % tag.nreg;
    for k in 0..n {
        let first = descriptor_in(tag.descriptors, nibble);
        let upper = next_nibble(nibble, tag.nreg);
        let second = second_descriptor(tag, item + 2 * k + 1, upper);
        if first == 11 || second == 11 {
            return data_result(tag, q, entries, k);
        }
        let quad = source.quadword(k);
        entries = append(log, entries, source.which, halves(first, second, quad));
        nibble = next_nibble(upper, tag.nreg);
    }
    data_result(tag, q, entries, n)
}

// n data quadwords of IMAGE.
fn image_data(
    source: Source<'_>,
    q: u32,
    tag: HeldTag,
    n: u32,
    log: &mut [u64],
    used: u64,
) -> QuadwordsResult
    requires { DataFits tag source.main.now source.a n log.old used × (tag.format ≡ Image) }
    ensures { TakenAtOnce source.entry.which source.entry.main.now source.entry.a n (path_of q (Some tag)) used log.old result log.new }
{
    let mut entries = used;
    for k in 0..n {
        let quad = source.quadword(k);
        entries = append(log, entries, source.which, image_writes(quad));
    }
    data_result(tag, q, entries, n)
}

// Data quadwords of a tag, where `left` of any kind are left: as many as the log has surely room for, two entries each.
fn tag_data(
    source: Source<'_>,
    q: u32,
    tag: HeldTag,
    left: u32,
    log: &mut [u64],
    used: u64,
) -> QuadwordsResult
    requires { QuadwordsInside source.main.now source.a left × (TagFits tag × LogFits log.old used) }
    ensures { TakenAtOnce source.entry.which source.entry.main.now source.entry.a left (path_of q (Some tag)) used log.old result log.new }
{
    let room = (log.len() as u64 - ENTRY_SIZE * used) / (2 * ENTRY_SIZE);
    let n = u64::from(left.min(tag.due)).min(room) as u32;
    match tag.format {
        TagFormat::Packed => packed_data(source, q, tag, n, log, used),
        TagFormat::Reglist => reglist_data(source, q, tag, n, log, used),
        TagFormat::Image => image_data(source, q, tag, n, log, used),
    }
}

// A tag, where the log has surely room for its write.
fn tag_quadword(source: Source<'_>, path: Path, log: &mut [u64], used: u64) -> QuadwordsResult
    requires { QuadwordsInside source.main.now source.a 1 × (LogFits log.old used × (path.place ≡ None)) }
    ensures { TakenAtOnce source.entry.which source.entry.main.now source.entry.a 1 path used log.old result log.new }
{
    if (log.len() as u64) < ENTRY_SIZE * (used + 1) {
        return QuadwordsResult {
            path,
            used,
            taken: 0,
            packets: 0,
            answer: Ok(()),
        };
    }
    let quad = source.quadword(0);
    QuadwordsResult {
        path: path_at_tag(quad),
        used: append(log, used, source.which, tag_writes(quad)),
        taken: 1,
        packets: one_if(tag_closes(quad)),
        answer: Ok(()),
    }
}

// Quadwords that are taken at once, where `left` are left: a tag, or data of the one that the path holds. There may be none.
pub(crate) fn quadwords_at_once(
    source: Source<'_>,
    path: Path,
    left: u32,
    log: &mut [u64],
    used: u64,
) -> QuadwordsResult
    requires { QuadwordsInside source.main.now source.a left × (0 < left) × PlaceFits path.place × LogFits log.old used }
    ensures { TakenAtOnce source.entry.which source.entry.main.now source.entry.a left path used log.old result log.new }
{
    match path.place {
        None => tag_quadword(source, path, log, used),
        Some(tag) => tag_data(source, path.q, tag, left, log, used),
    }
}
