// Quadwords of main memory taken by a path one after another.
ghost use Rattle.std.specs.Prelude.{◌≡◌};
ghost use Rattle.fields.specs.Memory.{quadword_at};
ghost use Rattle.fields.specs.Refusals.{refusal_in};
ghost use Rattle.gif.specs.Log.{LogFits};
ghost use Rattle.gif.specs.Range.{PlaceFits};
ghost use Rattle.gif.specs.Step.{left, gif_step};
ghost use Rattle.gif.specs.Feed.{fed_by, feeds_of, feed_refusal, feed_of};
ghost use Rattle.gif.specs.Inner.{QuadwordsInside};

use super::burst::quadwords_at_once;
use super::log::log_refused;
use super::memory::Source;
use super::range::path_in_range;
use super::step::step;
use super::{GifPath, GifResult, Path, QuadwordsResult};
use fields::{Refusal, one_if};

// The step of the quadword at an address.
fn step_at(source: Source<'_>, path: Path, log: &mut [u64], used: u64) -> GifResult
    requires { QuadwordsInside source.main.now source.a 1 × (PlaceFits path.place × LogFits log.old used) }
    ensures { left result log.new ≡ gif_step source.entry.which path (quadword_at source.entry.main.now source.entry.a) used log.old }
{
    step(source.which, path, source.quadword(0), log, used)
}

// The quadwords up to the first that is refused, where all was tested. The loop counts no index: how many are taken at once is for their tag and the log to say.
fn feed(source: Source<'_>, path: Path, count: u32, log: &mut [u64], used: u64) -> QuadwordsResult
    requires { QuadwordsInside source.main.now source.a count × (PlaceFits path.place × LogFits log.old used) }
    ensures { fed_by result log.new ≡ feeds_of source.entry.which source.entry.main.now source.entry.a count path used log.old }
{
    let mut p = path;
    let mut entries = used;
    let mut taken: u32 = 0;
    let mut packets: u64 = 0;
    while taken < count {
        let rest = Source {
            a: source.a + 16 * taken,
            ..source
        };
        let b = quadwords_at_once(rest, p, count - taken, log, entries);
        if 0 < b.taken {
            p = b.path;
            entries = b.used;
            taken += b.taken;
            packets += b.packets;
            continue;
        }
        let r = step_at(rest, p, log, entries);
        match r.answer {
            Ok(closed) => {
                p = r.path;
                entries = r.used;
                taken += 1;
                packets += one_if(closed);
            }
            Err(refusal) => return QuadwordsResult {
                path: p,
                used: entries,
                taken,
                packets,
                answer: Err(refusal),
            },
        }
    }
    QuadwordsResult {
        path: p,
        used: entries,
        taken,
        packets,
        answer: Ok(()),
    }
}

// The refusal of the input, where there is one.
fn test_feed(
    path: Path,
    main: &[u8],
    a: u32,
    count: u32,
    log: &[u64],
    used: u64,
) -> Result<(), Refusal>
    ensures { refusal_in result ≡ feed_refusal main.now a count path used log.now }
{
    if log_refused(log, used) {
        return Err(Refusal::LogLength);
    }
    if !path_in_range(path) {
        return Err(Refusal::OutOfRange);
    }
    if !fields::lies_inside(main, a, 16 * count as usize) {
        return Err(Refusal::PayloadOutside);
    }
    Ok(())
}

// Quadwords given to a path, on any input at all; none is taken where one lies outside.
pub fn take_quadwords(
    which: GifPath,
    path: Path,
    main: &[u8],
    a: u32,
    count: u32,
    log: &mut [u64],
    used: u64,
) -> QuadwordsResult
    ensures { fed_by result log.new ≡ feed_of which main.now a count path used log.old }
{
    match test_feed(path, main, a, count, log, used) {
        Ok(()) => feed(Source { which, main, a }, path, count, log, used),
        Err(refusal) => QuadwordsResult {
            path,
            used,
            taken: 0,
            packets: 0,
            answer: Err(refusal),
        },
    }
}
