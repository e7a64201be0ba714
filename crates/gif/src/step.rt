// One quadword taken by a path.
ghost use Rattle.std.specs.Prelude.{◌≡◌};
ghost use Rattle.fields.specs.Fields.{quadword};
ghost use Rattle.gif.specs.Log.{LogFits};
ghost use Rattle.gif.specs.Tag.{path_of, place_after, place_at_tag, data_closes, tag_q};
ghost use Rattle.gif.specs.Range.{TagFits, PlaceFits};
ghost use Rattle.gif.specs.Inner.{listed, quadword_of};
ghost use Rattle.gif.specs.Step.{left, refused_result, commit, tag_step, packed_step, reglist_step, image_step, data_step, gif_step, take_of};

use super::image::image_writes;
use super::log::{finish, log_refused};
use super::packed::{packed_q, packed_writes};
use super::range::path_in_range;
use super::reglist::{halves, second_descriptor};
use super::tag::{place_at_tag, tag_closes, tag_writes};
use super::{GifPath, GifResult, HeldTag, Path, Quadword, TagFormat, Writes};
use fields::Refusal;

fn refuse(refusal: Refusal, path: Path, used: u64) -> GifResult
    ensures { result ≡ refused_result refusal path used }
{
    GifResult {
        answer: Err(refusal),
        path,
        used,
    }
}

// The path after a tag.
pub(crate) fn path_at_tag(quad: Quadword) -> Path
    ensures { result ≡ path_of tag_q (place_at_tag (quadword_of quad)) }
{
    Path {
        q: 0x3f80_0000,
        place: place_at_tag(quad),
    }
}

fn take_tag(which: GifPath, path: Path, quad: Quadword, log: &mut [u64], used: u64) -> GifResult
    requires { LogFits log.old used }
    ensures { left result log.new ≡ tag_step which path (quadword_of quad) used log.old }
{
    let after = path_at_tag(quad);
    let writes = tag_writes(quad);
    finish(which, path, after, tag_closes(quad), writes, log, used)
}

// The step of a data quadword by its writes and Q after it.
fn finish_data(
    which: GifPath,
    path: Path,
    tag: HeldTag,
    q: u32,
    writes: Writes,
    log: &mut [u64],
    used: u64,
) -> GifResult
    requires { LogFits log.old used × TagFits tag }
    ensures { left result log.new ≡ commit which path (path_of q (place_after tag)) (data_closes tag) (listed writes) used log.old }
{
    let place = tag.place_after();
    let after = Path { q, place };
    finish(which, path, after, tag.data_closes(), writes, log, used)
}

fn take_packed(
    which: GifPath,
    path: Path,
    tag: HeldTag,
    quad: Quadword,
    log: &mut [u64],
    used: u64,
) -> GifResult
    requires { LogFits log.old used × TagFits tag }
    ensures { left result log.new ≡ packed_step which path tag (quadword_of quad) used log.old }
{
    let descriptor = tag.descriptor_at(tag.taken());
    if descriptor == 11 {
        return refuse(Refusal::DescriptorB, path, used);
    }
    let q = packed_q(descriptor, path.q, quad);
    let writes = packed_writes(descriptor, path.q, quad);
    finish_data(which, path, tag, q, writes, log, used)
}

fn take_reglist(
    which: GifPath,
    path: Path,
    tag: HeldTag,
    quad: Quadword,
    log: &mut [u64],
    used: u64,
) -> GifResult
    requires { LogFits log.old used × TagFits tag }
    ensures { left result log.new ≡ reglist_step which path tag (quadword_of quad) used log.old }
{
    let item = 2 * tag.taken();
    let first = tag.descriptor_at(item);
    let second = second_descriptor(tag, item + 1, (item + 1) % tag.nreg);
    // Two tests: by `||` both descriptors would be picked before the first is tested.
    if first == 11 {
        return refuse(Refusal::DescriptorB, path, used);
    }
    if second == 11 {
        return refuse(Refusal::DescriptorB, path, used);
    }
    let writes = halves(first, second, quad);
    finish_data(which, path, tag, path.q, writes, log, used)
}

fn take_image(
    which: GifPath,
    path: Path,
    tag: HeldTag,
    quad: Quadword,
    log: &mut [u64],
    used: u64,
) -> GifResult
    requires { LogFits log.old used × TagFits tag }
    ensures { left result log.new ≡ image_step which path tag (quadword_of quad) used log.old }
{
    finish_data(which, path, tag, path.q, image_writes(quad), log, used)
}

fn take_data(
    which: GifPath,
    path: Path,
    tag: HeldTag,
    quad: Quadword,
    log: &mut [u64],
    used: u64,
) -> GifResult
    requires { LogFits log.old used × TagFits tag }
    ensures { left result log.new ≡ data_step tag.format which path tag (quadword_of quad) used log.old }
{
    match tag.format {
        TagFormat::Packed => take_packed(which, path, tag, quad, log, used),
        TagFormat::Reglist => take_reglist(which, path, tag, quad, log, used),
        TagFormat::Image => take_image(which, path, tag, quad, log, used),
    }
}

// Document 01's step, on a log and a path that were tested.
pub(crate) fn step(
    which: GifPath,
    path: Path,
    quad: Quadword,
    log: &mut [u64],
    used: u64,
) -> GifResult
    requires { LogFits log.old used × PlaceFits path.place }
    ensures { left result log.new ≡ gif_step which path (quadword_of quad) used log.old }
{
    match path.place {
        None => take_tag(which, path, quad, log, used),
        Some(tag) => take_data(which, path, tag, quad, log, used),
    }
}

// One quadword given to a path, on any input at all.
pub fn take_quadword(
    which: GifPath,
    path: Path,
    low: u64,
    high: u64,
    log: &mut [u64],
    used: u64,
) -> GifResult
    ensures { left result log.new ≡ take_of which path (quadword low high) used log.old }
{
    if log_refused(log, used) {
        return refuse(Refusal::LogLength, path, used);
    }
    if path_in_range(path) {
        step(which, path, Quadword { low, high }, log, used)
    } else {
        refuse(Refusal::OutOfRange, path, used)
    }
}
