// The path block: a GIF path as nine words.
ghost use Rattle.std.specs.Prelude.{◌≡◌, leb, Some};
ghost use Rattle.std.specs.Bool.{then_some};
ghost use Rattle.state_block.specs.Read.{known_path};
ghost use Rattle.state_block.specs.PathBlock.{tag_format_number, tag_format_numbered, place_block, path_block, no_path, path_in_block};

use super::PATH_WORDS;
use super::words::{bit_in, halves, joined};
use gif::{HeldTag, Path, TagFormat};

fn tag_format_number(format: TagFormat) -> u32
    ensures { result ≡ tag_format_number format }
{
    match format {
        TagFormat::Packed => 0,
        TagFormat::Reglist => 1,
        TagFormat::Image => 2,
    }
}

fn tag_format_numbered(n: u32) -> Option<TagFormat>
    ensures { result ≡ then_some (leb n 2) (tag_format_numbered n) }
{
    match n {
        0 => Some(TagFormat::Packed),
        1 => Some(TagFormat::Reglist),
        2 => Some(TagFormat::Image),
        _ => None,
    }
}

#[tactic(auto, using(crate::proofs::WordLaws::bit_from))]
fn tag_block(q: u32, tag: HeldTag) -> [u32; PATH_WORDS]
    ensures { result ≡ place_block q (Some tag) }
{
    let [low, high] = halves(tag.descriptors);
    [
        q,
        1,
        tag_format_number(tag.format),
        tag.nloop,
        u32::from(tag.eop),
        tag.nreg,
        low,
        high,
        tag.due,
    ]
}

// The words of a path.
pub fn path_block(path: Path) -> [u32; PATH_WORDS]
    ensures { result ≡ path_block path }
{
    match path.place {
        None => [path.q, 0, 0, 0, 0, 0, 0, 0, 0],
        Some(tag) => tag_block(path.q, tag),
    }
}

// The path of a block, where its words are a path's.
pub fn path_in_block(block: &[u32]) -> Option<Path>
    ensures { result ≡ known_path (path_in_block block.now) }
{
    let [q, held, format, nloop, eop, nreg, low, high, due] = *block.as_array::<PATH_WORDS>()?;
    if held == 0 {
        return Some(Path { q, place: None });
    }
    if held != 1 {
        return None;
    }
    let tag = HeldTag {
        nloop,
        eop: bit_in(eop)?,
        format: tag_format_numbered(format)?,
        nreg,
        descriptors: joined(low, high),
        due,
    };
    Some(Path {
        q,
        place: Some(tag),
    })
}

// Stands for the path of words that are no path's: out of range, since a held tag has loops.
fn no_path() -> Path
    ensures { result ≡ no_path }
{
    Path {
        q: 0,
        place: Some(HeldTag {
            nloop: 0,
            eop: false,
            format: TagFormat::Image,
            nreg: 0,
            descriptors: 0,
            due: 0,
        }),
    }
}

// The path of a block, or one out of range where there is none.
pub fn path_given(block: &[u32]) -> Path
    ensures { result ≡ (path_in_block block.now).path }
{
    path_in_block(block).unwrap_or(no_path())
}
