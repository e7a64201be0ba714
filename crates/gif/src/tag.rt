// The tag's fields, and what a path holds of a tag.
ghost use Rattle.std.specs.Prelude.{◌≡◌, ◌+◌, ◌*◌, ◌/◌, ◌%◌, ◌^◌, ◌<◌, ◌≤◌};
ghost use Rattle.gif.specs.Range.{TagFits, within, tag_in_range};
ghost use Rattle.gif.specs.Tag.{format_of, nreg_of, quadwords_of, tag_of, taken_of, descriptor_at, place_after, place_at_tag, tag_closes, data_closes, tag_writes};
ghost use Rattle.gif.specs.Inner.{listed, quadword_of, place_after_many, many_close};

use super::{HeldTag, Quadword, TagFormat, Write, Writes};

fn format_of(flg: u64) -> TagFormat
    ensures { result ≡ format_of flg }
{
    match flg {
        0 => TagFormat::Packed,
        1 => TagFormat::Reglist,
        _ => TagFormat::Image,
    }
}

fn nreg_of(nreg: u32) -> u32
    ensures { result ≡ nreg_of nreg }
{
    if nreg == 0 { 16 } else { nreg }
}

impl TagFormat {
    // The quadwords of a tag's data.
    pub(crate) fn quadwords(self, nloop: u32, nreg: u32) -> u32
        requires { (nloop ≤ 32767) × (nreg ≤ 16) }
        ensures { result ≡ quadwords_of self nloop nreg }
    {
        match self {
            TagFormat::Packed => nloop * nreg,
            TagFormat::Reglist => (nloop * nreg + 1) / 2,
            TagFormat::Image => nloop,
        }
    }
}

fn tag_of(quad: Quadword) -> HeldTag
    ensures { result ≡ tag_of (quadword_of quad) }
{
    let nloop = (quad.low % 32768) as u32;
    let format = format_of(quad.low / 0x400_0000_0000_0000 % 4);
    let nreg = nreg_of((quad.low / 0x1000_0000_0000_0000) as u32);
    HeldTag {
        nloop,
        eop: quad.low / 32768 % 2 == 1,
        format,
        nreg,
        descriptors: quad.high,
        due: format.quadwords(nloop, nreg),
    }
}

fn within(least: u32, most: u32, n: u32) -> bool
    ensures { result ≡ within least most n }
{
    (least..=most).contains(&n)
}

impl HeldTag {
    // Whether it is in its range.
    pub(crate) fn in_range(self) -> bool
        ensures { result ≡ tag_in_range self }
    {
        within(1, 32767, self.nloop)
            && within(1, 16, self.nreg)
            && within(1, self.format.quadwords(self.nloop, self.nreg), self.due)
    }

    // How many of its quadwords were taken.
    pub(crate) fn taken(self) -> u32
        requires { TagFits self }
        ensures { result ≡ taken_of self }
    {
        self.format.quadwords(self.nloop, self.nreg) - self.due
    }

    // The descriptor of an item.
    pub(crate) fn descriptor_at(self, item: u32) -> u64
        requires { TagFits self }
        ensures { result ≡ descriptor_at self item }
    {
        descriptor_in(self.descriptors, item % self.nreg)
    }

    // The place after n more data quadwords.
    pub(crate) fn place_after_many(self, n: u32) -> Option<HeldTag>
        requires { n ≤ self.due }
        ensures { result ≡ place_after_many self n }
    {
        if self.due == n {
            None
        } else {
            Some(HeldTag {
                due: self.due - n,
                ..self
            })
        }
    }

    pub(crate) fn place_after(self) -> Option<HeldTag>
        requires { TagFits self }
        ensures { result ≡ place_after self }
    {
        self.place_after_many(1)
    }

    // Whether the last of its next n data quadwords closes a packet.
    pub(crate) fn many_close(self, n: u32) -> bool
        ensures { result ≡ many_close self n }
    {
        self.eop && self.due == n
    }

    // Whether its next data quadword closes a packet.
    pub(crate) fn data_closes(self) -> bool
        ensures { result ≡ data_closes self }
    {
        self.many_close(1)
    }
}

// The descriptor at a nibble.
pub(crate) fn descriptor_in(descriptors: u64, nibble: u32) -> u64
    requires { nibble < 16 }
    ensures { result ≡ descriptors / 2 ^ (4 * nibble) % 16 }
{
    (descriptors >> (4 * nibble)) % 16
}

// The nibble of the next item.
pub(crate) fn next_nibble(nibble: u32, nreg: u32) -> u32
    requires { (nibble < nreg) × (nreg ≤ 16) }
    ensures { result ≡ (nibble + 1) % nreg }
{
    if nibble + 1 == nreg { 0 } else { nibble + 1 }
}

pub(crate) fn place_at_tag(quad: Quadword) -> Option<HeldTag>
    ensures { result ≡ place_at_tag (quadword_of quad) }
{
    if quad.low % 32768 == 0 {
        None
    } else {
        Some(tag_of(quad))
    }
}

// Whether a tag closes a packet by itself.
pub(crate) fn tag_closes(quad: Quadword) -> bool
    ensures { result ≡ tag_closes (quadword_of quad) }
{
    quad.low / 32768 % 2 == 1 && quad.low % 32768 == 0
}

// A tag's own write.
pub(crate) fn tag_writes(quad: Quadword) -> Writes
    ensures { listed result ≡ tag_writes (quadword_of quad) }
{
    let has_data = quad.low % 32768 != 0;
    let pre = quad.low / 0x4000_0000_0000 % 2 == 1;
    if has_data && pre && quad.low / 0x400_0000_0000_0000 % 4 == 0 {
        Writes::One(Write {
            register: 0,
            value: quad.low / 0x8000_0000_0000 % 2048,
        })
    } else {
        Writes::Nothing
    }
}
