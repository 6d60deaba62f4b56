// Data or lost positions that are pending.
ghost use Rattle.std.specs.Prelude.{◌≡◌, ◌+◌, ◌-◌, ◌<◌, ◌≤◌, ◌^◌, length, take, drop};
ghost use Rattle.sp_reasm.specs.Pieces.{size_of, past_of, has, spot_len, laid, IsSpot};

use sp_base::ByteList;

/// What is pending.
#[derive(Drop)]
pub(crate) enum Content {
    Bytes(ByteList),
    /// So many positions that are lost.
    Missing(u64),
}

/// What is pending from a sequence number on.
#[derive(Drop)]
pub(crate) struct Piece {
    pub(crate) start: u64,
    pub(crate) content: Content,
}

/// What is pending at a sequence number and behind it.
#[derive(Clone, Copy)]
pub(crate) enum Spot<'a> {
    /// These data.
    Bytes(&'a [u8]),
    /// So many positions that are lost.
    Missing(u64),
    /// So many positions without an owner.
    Free(u64),
}

impl Piece {
    /// How many positions it has.
    pub(crate) fn size(&self) -> u64
        ensures { result ≡ size_of self.now.content }
    {
        match &self.content {
            Content::Bytes(bytes) => bytes.len() as u64,
            Content::Missing(len) => *len,
        }
    }

    /// What it has from so many positions behind its first on.
    pub(crate) fn from(&self, past: u64) -> Spot<'_>
        requires within { past < size_of self.now.content }
        requires fits { past_of self.now ≤ 2 ^ 62 }
        ensures { IsSpot (has self.now) (self.now.start + past) result }
    {
        match &self.content {
            Content::Bytes(bytes) => Spot::Bytes(&bytes.as_slice()[past as usize..]),
            Content::Missing(len) => Spot::Missing(*len - past),
        }
    }
}

impl<'a> Spot<'a> {
    /// How many positions it has.
    pub(crate) fn len(&self) -> u64
        ensures { result ≡ spot_len self.now }
    {
        match self {
            Spot::Bytes(bytes) => bytes.len() as u64,
            Spot::Missing(len) => *len,
            Spot::Free(len) => *len,
        }
    }

    /// What it has at a number, and behind it for so many positions at most, where it stands from `start` on.
    pub(crate) fn part(&self, start: u64, at: u64, room: u64) -> Spot<'a>
        requires fits { start + spot_len self.now ≤ 2 ^ 62 }
        requires room { at + room ≤ 2 ^ 64 - 1 }
        requires some { at < 2 ^ 64 - 1 → 0 < room }
        ensures spot { IsSpot (laid start self.now) at result }
        ensures within { spot_len result ≤ room }
    {
        let end = start + self.len();
        if at < start {
            return Spot::Free(room.min(start - at));
        }
        if end <= at {
            return Spot::Free(room);
        }
        let most = room.min(end - at);
        match self {
            Spot::Bytes(bytes) => Spot::Bytes(clipped(bytes, at - start, most)),
            Spot::Missing(_) => Spot::Missing(most),
            Spot::Free(_) => Spot::Free(most),
        }
    }
}

/// So many bytes behind the first `past`.
fn clipped(bytes: &[u8], past: u64, most: u64) -> &[u8]
    requires { past + most ≤ length bytes.now }
    ensures { result.now ≡ take most (drop past bytes.now) }
{
    &bytes[past as usize..(past + most) as usize]
}
