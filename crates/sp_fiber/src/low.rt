// The least place that open constructs still need.
ghost use Rattle.std.specs.Prelude.{◌≡◌, reverse};
ghost use Rattle.sp_meaning_states.specs.Scopes.{needs};
ghost use Rattle.sp_code.specs.Machine.{low_of};
ghost use Rattle.sp_frames.specs.Frames.{frame_of, frames_of};

use sp_frames::Frame;

/// The least place that a frame still needs, of the least one inside it.
fn least(frame: &Frame, inside: u64) -> u64
    ensures { result ≡ needs (frame_of frame.now).scope inside }
{
    match frame {
        Frame::Unit { keeps, start, .. } => { if *keeps { (*start).min(inside) } else { inside } }
        Frame::Parts { .. } => inside,
        Frame::Failing { .. } => inside,
        Frame::Call { .. } => inside,
    }
}

/// The least place that these frames still need, the innermost of which is the last, of the least one inside them.
#[tactic(auto, using(crate::proofs::Least::least_further))]
pub(crate) fn low(frames: &[Frame], inside: u64) -> u64
    ensures { result ≡ low_of (frames_of (reverse frames.now)) inside }
{
    let mut low = inside;
    let mut left = frames.len();
    while left > 0 {
        left -= 1;
        low = least(&frames[left], low);
    }
    low
}
