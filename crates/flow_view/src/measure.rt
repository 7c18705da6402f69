ghost use Rattle.std.specs.Prelude.{◌≡◌, ◌+◌, ◌*◌, ◌≤◌, ◌<◌, ◌⊎◌, ◌^◌, IfOk, IfErr};
ghost use Rattle.flow_view.specs.Sizes as sizes;
ghost use Rattle.flow_view.specs.Sizes.{IsMeasured, IsRefusal, IsSize};
ghost use Rattle.flow_view.specs.Sketch.{box, forked, framed, row, sketch_of};

use crate::refusal::ViewRefusal;
use crate::scene::{Fork, Frame, Scene};
use crate::size::{
    BAR, CAPTION, FORK, FRAME, GAP, LEAF_HALF, LEAST_WIDTH, LETTER, MARGIN, MOST_PIXELS, NOP_HALF,
    SPLIT, Size,
};
use std::alloc::Global;

impl Scene {
    /// How large the part is.
    pub fn size(&self) -> Size
        requires { IsMeasured self.now }
        ensures { IsSize result (sketch_of self.now) }
    {
        match self {
            Scene::Nop => Size {
                width: GAP,
                half: NOP_HALF,
            },
            Scene::Leaf(_, letters) => Size {
                width: LEAST_WIDTH + LETTER * *letters,
                half: LEAF_HALF,
            },
            Scene::Serial(size, _, _) | Scene::Forked(_, size, _, _) | Scene::Framed(_, size, _) =>
                *size,
        }
    }
}

/// The size, unless a picture of that is too large.
fn checked(width: u64, half: u64) -> Result<Size, ViewRefusal>
    requires wide { width < 2 ^ 63 }
    requires high { half < 2 ^ 62 }
    ensures ok { IfOk result (λ size. (size.width ≡ width) × (size.half ≡ half) × (width + 2 * MARGIN ≤ MOST_PIXELS) × (2 * (half + MARGIN) ≤ MOST_PIXELS)) }
    ensures err { IfErr result (λ e. (e ≡ ViewRefusal.TooLarge) × ((MOST_PIXELS < width + 2 * MARGIN) ⊎ (MOST_PIXELS < 2 * (half + MARGIN)))) }
{
    let most = u64::from(MOST_PIXELS);
    let margin = u64::from(MARGIN);
    if width + 2 * margin > most || 2 * (half + margin) > most {
        return Err(ViewRefusal::TooLarge);
    }
    Ok(Size {
        width: width as u32,
        half: half as u32,
    })
}

// The recursion over goals that are thousands of levels deep calls these, and is to keep little on the stack: so none is to be inlined.

/// The box of a leaf that shows so many letters.
#[inline(never)]
pub(crate) fn leaf(leaf: u32, letters: usize) -> Result<Scene, ViewRefusal>
    ensures measured { IfOk result IsMeasured }
    ensures sketch { IfOk result (λ scene. sketch_of scene ≡ box leaf letters) }
    ensures refused { IfErr result (IsRefusal (box leaf letters)) }
{
    let Ok(letters) = u32::try_from(letters) else {
        return Err(ViewRefusal::TooLarge);
    };
    let width = u64::from(LEAST_WIDTH) + u64::from(LETTER) * u64::from(letters);
    let _size = checked(width, u64::from(LEAF_HALF))?;
    Ok(Scene::Leaf(leaf, letters))
}

/// The left part, and then the right one.
#[inline(never)]
pub(crate) fn row(alloc: Global, left: Scene, right: Scene) -> Result<Scene, ViewRefusal>
    requires left { IsMeasured left }
    requires right { IsMeasured right }
    ensures measured { IfOk result IsMeasured }
    ensures sketch { IfOk result (λ scene. sketch_of scene ≡ row (sketch_of left) (sketch_of right)) }
    ensures refused { IfErr result (IsRefusal (row (sketch_of left) (sketch_of right))) }
{
    let one = left.size();
    let other = right.size();
    let width = u64::from(one.width) + u64::from(GAP) + u64::from(other.width);
    let half = one.half.max(other.half);
    match checked(width, u64::from(half)) {
        Ok(size) => {
            let (left, right) = boxed(alloc, left, right)?;
            Ok(Scene::Serial(size, left, right))
        }
        Err(refused) => {
            drop(left);
            drop(right);
            Err(refused)
        }
    }
}

/// The first part above the second.
#[inline(never)]
pub(crate) fn forked(
    alloc: Global,
    fork: Fork,
    above: Scene,
    below: Scene,
) -> Result<Scene, ViewRefusal>
    requires above { IsMeasured above }
    requires below { IsMeasured below }
    ensures measured { IfOk result IsMeasured }
    ensures sketch { IfOk result (λ scene. sketch_of scene ≡ forked fork (sketch_of above) (sketch_of below)) }
    ensures refused { IfErr result (IsRefusal (forked fork (sketch_of above) (sketch_of below))) }
{
    let one = above.size();
    let other = below.size();
    let bars = if fork.barred { 2 * (BAR + FORK) } else { 0 };
    let width = u64::from(one.width.max(other.width)) + u64::from(bars);
    let half = u64::from(one.half) + u64::from(SPLIT) + u64::from(other.half);
    match checked(width, half) {
        Ok(size) => {
            let (above, below) = boxed(alloc, above, below)?;
            Ok(Scene::Forked(fork, size, above, below))
        }
        Err(refused) => {
            drop(above);
            drop(below);
            Err(refused)
        }
    }
}

/// Both parts in boxes.
fn boxed(alloc: Global, one: Scene, other: Scene) -> Result<(Box<Scene>, Box<Scene>), ViewRefusal>
    ensures ok { IfOk result (λ p. (p.0.value ≡ one) × (p.1.value ≡ other)) }
    ensures err { IfErr result (λ e. e ≡ ViewRefusal.NoMemory) }
{
    let one = match Box::new(alloc, one) {
        Ok(one) => one,
        Err(refused) => {
            drop(other);
            return Err(refused.into());
        }
    };
    match Box::new(alloc, other) {
        Ok(other) => Ok((one, other)),
        Err(refused) => {
            drop(one);
            Err(refused.into())
        }
    }
}

/// How wide a caption is.
fn caption(frame: Frame) -> u64
    ensures { result ≡ sizes.caption frame }
{
    match frame {
        Frame::Iso => 0,
        Frame::Called(_, letters) => u64::from(LETTER) * u64::from(letters),
    }
}

/// The part in a frame.
#[inline(never)]
pub(crate) fn framed(alloc: Global, frame: Frame, part: Scene) -> Result<Scene, ViewRefusal>
    requires { IsMeasured part }
    ensures measured { IfOk result IsMeasured }
    ensures sketch { IfOk result (λ scene. sketch_of scene ≡ framed frame (sketch_of part)) }
    ensures refused { IfErr result (IsRefusal (framed frame (sketch_of part))) }
{
    let one = part.size();
    let width = caption(frame).max(u64::from(one.width)) + 2 * u64::from(FRAME);
    match checked(width, u64::from(one.half) + u64::from(CAPTION)) {
        Ok(size) => Ok(Scene::Framed(frame, size, Box::new(alloc, part)?)),
        Err(refused) => {
            drop(part);
            Err(refused)
        }
    }
}
