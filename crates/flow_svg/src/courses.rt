//! Where the arrows of constraints go: from a box down to a lane below the picture, along it, and up to another box.

ghost use Rattle.std.specs.Prelude.{◌≡◌, ◌++◌, IfOk, OnOk};
ghost use Rattle.flow_svg.specs.Courses.{box_of, aside, place_at, is_near, is_open, open_place, left_end, right_end, shares, last_lane, lane_of, next_course, with_course, courses_of};

use flow_draw::below;
use flow_view::{Arrow, Place, Shape};
use std::alloc::{AllocError, Global};

/// An arrow with its ends on the lower edges of boxes, counted from the left, and with its lane.
#[derive(Clone, Copy)]
pub(crate) struct Course {
    pub(crate) arrow: Arrow,
    pub(crate) start: u64,
    /// The lower edge of the box that it leaves.
    pub(crate) top: u64,
    pub(crate) lane: u64,
    pub(crate) end: u64,
    /// The lower edge of the box that it reaches.
    pub(crate) bottom: u64,
}

/// At which end an arrow is at a box.
#[derive(Clone, Copy)]
enum End {
    Exit,
    Entry,
}

/// How many places the lower edge of a box has for either end.
const PLACES: u8 = 8;

/// How far the place of that number is from its corner.
fn aside(place: &Place, number: u8) -> u64
    ensures { result ≡ aside place.now number }
{
    if place.right.saturating_sub(place.left) < 144 {
        6 + 5 * number as u64
    } else {
        6 + 9 * number as u64
    }
}

fn place_at(end: End, place: &Place, number: u8) -> u64
    ensures { result ≡ place_at end place.now number }
{
    match end {
        End::Exit => (place.right as u64).saturating_sub(aside(place, number)),
        End::Entry => place.left as u64 + aside(place, number),
    }
}

fn is_near(a: u64, b: u64) -> bool
    ensures { result ≡ is_near a b }
{
    a.saturating_sub(b) < 4 && b.saturating_sub(a) < 4
}

/// Whether no arrow goes down or up there.
fn is_open(x: u64, courses: &[Course]) -> bool
    ensures { result ≡ is_open x courses.now }
{
    for course in courses {
        if is_near(course.start, x) || is_near(course.end, x) {
            return false;
        }
    }
    true
}

/// The first place of a box that is open, or, where none is, the next in turn.
fn open_place(end: End, place: &Place, courses: &[Course]) -> u64
    ensures { result ≡ open_place end place.now courses.now }
{
    for number in 0..PLACES {
        let x = place_at(end, place, number);
        if is_open(x, courses) {
            return x;
        }
    }
    place_at(end, place, (courses.len() % 8) as u8)
}

impl Course {
    /// Where what is drawn of it in its lane begins.
    #[tactic(auto, unfolding(crate::specs::Courses::left_end))]
    fn left_end(&self) -> u64
        ensures { result ≡ left_end self.now }
    {
        if self.start < self.end {
            self.start
        } else {
            self.end.min(self.start.saturating_sub(36))
        }
    }

    /// Where it ends: the arrow, or the number behind its first turn.
    #[tactic(auto, unfolding(crate::specs::Courses::right_end))]
    fn right_end(&self) -> Result<u64, AllocError>
        ensures { IfOk result (λ end. end ≡ right_end self.now) }
    {
        if self.start < self.end {
            let behind = below(self.start, 36)?;
            Ok(self.end.max(behind))
        } else {
            Ok(self.start)
        }
    }
}

/// Whether an arrow stays in the lane of the last one before it.
#[tactic(auto, unfolding(crate::specs::Courses::shares))]
fn shares(last: Option<Course>, course: &Course) -> Result<bool, AllocError>
    ensures { IfOk result (λ both. both ≡ shares last course.now) }
{
    match last {
        Some(last) if last.arrow.rule == course.arrow.rule => {
            let end = last.right_end()?;
            Ok(end < course.left_end())
        }
        _ => Ok(false),
    }
}

/// The lane of the last of the arrows, or the height above all lanes.
pub(crate) fn last_lane(top: u64, courses: &[Course]) -> u64
    ensures { result ≡ last_lane top courses.now }
{
    match courses.last().copied() {
        Some(last) => last.lane,
        None => top,
    }
}

/// The lane of an arrow, behind those.
fn lane_of(top: u64, courses: &[Course], course: &Course) -> Result<u64, AllocError>
    ensures { IfOk result (λ lane. lane ≡ lane_of top courses.now course.now) }
{
    let lane = last_lane(top, courses);
    if shares(courses.last().copied(), course)? {
        Ok(lane)
    } else {
        below(lane, 20)
    }
}

/// Where an arrow goes from one box to another, behind those.
#[tactic(auto, unfolding(crate::specs::Courses::next_course))]
fn next_course(
    top: u64,
    courses: &[Course],
    from: &Place,
    to: &Place,
    arrow: Arrow,
) -> Result<Course, AllocError>
    ensures { IfOk result (λ course. course ≡ next_course top courses.now from.now to.now arrow) }
{
    let course = Course {
        arrow,
        start: open_place(End::Exit, from, courses),
        top: from.bottom as u64,
        lane: top,
        end: open_place(End::Entry, to, courses),
        bottom: to.bottom as u64,
    };
    let lane = lane_of(top, courses, &course)?;
    Ok(Course { lane, ..course })
}

/// Adds where an arrow goes, if both of its leaves have a box.
fn put_course(
    courses: &mut Vec<Course>,
    top: u64,
    from: Option<Place>,
    to: Option<Place>,
    arrow: Arrow,
) -> Result<(), AllocError>
    ensures { OnOk result (courses.new.items ≡ with_course top courses.old.items from to arrow) }
{
    let (Some(from), Some(to)) = (from, to) else {
        return Ok(());
    };
    let course = next_course(top, courses, &from, &to, arrow)?;
    courses.push(course)?;
    Ok(())
}

/// Where the box of a leaf stands.
fn box_of(shapes: &[Shape], leaf: u32) -> Option<Place>
    ensures { result ≡ box_of shapes.now leaf }
{
    for shape in shapes {
        if let Shape::Leaf(number, place) = *shape {
            if number == leaf {
                return Some(place);
            }
        }
    }
    None
}

/// Where the arrows go: their lanes are below that height.
pub(crate) fn courses_of(
    alloc: Global,
    shapes: &[Shape],
    top: u64,
    arrows: &[Arrow],
) -> Result<Vec<Course>, AllocError>
    ensures { IfOk result (λ courses. courses.items ≡ courses_of shapes.now top arrows.now) }
{
    let mut courses = Vec::new(alloc);
    for arrow in arrows {
        let from = box_of(shapes, arrow.from);
        let to = box_of(shapes, arrow.to);
        put_course(&mut courses, top, from, to, *arrow)?;
    }
    Ok(courses)
}
