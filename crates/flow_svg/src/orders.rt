ghost use Rattle.std.specs.Prelude.{◌≡◌, ◌+◌, ◌-◌, ◌++◌, IfOk, OnOk};
ghost use Rattle.flow_svg.specs.Orders.{title_text, path_text, to_right, to_left, straight, course_line, number_place, number_line, orders_text, course_lines, number_lines};

use crate::courses::Course;
use crate::notes::push_number;
use flow_draw::{Piece, below, push_pieces};
use flow_view::Arrow;
use std::alloc::AllocError;

/// Adds the arrows, and the numbers of their constraints, which stand over all arrows.
pub(crate) fn push_orders(text: &mut Vec<u8>, courses: &[Course]) -> Result<(), AllocError>
    ensures { OnOk result (text.new.items ≡ text.old.items ++ orders_text courses.now) }
{
    push_courses(text, courses)?;
    push_numbers(text, courses)
}

fn push_courses(text: &mut Vec<u8>, courses: &[Course]) -> Result<(), AllocError>
    ensures { OnOk result (text.new.items ≡ text.old.items ++ course_lines courses.now) }
{
    for course in courses {
        push_course(text, course)?;
    }
    Ok(())
}

fn push_numbers(text: &mut Vec<u8>, courses: &[Course]) -> Result<(), AllocError>
    ensures { OnOk result (text.new.items ≡ text.old.items ++ number_lines courses.now) }
{
    for course in courses {
        push_course_number(text, course)?;
    }
    Ok(())
}

/// How far to the right the number of an arrow's constraint stands: behind the first turn of the arrow.
pub(crate) fn number_place(course: &Course) -> Result<u64, AllocError>
    ensures { IfOk result (λ place. place ≡ number_place course.now) }
{
    if course.start < course.end {
        below(course.start, 18)
    } else {
        Ok(course.start.saturating_sub(18))
    }
}

/// Adds the number of an arrow's constraint.
fn push_course_number(text: &mut Vec<u8>, course: &Course) -> Result<(), AllocError>
    ensures { OnOk result (text.new.items ≡ text.old.items ++ number_line course.now) }
{
    let place = number_place(course)?;
    push_number(text, place, course.lane, 4, course.arrow.rule as u64)
}

/// Adds an arrow. Where its ends are so near that its turns would not find room, these are not round.
fn push_course(text: &mut Vec<u8>, course: &Course) -> Result<(), AllocError>
    ensures { OnOk result (text.new.items ≡ text.old.items ++ course_line course.now) }
{
    if course.end.saturating_sub(course.start) > 15 {
        push_to_right(text, course)?;
    } else if course.start.saturating_sub(course.end) > 15 {
        push_to_left(text, course)?;
    } else {
        push_straight(text, course)?;
    }
    push_title(text, &course.arrow)
}

#[tactic(auto, unfolding(crate::specs::Orders::title_text))]
fn push_title(text: &mut Vec<u8>, arrow: &Arrow) -> Result<(), AllocError>
    ensures { OnOk result (text.new.items ≡ text.old.items ++ title_text arrow.now) }
{
    push_pieces(
        text,
        &[
            Piece::Words(b"<title>constraint "),
            Piece::Number(arrow.rule as u64),
            Piece::Words(b": "),
            Piece::Number(arrow.from as u64),
            Piece::Words(b" before "),
            Piece::Number(arrow.to as u64),
            Piece::Words(b"</title></path>\n"),
        ],
    )
}

fn push_to_right(text: &mut Vec<u8>, course: &Course) -> Result<(), AllocError>
    ensures { OnOk result (text.new.items ≡ text.old.items ++ to_right course.now) }
{
    let turn = course.lane.saturating_sub(8);
    let back = course.end.saturating_sub(8);
    push_path(text, course, turn, b"q0 8 8 8H", back, b"q8 0 8 -8V")
}

fn push_to_left(text: &mut Vec<u8>, course: &Course) -> Result<(), AllocError>
    ensures { OnOk result (text.new.items ≡ text.old.items ++ to_left course.now) }
{
    let turn = course.lane.saturating_sub(8);
    let back = below(course.end, 8)?;
    push_path(text, course, turn, b"q0 8 -8 8H", back, b"q-8 0 -8 -8V")
}

fn push_straight(text: &mut Vec<u8>, course: &Course) -> Result<(), AllocError>
    ensures { OnOk result (text.new.items ≡ text.old.items ++ straight course.now) }
{
    push_path(text, course, course.lane, b"H", course.end, b"V")
}

#[tactic(auto, unfolding(crate::specs::Orders::path_text))]
fn push_path(
    text: &mut Vec<u8>,
    course: &Course,
    turn: u64,
    around: &'static [u8],
    back: u64,
    up: &'static [u8],
) -> Result<(), AllocError>
    ensures { OnOk result (text.new.items ≡ text.old.items ++ path_text course.now turn around.now back up.now) }
{
    push_pieces(
        text,
        &[
            Piece::Words(b"<path class=\"order\" d=\"M"),
            Piece::Number(course.start),
            Piece::Words(b" "),
            Piece::Number(course.top),
            Piece::Words(b"V"),
            Piece::Number(turn),
            Piece::Words(around),
            Piece::Number(back),
            Piece::Words(up),
            Piece::Number(course.bottom),
            Piece::Words(b"\">"),
        ],
    )
}
