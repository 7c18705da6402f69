ghost use Rattle.std.specs.Prelude.{◌≡◌, IfOk, OnOk, ◌++◌};
ghost use Rattle.flow_svg.specs.Courses.{courses_in, lanes_top};
ghost use Rattle.flow_svg.specs.Svg.{drawing_text, lanes_bottom, picture_text, picture_bottom, under_text, under_bottom, page_width, svg_text, IsSvg};

use crate::courses::{Course, courses_of, last_lane};
use crate::cuts::rows_of;
use crate::notes::{legend_width, notes_width, push_left_out, push_legend, push_notes};
use crate::orders::push_orders;
use crate::page::{heading_width, print_page, push_ends};
use crate::rows::{folded_width, push_folded};
use crate::shapes::push_shapes;
use flow_draw::{Sheet, below};
use flow_facts::Name;
use flow_view::{Labels, Mark, Picture};
use std::alloc::{AllocError, Global};

/// Prints a picture as SVG: with what labels show, with a run's marks, and with the constraints under it. Where there are no marks, no
/// run is shown. Of the sheet, the title and the width of a row count.
pub fn print_svg(
    alloc: Global,
    picture: &Picture,
    labels: &Labels,
    marks: &[Mark],
    rules: &[Name],
    sheet: &Sheet,
) -> Result<Vec<u8>, AllocError>
    ensures { IfOk result (λ text. IsSvg picture.now labels.now marks.now rules.now sheet.now.title sheet.now.fold text.items) }
{
    let top = lanes_top(picture);
    let courses = courses_of(alloc, &picture.shapes, top, &picture.arrows)?;
    let cuts = rows_of(alloc, picture, &courses, sheet.fold)?;
    let mut body = Vec::new(alloc);
    let drawn = push_picture(alloc, &mut body, picture, &courses, labels, marks, &cuts)?;
    let bottom = push_under(&mut body, drawn, marks, rules)?;
    let title = sheet.title.bytes();
    let width = below(page_width(picture, marks, rules, title, &cuts), 32)?;
    print_page(alloc, title, width, below(bottom, 32)?, &body)
}

/// The height below which the lanes of arrows are.
fn lanes_top(picture: &Picture) -> u64
    ensures { result ≡ lanes_top picture.now }
{
    (picture.height as u64).saturating_sub(24)
}

#[tactic(auto, unfolding(crate::specs::Svg::drawing_text))]
/// Adds the arrows, before all else, so that boxes stand over them, and the shapes. It gives how far down they reach.
fn push_drawing(
    text: &mut Vec<u8>,
    picture: &Picture,
    courses: &[Course],
    labels: &Labels,
    marks: &[Mark],
) -> Result<u64, AllocError>
    requires { courses.now ≡ courses_in picture.now }
    ensures text { OnOk result (text.new.items ≡ text.old.items ++ drawing_text picture.now labels.now marks.now) }
    ensures bottom { IfOk result (λ y. y ≡ lanes_bottom picture.now) }
{
    push_orders(text, courses)?;
    push_shapes(text, &picture.shapes, labels, marks)?;
    push_ends(text, picture.width as u64, picture.height as u64 / 2)?;
    below(last_lane(lanes_top(picture), courses), 40)
}

#[tactic(auto, unfolding(crate::specs::Svg::picture_text))]
/// Adds the picture, in the rows that end at these places, and whether arrows are left out. It gives how far down it reaches.
fn push_picture(
    alloc: Global,
    text: &mut Vec<u8>,
    picture: &Picture,
    courses: &[Course],
    labels: &Labels,
    marks: &[Mark],
    cuts: &[u64],
) -> Result<u64, AllocError>
    requires { courses.now ≡ courses_in picture.now }
    ensures text { OnOk result (text.new.items ≡ text.old.items ++ picture_text picture.now labels.now marks.now cuts.now) }
    ensures bottom { IfOk result (λ y. y ≡ picture_bottom picture.now cuts.now) }
{
    let mut drawing = Vec::new(alloc);
    let high = push_drawing(&mut drawing, picture, courses, labels, marks)?;
    let bottom = push_folded(text, high, &drawing, cuts)?;
    push_left_out(text, bottom, picture.left_out)
}

#[tactic(auto, unfolding(crate::specs::Svg::under_text))]
/// Adds what stands under a picture, from a height on. It gives how far down it reaches.
fn push_under(
    text: &mut Vec<u8>,
    top: u64,
    marks: &[Mark],
    rules: &[Name],
) -> Result<u64, AllocError>
    ensures text { OnOk result (text.new.items ≡ text.old.items ++ under_text top marks.now rules.now) }
    ensures bottom { IfOk result (λ y. y ≡ under_bottom top marks.now rules.now) }
{
    let legend = push_legend(text, top, marks)?;
    push_notes(text, below(legend, 16)?, rules)
}

/// How wide a page is, without what lies around all.
fn page_width(picture: &Picture, marks: &[Mark], rules: &[Name], title: &[u8], cuts: &[u64]) -> u64
    ensures { result ≡ page_width picture.now marks.now rules.now title.now cuts.now }
{
    let under = legend_width(marks).max(notes_width(rules));
    folded_width(picture.width as u64, cuts).max(under.max(heading_width(title)))
}
