//! A folder of cases as a page.
ghost use Rattle.std.specs.Prelude.{◌≡◌, ◌∷◌, [], ◌++◌, length, map, IfOk, OnOk};
ghost use Rattle.std.specs.List.{flat_map};
ghost use Rattle.flow_page.specs.Shown.{shown_section};
ghost use Rattle.flow_folder_page.specs.Held.{held_of_case, IsOldestFirst};
ghost use Rattle.flow_folder_page.specs.Folder.{title_text, first_sections, last_sections, sections_of, IsPageOf};

use crate::all::all_section;
use crate::cells::text_of;
use crate::data::{DamagedCase, FolderCase};
use crate::free::free_section;
use crate::held::{Held, held_section, oldest_first};
use crate::stand::stand_section;
use crate::stuck::{damaged_section, stuck_section};
use crate::waits::wait_section;
use flow_draw::Piece;
use flow_facts::Name;
use flow_page::{Page, Section};
use std::alloc::{AllocError, Global};

/// A folder of cases, as it is looked at.
#[derive(Clone, Copy)]
pub struct Folder<'a> {
    pub path: &'a str,
    /// When this is shown.
    pub at: &'a str,
    pub cases: &'a [FolderCase],
    pub damaged: &'a [DamagedCase],
}

/// The page of a folder of cases. The one error is want of memory.
pub fn folder_page(alloc: Global, folder: &Folder<'_>) -> Result<Page, AllocError>
    ensures { IfOk result (IsPageOf folder.now) }
{
    let held = oldest_first(alloc, folder.cases)?;
    page_with(alloc, folder, &held)
}

/// The page, with what is out.
fn page_with(alloc: Global, folder: &Folder<'_>, held: &[Held]) -> Result<Page, AllocError>
    requires { IsOldestFirst (flat_map held_of_case folder.now.cases.now) held.now }
    ensures { IfOk result (IsPageOf folder.now) }
{
    let title = title_of(alloc, folder.path, folder.at)?;
    let sections = sections_of(alloc, folder.cases, folder.damaged, held)?;
    Ok(Page { title, sections })
}

/// The title: the folder, and when it is shown.
fn title_of<'a>(alloc: Global, path: &'a str, at: &'a str) -> Result<Name, AllocError>
    ensures { IfOk result (λ title. title ≡ title_text path.now at.now) }
{
    text_of(
        alloc,
        &[
            Piece::Words(path.as_bytes()),
            Piece::Words(b", "),
            Piece::Words(at.as_bytes()),
        ],
    )
}

/// The sections, in order.
fn sections_of(
    alloc: Global,
    cases: &[FolderCase],
    damaged: &[DamagedCase],
    held: &[Held],
) -> Result<Vec<Section>, AllocError>
    ensures { IfOk result (λ sections. map shown_section sections.items ≡ sections_of cases.now damaged.now held.now) }
{
    let mut sections = Vec::new(alloc);
    push_first(alloc, &mut sections, cases, damaged)?;
    sections.push(held_section(alloc, held)?)?;
    push_last(alloc, &mut sections, cases, damaged)?;
    Ok(sections)
}

/// Adds how the cases stand, and what waits.
fn push_first(
    alloc: Global,
    sections: &mut Vec<Section>,
    cases: &[FolderCase],
    damaged: &[DamagedCase],
) -> Result<(), AllocError>
    ensures { OnOk result (map shown_section sections.new.items ≡ map shown_section sections.old.items ++ first_sections cases.now (length damaged.now)) }
{
    sections.push(stand_section(alloc, cases, damaged)?)?;
    sections.push(wait_section(alloc, cases)?)?;
    sections.push(free_section(alloc, cases)?)?;
    Ok(())
}

/// Adds what is stuck, what is damaged, and all.
fn push_last(
    alloc: Global,
    sections: &mut Vec<Section>,
    cases: &[FolderCase],
    damaged: &[DamagedCase],
) -> Result<(), AllocError>
    ensures { OnOk result (map shown_section sections.new.items ≡ map shown_section sections.old.items ++ last_sections cases.now damaged.now) }
{
    sections.push(stuck_section(alloc, cases)?)?;
    sections.push(damaged_section(alloc, damaged)?)?;
    sections.push(all_section(alloc, cases)?)?;
    Ok(())
}
