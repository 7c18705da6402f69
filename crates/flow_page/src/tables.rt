ghost use Rattle.std.specs.Prelude.{◌≡◌, ◌++◌, OnOk};
ghost use Rattle.std.specs.List.{flat_map};
ghost use Rattle.flow_page.specs.Tables.{column_text, cell_text, row_open, row_mark, row_head_text, row_text, table_open, heads_text, body_text, table_text};

use crate::data::{Row, Table};
use flow_draw::{Format, Piece, push_pieces};
use flow_facts::Name;
use std::alloc::AllocError;

/// Adds a table. Its label is the heading of that number. Where it is wider than the page, it is moved in a frame of its own.
#[tactic(auto, unfolding(crate::specs::Tables::table_text))]
pub(crate) fn push_table(text: &mut Vec<u8>, number: u64, table: &Table) -> Result<(), AllocError>
    ensures { OnOk result (text.new.items ≡ text.old.items ++ table_text number table.now) }
{
    push_heads(text, number, &table.heads)?;
    push_body(text, &table.rows)
}

#[tactic(auto, unfolding(crate::specs::Tables::heads_text))]
fn push_heads(text: &mut Vec<u8>, number: u64, heads: &[Name]) -> Result<(), AllocError>
    ensures { OnOk result (text.new.items ≡ text.old.items ++ heads_text number heads.now) }
{
    push_open(text, number)?;
    push_columns(text, heads)?;
    text.extend_from_slice(b"</tr></thead>\n")
}

/// Adds the begin of a table.
#[tactic(auto, unfolding(crate::specs::Tables::table_open))]
fn push_open(text: &mut Vec<u8>, number: u64) -> Result<(), AllocError>
    ensures { OnOk result (text.new.items ≡ text.old.items ++ table_open number) }
{
    push_pieces(
        text,
        &[
            Piece::Words(b"<div class=\"wide\"><table aria-labelledby=\"part-"),
            Piece::Number(number),
            Piece::Words(b"\">\n<thead><tr>"),
        ],
    )
}

#[tactic(auto, unfolding(crate::specs::Tables::body_text))]
fn push_body(text: &mut Vec<u8>, rows: &[Row]) -> Result<(), AllocError>
    ensures { OnOk result (text.new.items ≡ text.old.items ++ body_text rows.now) }
{
    text.extend_from_slice(b"<tbody>\n")?;
    push_rows(text, rows)?;
    text.extend_from_slice(b"</tbody>\n</table></div>\n")
}

/// Adds the heads of columns.
fn push_columns(text: &mut Vec<u8>, heads: &[Name]) -> Result<(), AllocError>
    ensures { OnOk result (text.new.items ≡ text.old.items ++ flat_map column_text heads.now) }
{
    for head in heads {
        push_column(text, head.bytes())?;
    }
    Ok(())
}

#[tactic(auto, unfolding(crate::specs::Tables::column_text))]
fn push_column(text: &mut Vec<u8>, head: &[u8]) -> Result<(), AllocError>
    ensures { OnOk result (text.new.items ≡ text.old.items ++ column_text head.now) }
{
    push_pieces(
        text,
        &[
            Piece::Words(b"<th scope=\"col\">"),
            Piece::Escaped(Format::Svg, head),
            Piece::Words(b"</th>"),
        ],
    )
}

/// Adds rows, in order.
fn push_rows(text: &mut Vec<u8>, rows: &[Row]) -> Result<(), AllocError>
    ensures { OnOk result (text.new.items ≡ text.old.items ++ flat_map row_text rows.now) }
{
    for row in rows {
        push_row(text, row)?;
    }
    Ok(())
}

#[tactic(auto, unfolding(crate::specs::Tables::row_text))]
fn push_row(text: &mut Vec<u8>, row: &Row) -> Result<(), AllocError>
    ensures { OnOk result (text.new.items ≡ text.old.items ++ row_text row.now) }
{
    push_row_head(text, row.is_taken_back, row.head.bytes())?;
    push_cells(text, &row.cells)?;
    text.extend_from_slice(b"</tr>\n")
}

/// How a row begins: what was taken back has a class of its own.
fn row_open(is_taken_back: bool) -> &'static [u8]
    ensures { result.now ≡ row_open is_taken_back }
{
    if is_taken_back {
        b"<tr class=\"taken-back\"><th scope=\"row\">"
    } else {
        b"<tr><th scope=\"row\">"
    }
}

/// How the head of a row ends: with words where it was taken back.
fn row_mark(is_taken_back: bool) -> &'static [u8]
    ensures { result.now ≡ row_mark is_taken_back }
{
    if is_taken_back {
        b" <em>taken back</em></th>"
    } else {
        b"</th>"
    }
}

#[tactic(auto, unfolding(crate::specs::Tables::row_head_text))]
fn push_row_head(text: &mut Vec<u8>, is_taken_back: bool, head: &[u8]) -> Result<(), AllocError>
    ensures { OnOk result (text.new.items ≡ text.old.items ++ row_head_text is_taken_back head.now) }
{
    push_pieces(
        text,
        &[
            Piece::Words(row_open(is_taken_back)),
            Piece::Escaped(Format::Svg, head),
            Piece::Words(row_mark(is_taken_back)),
        ],
    )
}

/// Adds the cells of a row behind its head.
fn push_cells(text: &mut Vec<u8>, cells: &[Name]) -> Result<(), AllocError>
    ensures { OnOk result (text.new.items ≡ text.old.items ++ flat_map cell_text cells.now) }
{
    for cell in cells {
        push_cell(text, cell.bytes())?;
    }
    Ok(())
}

#[tactic(auto, unfolding(crate::specs::Tables::cell_text))]
fn push_cell(text: &mut Vec<u8>, cell: &[u8]) -> Result<(), AllocError>
    ensures { OnOk result (text.new.items ≡ text.old.items ++ cell_text cell.now) }
{
    push_pieces(
        text,
        &[
            Piece::Words(b"<td>"),
            Piece::Escaped(Format::Svg, cell),
            Piece::Words(b"</td>"),
        ],
    )
}
