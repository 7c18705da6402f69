ghost use Rattle.std.specs.Prelude.{◌≡◌, ◌++◌, IfOk, OnOk};
ghost use Rattle.flow_page.specs.Page.{head_text, page_text};

use crate::data::Page;
use crate::sections::push_sections;
use crate::style::{HEAD, STYLE};
use flow_draw::{Format, Piece, push_pieces};
use std::alloc::{AllocError, Global};

/// Prints a page as HTML. It asks for nothing beside itself.
#[tactic(auto, unfolding(crate::specs::Page::page_text))]
pub fn print_page(alloc: Global, page: &Page) -> Result<Vec<u8>, AllocError>
    ensures { IfOk result (λ text. text.items ≡ page_text page.now) }
{
    let mut text = Vec::new(alloc);
    push_head(&mut text, page.title.bytes())?;
    push_sections(&mut text, &page.sections)?;
    text.extend_from_slice(b"</main>\n</body>\n</html>\n")?;
    Ok(text)
}

/// Adds what comes before the sections: how the page looks, and its title.
#[tactic(auto, unfolding(crate::specs::Page::head_text))]
fn push_head(text: &mut Vec<u8>, title: &[u8]) -> Result<(), AllocError>
    ensures { OnOk result (text.new.items ≡ text.old.items ++ head_text title.now) }
{
    push_pieces(
        text,
        &[
            Piece::Words(HEAD),
            Piece::Words(b"<title>"),
            Piece::Escaped(Format::Svg, title),
            Piece::Words(b"</title>\n"),
            Piece::Words(STYLE),
            Piece::Words(b"</head>\n<body>\n<main>\n<h1>"),
            Piece::Escaped(Format::Svg, title),
            Piece::Words(b"</h1>\n"),
        ],
    )
}
