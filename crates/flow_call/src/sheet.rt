use crate::status::{NO_MEMORY, WORDS};
use crate::words::number_in;
use clap::ArgMatches;
use flow_desk::{Format, Sheet};
use flow_facts::Name;

/// The narrowest row of a folded picture, in pixels.
const LEAST_FOLD: u32 = 200;

/// The widest.
const MOST_FOLD: u32 = 1_000_000;

/// The form of a picture of that name.
fn format_called(name: Option<&str>) -> Format {
    match name {
        Some("mermaid") => Format::Mermaid,
        Some("dot") => Format::Dot,
        _ => Format::Svg,
    }
}

/// The width of a row of the picture, if it is folded; else the status, when it is said what is wrong.
fn fold_in(rt: &impl Eprint, form: Format, word: Option<&str>) -> Result<Option<u32>, u8> {
    if word.is_none() {
        return Ok(None);
    }
    if form != Format::Svg {
        let _ = eprintln!(rt;
            "flowdesk draw: --fold is of --form svg: Mermaid and Graphviz place boxes themselves"
        );
        return Err(WORDS);
    }
    match number_in(word, LEAST_FOLD, MOST_FOLD) {
        Some(width) if width >= LEAST_FOLD => Ok(Some(width)),
        _ => {
            let _ = eprintln!(rt;
                "flowdesk draw: --fold is a number of pixels, {LEAST_FOLD} to {MOST_FOLD}"
            );
            Err(WORDS)
        }
    }
}

/// How the words ask for a picture; else the status, when it is said what is wrong.
pub fn sheet_in(rt: &(impl AllocGlobal + Eprint), words: &ArgMatches<'_>) -> Result<Sheet, u8> {
    let form = format_called(words.get_str("form"));
    let fold = fold_in(rt, form, words.get_str("fold"))?;
    let title = words.get_str("title").unwrap_or("").as_bytes();
    if title.iter().any(|byte| *byte < 32) {
        let _ = eprintln!(rt; "flowdesk draw: --title is one line of text");
        return Err(WORDS);
    }
    match Name::new(rt.alloc(), title) {
        Ok(title) => Ok(Sheet { form, title, fold }),
        Err(_) => Err(NO_MEMORY),
    }
}
