use crate::format::Format;
use flow_facts::Name;

/// How a picture is written.
#[derive(Drop)]
pub struct Sheet {
    pub form: Format,
    /// It stands over the picture. Where it is empty there is none.
    pub title: Name,
    /// How wide a row of an SVG may be, in pixels. Without it the picture is one row. Of the other forms it says nothing.
    pub fold: Option<u32>,
}
