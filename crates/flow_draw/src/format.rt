/// The form in which a picture is written.
#[derive(Clone, Copy, PartialEq, Eq)]
pub enum Format {
    /// A picture that a browser shows.
    Svg,
    /// A flowchart of Mermaid.
    Mermaid,
    /// A graph of Graphviz.
    Dot,
}
