use flow_facts::Name;

/// A page: a title, and sections under it.
#[derive(Drop)]
pub struct Page {
    pub title: Name,
    pub sections: Vec<Section>,
}

/// A section: a heading, and what stands under it.
#[derive(Drop)]
pub struct Section {
    pub heading: Name,
    pub parts: Vec<Part>,
}

/// What stands in a section.
#[derive(Drop)]
pub enum Part {
    /// A paragraph.
    Text(Name),
    /// A picture as SVG, which stands in the page as it is. The heading over it is its label.
    Picture(Vec<u8>),
    Table(Table),
}

/// A table: the heads of its columns, and its rows.
#[derive(Drop)]
pub struct Table {
    pub heads: Vec<Name>,
    pub rows: Vec<Row>,
}

/// A row: its head is the cell of the first column.
#[derive(Drop)]
pub struct Row {
    pub head: Name,
    pub cells: Vec<Name>,
    /// Whether what it tells was taken back. It is marked so, in words too.
    pub is_taken_back: bool,
}
