ghost use Rattle.flow_export.specs.ReadBack.{CsvIsReadBack};
ghost use Rattle.flow_export.specs.Literal.{LiteralsAreReadBack};
ghost use Rattle.flow_export.specs.Value.{ValuesAreReadBack};

/// What the kit's reader reads of a log in CSV.
pub fn law_csv_is_read_back()
    ensures { CsvIsReadBack }
{}

/// A text that stands as the value of an attribute of XML is read as what XML can say of it, and ends nothing.
pub fn law_xml_values_are_read_back()
    ensures { ValuesAreReadBack }
{}

/// A text that stands as a literal of SQL is read as it is, with a sign for each NUL, and ends where it was written.
pub fn law_sql_literals_are_read_back()
    ensures { LiteralsAreReadBack }
{}
