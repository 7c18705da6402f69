ghost use Rattle.flow_page.specs.Reading.{TextsAreReadBack};

/// A text that stands escaped in a page is read there as it is: it does not end the element in which it stands, begins none, and each `&`
/// of it begins a reference.
pub fn law_texts_stay_inside()
    ensures { TextsAreReadBack }
{}
