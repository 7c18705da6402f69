ghost use Rattle.flow_draw.specs.Inside.{SvgStaysInside, MermaidStaysInside, DotStaysInside, QuotedStaysInside, QuotedIsOneLine};

/// What a label says stays in the label: no byte of it ends the text or the quotes in which it stands, or begins a tag.
pub fn law_labels_stay_inside()
    ensures svg { SvgStaysInside }
    ensures mermaid { MermaidStaysInside }
    ensures dot { DotStaysInside }
    ensures quoted { QuotedStaysInside }
    ensures one_line { QuotedIsOneLine }
{}
