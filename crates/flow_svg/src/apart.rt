ghost use Rattle.flow_svg.specs.Lanes.{ArrowsAreApart, EachTakesItsEnds};

/// Of two arrows in one lane, the one that comes first ends left of where the other begins; what an arrow takes of its lane has both of its
/// ends in it.
pub fn law_arrows_stay_apart()
    ensures apart { ArrowsAreApart }
    ensures ends { EachTakesItsEnds }
{}
