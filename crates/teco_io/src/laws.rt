//! What a terminal shows always says.
ghost use Rattle.teco_io.specs.Laws.{ShowsMore, StillShows};

/// What a terminal shows, one put after another. It does nothing: its clauses are laws.
pub fn screen_laws()
    ensures nothing { StillShows }
    ensures more { ShowsMore }
{}
