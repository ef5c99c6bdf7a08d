//! What holds of sources.
ghost use Rattle.teco_source.specs.Laws.{CommentsAreNothing, CommentLinesAreNothing, BlanksBeforeAnEndAreNothing, MarginsAreNothing, BreaksAreNothing, PlacesAreFirst, PlacesGrow, WholeLinesAreRead};

/// The laws of sources, as its clauses: comments, blanks and the places of line ends do not change what a source stands for; and up
/// to the place of a caret that cannot be read a source is read. Each byte of the commands has a place in the source, and a later byte
/// has a later one. A source whose lines say a text is read as that text. The call does nothing.
pub fn source_laws()
    ensures comments { CommentsAreNothing }
    ensures comment_lines { CommentLinesAreNothing }
    ensures blanks { BlanksBeforeAnEndAreNothing }
    ensures margins { MarginsAreNothing }
    ensures breaks { BreaksAreNothing }
    ensures places { PlacesAreFirst }
    ensures grow { PlacesGrow }
    ensures lines { WholeLinesAreRead }
{}
