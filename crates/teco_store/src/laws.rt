//! What always holds of editors, of changes, and of pages.
ghost use Rattle.std.specs.Prelude.{length};
ghost use Rattle.teco_store.specs.Kinds.{TellsItsTurn};
ghost use Rattle.teco_store.specs.PageLaws.{EndsAtFormFeedsAlone, EndsAtItsLastLine, FinishingWritesAll, HasAtMostItsLines, PagesJoin, TurningKeepsAll};
ghost use Rattle.teco_store.specs.State.{IsSound};

use crate::editor::Editor;

/// What always holds of an editor: each of its parts is within its limit. It does nothing: its clause is a law.
pub fn editor_laws(editor: &Editor)
    ensures sound { IsSound editor.now.room (length editor.now.stored) editor.now.body }
{
    // This shows that what the editor holds is within its limits.
    let _shown = editor.shown();
}

/// What the kind of a change tells of its turn. It does nothing: its clause is a law.
pub fn change_laws()
    ensures { TellsItsTurn }
{}

/// What pages come to. It does nothing: its clauses are laws.
pub fn page_laws()
    ensures alone { EndsAtFormFeedsAlone }
    ensures lines { HasAtMostItsLines }
    ensures last { EndsAtItsLastLine }
    ensures joined { PagesJoin }
    ensures turned { TurningKeepsAll }
    ensures finished { FinishingWritesAll }
{}
