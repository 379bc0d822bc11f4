//! Laws of the desk, each the contract of a call that does nothing.
ghost use Rattle.std.specs.Prelude.{ℕ};
ghost use Rattle.result_table.specs.declared.word.Word.{Word};
ghost use Rattle.result_table.specs.Words.{ClaimIsTake, PublicationIsPublish, CollectionIsCollect, MovesForward};
ghost use Rattle.result_table.specs.Laws.{OnePublication, OneCollection};

use crate::parts::Desk;
use crate::updates::Updates;

/// No task is published by two seats.
pub fn one_publication<S: Updates>(desk: &Desk<S>)
    ensures { OnePublication desk.now }
{
    let _ = desk;
}

/// A task is gathered, or found idle, or found busy, and no two of these.
pub fn one_collection<S: Updates>(desk: &Desk<S>)
    ensures { OneCollection desk.now }
{
    let _ = desk;
}

/// No event moves a word back in the list Free, Taken, Published, Collected.
pub fn words_move_forward()
    ensures { (w : Word) → MovesForward w }
{}

/// A claim's compare and exchange moves each word as the event of taking does.
pub fn claims_take()
    ensures { ClaimIsTake }
{}

/// A publication's compare and exchange moves each word as the event of publishing does.
pub fn publications_publish()
    ensures { PublicationIsPublish }
{}

/// A collection's exchange moves each word as the event of collecting does.
pub fn collections_collect()
    ensures { CollectionIsCollect }
{}
