//! That a run of `upgrade` can do its work.
ghost use Rattle.ots_client_words.specs.Words.{Upgrading};
ghost use Rattle.ots_completing.specs.Complete.{CanUpgrade};
ghost use Rattle.ots_outside.specs.Shelf.{Names};

/// There are names and a proof of which all holds that `completes` of [`upgrade`](crate::upgrade) asks for.
pub fn some_can_be_upgraded()
    ensures { (names : Names) × (u : Upgrading) × CanUpgrade names u }
{}
