//! That a run of `stamp` can do its work.
ghost use Rattle.ots_client_words.specs.Words.{Stamping};
ghost use Rattle.ots_outside.specs.Shelf.{Names};
ghost use Rattle.ots_stamping.specs.Complete.{CanStamp};

/// There are names and files of which all holds that `completes` of [`stamp`](crate::stamp) asks for.
pub fn some_can_be_stamped()
    ensures { (names : Names) × (s : Stamping) × CanStamp names s }
{}
