//! What the top call's clauses ask can be met: examples.
ghost use Rattle.std.specs.Prelude.{◌≡◌, [], ◌∷◌, Some, codes};
ghost use Rattle.std.specs.FinMap as map;
ghost use Rattle.ots_outside.specs.Shelf.{Names};
ghost use Rattle.ots_opening.specs.Images.{IsOnlyImage};
ghost use Rattle.ots_calendar_endings.specs.Ran.{NoFaults};
ghost use Rattle.ots_calendar_endings.specs.Told.{no_faults};
ghost use Rattle.ots_calendar_serve.specs.Serve.{MayServe};
ghost use Rattle.ots_calendar_commands.specs.Examples.{some_commitment, some_image, some_serving};

use ots_calendar_endings::Outside;

/// A crash may leave one image alone: of an empty file, and of a journal that holds one commitment and
/// was synced.
pub fn only_image()
    ensures empty { IsOnlyImage (Some []) (λ c. c ≡ []) [] }
    ensures one { IsOnlyImage (Some some_image) (λ c. c ≡ some_image) (some_commitment ∷ []) }
{}

/// No call failed from a moment to itself, where no fault was counted.
pub fn no_faults<T: Outside>()
    ensures { (o : T) → (T.told o).shelf_faults ≡ no_faults → (T.told o).disk_faults ≡ 0
        → (T.told o).sink_faults ≡ 0 → NoFaults (T.told o) (T.told o) }
{}

/// Connections may be served where the key file holds one byte and the journal's file is new.
pub fn may_serve()
    ensures { (names : Names) → map.get names (codes "key") ≡ Some (7 ∷ [])
        → MayServe (Some names) (Some []) some_serving }
{}
