//! Laws over an archive and the client.
ghost use Rattle.std.specs.Prelude.{◌↔◌, List};
ghost use Rattle.ots_address.specs.Address.{AddressParts};
ghost use Rattle.ots_archive_laws.specs.AskedFor.{AreAskedFor};
ghost use Rattle.ots_archive_taken.specs.Given.{AreTreesFor};
ghost use Rattle.ots_archive_taken.specs.Taken.{IsUpgradeBy};
ghost use Rattle.ots_client_endings.specs.Outside.{Outside};
ghost use Rattle.ots_completing.specs.Upgrade.{IsUpgradeOf};
ghost use Rattle.ots_pending.specs.Pairs.{PairAt};
ghost use Rattle.ots_sheet.specs.Reply.{Answer};
ghost use Rattle.ots_sheet.specs.Sheet.{AreAnswers};
ghost use Rattle.ots_sheet.specs.declared.request.Kind.TheVariants.{Get};
ghost use Rattle.ots_tree.specs.declared.detached.Detached.{Detached};
ghost use Rattle.ots_upgrade.specs.Upgrading.{trees_of};
ghost use Rattle.ots_upgrade.specs.declared.asking.AskedAt.{AskedAt};

/// What the replies of a sheet make of a proof is exactly what `ots upgrade` makes of it where the calendars that it
/// asks answer the trees that the sheet gives, and no other, whatever came of asking for the other pairs.
pub fn taken_as_upgraded()
    ensures { (o : Outside) (calendars : List AddressParts) (answers : List Answer) (proof made : Detached)
        (pairs : List PairAt) (asked : List AskedAt) → AreAnswers answers
        → AreAskedFor o calendars proof pairs asked → AreTreesFor answers Get pairs (trees_of asked)
        → IsUpgradeBy answers proof made ↔ IsUpgradeOf o calendars proof asked made }
{}
