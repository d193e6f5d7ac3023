// The one call of the archive, of whose clauses nothing is carried on.
use ots_archive::run_archive;
use ots_archive_world::World;
use std::alloc::Global;

/// A run of the archive over any world, and the number that it ends with. What its clauses say is left here: the
/// transcript says what came of it.
pub fn call<W: World>(alloc: Global, words: &[String], world: &mut W) -> u8 {
    run_archive(alloc, words, world).number()
}
