//! Writing a proof file.
ghost use Rattle.std.specs.Prelude.{◌≡◌, ◌+◌, ◌-◌, ◌^◌, ◌≤◌, length, min, take, OnOk};
ghost use Rattle.ots_base.specs.Cause.{HasCause};
ghost use Rattle.ots_outside.specs.Streams.{Takes, TakesPrefix};
ghost use Rattle.ots_detached.specs.File.{file_of, header};

use crate::header::MAGIC;
use ots_ops::HashOp;
use ots_outside::{Failed, Sink, write_all};
use ots_tree::{Detached, WriteFault, spell_to, spelled_length};

/// How many bytes the file of a proof has. A number over 2^64 - 1 is given as 2^64 - 1. It takes no
/// memory.
#[tactic(auto, unfolding(crate::specs::File::file_of))]
pub fn file_length(proof: &Detached) -> u64
    ensures { result ≡ min (length (file_of proof.now)) (2 ^ 64 - 1) }
{
    let before_tree = 33 + proof.digest.bytes().len() as u64;
    spelled_length(&proof.tree).saturating_add(before_tree)
}

/// Writes the file of a proof: the magic bytes, the version, the hash's tag, the digest, the tree.
///
/// `WriteFault` comes only where the sink's count of faults rose, and the sink has then taken a
/// prefix of the file. It takes no memory. A file of more than 4,194,304 bytes reads back as too
/// big, so a caller looks at `file_length` first.
#[tactic(auto, unfolding(crate::specs::File::file_of))]
pub fn write_file<K: Sink>(proof: &Detached, sink: &mut K) -> Result<(), WriteFault>
    ensures whole { OnOk result (Takes (K.taken sink.old) (K.taken sink.new) (file_of proof.now)) }
    ensures prefix { TakesPrefix (K.taken sink.old) (K.taken sink.new) (file_of proof.now) }
    ensures cause { HasCause (K.faults sink.old) (K.faults sink.new) result }
    ensures same { K.same sink.old sink.new }
{
    let mut buffer = [0; 65];
    let length = put_header(proof.hash, proof.digest.bytes(), &mut buffer);
    write_all(sink, &buffer[..length])?;
    spell_to(&proof.tree, sink)
}

/// Writes what stands before the tree at the start, and answers how many bytes it has.
fn put_header(hash: HashOp, digest: &[u8], out: &mut [u8; 65]) -> usize
    requires { length digest.now ≤ 32 }
    ensures in_range { result ≤ 65 }
    ensures prefix { take result out.new ≡ header hash digest.now }
{
    let end = 33 + digest.len();
    out[..31].copy_from_slice(&MAGIC);
    out[31] = 0x01;
    out[32] = hash.tag();
    out[33..end].copy_from_slice(digest);
    end
}
