// Objects whose bytes are all there.
ghost use Rattle.std.specs.Prelude.{◌≡◌, ◌⊎◌, Ok, Err, IfOk, IfErr};
ghost use Rattle.p9_object.specs.Fields.{spelling};
ghost use Rattle.p9_object.specs.Laws.{IsObject, Breaks};
ghost use Rattle.p9_reader.specs.declared.faults.ObjFault.TheVariants.{BadObject, Version, Memory};
ghost use Rattle.p9_reader.specs.Answers.{answer, HasVersion};

use crate::faults::ObjFault;
use crate::reader::ObjReader;
use p9_abs::AModule;
use std::alloc::Global;

/// The module of an object's bytes.
pub fn read_obj(alloc: Global, bytes: &[u8]) -> Result<AModule, ObjFault>
    ensures valid { IfOk result (λ m. IsObject m) }
    ensures spelled { IfOk result (λ m. bytes.now ≡ spelling m) }
    ensures read { (m : _) → IsObject m → bytes.now ≡ spelling m → (result ≡ Ok m) ⊎ (result ≡ Err Memory) }
    ensures exact { (result ≡ Err Memory) ⊎ (result ≡ answer bytes.now) }
    ensures broken { (at : _) → result ≡ Err (BadObject at) → Breaks bytes.now at }
    ensures version { (v : _) → result ≡ Err (Version v) → HasVersion bytes.now v }
{
    let mut reader = ObjReader::new(alloc)?;
    reader.feed(alloc, bytes)?;
    reader.finish()
}
