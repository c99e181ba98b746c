// Fields that are whole, taken one after the other.
ghost use Rattle.std.specs.Prelude.{◌≡◌, ◌⊎◌, ◌+◌, ◌≤◌, ◌<◌, ◌^◌, [], length, Some, IfOk, IfErr};
ghost use Rattle.p9_object.specs.Bytes.{judged, module_at};
ghost use Rattle.p9_steps.specs.Places.{state, state_read, wanted};
ghost use Rattle.p9_reader.specs.declared.faults.ObjFault.TheVariants.{Memory};
ghost use Rattle.p9_reader.specs.Answers.{stop_of, refusal, answer_of};
ghost use Rattle.p9_reader.specs.Fields.{waiting, AreTaken, AllTaken, IsEnd, is_done};

use crate::faults::ObjFault;
use crate::progress::Place;
use p9_abs::AModule;
use p9_steps::{State, Step, step, width};
use std::alloc::Global;

// The end of the next field, where it lies within so many bytes.
fn field_end(place: &Place, size: usize) -> Option<usize>
    requires { place.now.taken ≤ size }
    ensures { IsEnd (state place.now.state) place.now.taken size result }
{
    match width(&place.state) {
        Some(width) if width <= size - place.taken => Some(place.taken + width),
        Some(_) | None => None,
    }
}

// The place behind the field at this place.
fn field_taken(alloc: Global, from: Place, field: &[u8]) -> Result<Place, ObjFault>
    requires whole { wanted (state from.state) ≡ Some (length field.now) }
    requires fits { from.taken + length field.now < 2 ^ 63 }
    ensures taken { IfOk result (λ place.
        judged from.taken (length field.now) (state_read (state from.state) field.now)
        ≡ waiting place.taken (state place.state) []) }
    ensures refused { IfErr result (λ fault. (fault ≡ Memory)
        ⊎ (stop_of (judged from.taken (length field.now) (state_read (state from.state) field.now)) ≡ Some fault)) }
{
    let Place { taken, state } = from;
    match step(alloc, state, field)? {
        Step::Next(state) => Ok(Place {
            taken: taken + field.len(),
            state,
        }),
        Step::NoObject => Err(ObjFault::BadObject(taken)),
        Step::OtherVersion(version) => Err(ObjFault::Version(version)),
    }
}

fn is_done(of: &State) -> bool
    ensures { result ≡ is_done (state of.now) }
{
    match of {
        State::Magic | State::Version | State::Count | State::InSymbols(_) => false,
        State::Done(_) => true,
    }
}

/// The place behind the whole fields of the bytes, from a place among them on. No byte comes behind
/// an object.
pub(crate) fn all_taken(alloc: Global, bytes: &[u8], from: Place) -> Result<Place, ObjFault>
    requires { AreTaken bytes.now from.taken (state from.state) }
    ensures taken { IfOk result (λ place. AllTaken bytes.now place.taken (state place.state)) }
    ensures refused { IfErr result (λ fault. (fault ≡ Memory) ⊎ (refusal bytes.now ≡ Some fault)) }
{
    let mut place = from;
    while let Some(end) = field_end(&place, bytes.len()) {
        let field = &bytes[place.taken..end];
        place = field_taken(alloc, place, field)?;
    }
    if is_done(&place.state) && place.taken < bytes.len() {
        return Err(ObjFault::BadObject(place.taken));
    }
    Ok(place)
}

/// The module of a whole object, where so many bytes led to the state.
pub(crate) fn module_at(at: State, size: usize) -> Result<AModule, ObjFault>
    ensures { result ≡ answer_of (module_at (state at) size) }
{
    match at {
        State::Magic | State::Version | State::Count | State::InSymbols(_) => {
            Err(ObjFault::BadObject(size))
        }
        State::Done(symbols) => Ok(AModule { symbols }),
    }
}
