// Calls as bytes.
#![tactic(auto)]

mod encode;

ghost use Rattle.std.specs.Prelude.{◌≡◌, ◌++◌, OnOk};
ghost use Rattle.calls.specs.Format.{encode_call};
ghost use Rattle.words.specs.Values.{call_of};
ghost use Rattle.encoding.specs.Fits.{Encoded};

use encode::Encode;
use words::types::{Call, Fault, Wrong};

// Writes the call's bytes behind what is there; a call with more acts or names, or with longer ones, than their lengths can say is refused, and nothing is written.
pub fn push_call(out: &mut Vec<u8>, call: &Call) -> Result<(), Fault>
    ensures encoded { Encoded (call_of call.now) out.old.items out.new.items result }
    ensures written { OnOk result (out.new.items ≡ out.old.items ++ encode_call (call_of call.now)) }
{
    if !call.fits() {
        return Err(Fault::Wrong(Wrong::Long));
    }
    call.encode(out)?;
    Ok(())
}
