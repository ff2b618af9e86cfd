// Names, paths, acts and calls as bytes, and whether the lengths that their bytes have in front of acts, names and values can be written.
ghost use Rattle.std.specs.Prelude.{◌≡◌, ℕ, Bool, true, List, ◌∷◌, ◌++◌, OnOk};
ghost use Rattle.std.specs.List.{list_all, flat_map};
ghost use Rattle.lent_bytes.specs.Numbers.{be8};
ghost use Rattle.lent_bytes.specs.Paths.{name_bytes};
ghost use Rattle.calls.specs.Format.{path_written, value_written, flag_written, expect_written, act_written, encode_call};
ghost use Rattle.calls.specs.Reading.{expect_of};
ghost use Rattle.words.specs.Values.{name_of, path_of, act_of, call_of};
ghost use Rattle.encoding.specs.Fits.{name_fits, path_fits, value_fits, act_fits, call_fits};

use calls::types::Expected;
use lent_bytes::counts::Session;
use std::alloc::AllocError;
use words::types::{Act, Call, Name, Path};

// What is written as bytes behind other bytes, where its lengths can be written.
pub(crate) trait Encode {
    ghost fitting: { Self → Bool };

    ghost written: { Self → List ℕ };

    // Can its lengths be written?
    fn fits(&self) -> bool
        ensures { result ≡ fitting self.now };

    // kept: a type for what was tested would be no plainer, since the test is made once, of the whole call
    fn encode(&self, out: &mut Vec<u8>) -> Result<(), AllocError>
        requires { fitting self.now ≡ true }
        ensures { OnOk result (out.new.items ≡ out.old.items ++ written self.now) };
}

fn all_fit<T: Encode>(items: &[T]) -> bool
    ensures { result ≡ list_all T.fitting items.now }
{
    items.iter().all(|item| item.fits())
}

// One behind the other.
// kept: as at the trait
fn encode_all<T: Encode>(out: &mut Vec<u8>, items: &[T]) -> Result<(), AllocError>
    requires { list_all T.fitting items.now ≡ true }
    ensures { OnOk result (out.new.items ≡ out.old.items ++ flat_map T.written items.now) }
{
    for item in items {
        item.encode(out)?;
    }
    Ok(())
}

impl Encode for Name {
    ghost fitting = { λ name. name_fits (name_of name) };

    ghost written = { λ name. name_bytes (name_of name) };

    fn fits(&self) -> bool {
        self.0.len() <= 255
    }

    fn encode(&self, out: &mut Vec<u8>) -> Result<(), AllocError> {
        out.push(self.0.len() as u8)?;
        out.extend_from_slice(&self.0)
    }
}

impl Encode for Path {
    ghost fitting = { λ path. path_fits (path_of path) };

    ghost written = { λ path. path_written (path_of path) };

    fn fits(&self) -> bool {
        self.0.len() <= 255 && all_fit(&self.0)
    }

    fn encode(&self, out: &mut Vec<u8>) -> Result<(), AllocError> {
        out.push(self.0.len() as u8)?;
        encode_all(out, &self.0)
    }
}

fn value_fits(value: &[u8]) -> bool
    ensures { result ≡ value_fits value.now }
{
    value.len() <= 0xffff_ffff
}

#[tactic(auto, unfolding(lent_bytes::specs::Numbers::be4))]
fn push_value(out: &mut Vec<u8>, value: &[u8]) -> Result<(), AllocError>
    requires { value_fits value.now ≡ true }
    ensures { OnOk result (out.new.items ≡ out.old.items ++ value_written value.now) }
{
    let long = value.len() as u32;
    out.extend_from_slice(&long.to_be_bytes())?;
    out.extend_from_slice(value)
}

#[tactic(auto, unfolding(lent_bytes::specs::Numbers::be8))]
fn push_expected(out: &mut Vec<u8>, expected: Expected) -> Result<(), AllocError>
    ensures { OnOk result (out.new.items ≡ out.old.items ++ expect_written (expect_of expected)) }
{
    match expected {
        Expected::Any => Ok(out.push(0)?),
        Expected::Exactly(version) => {
            out.push(1)?;
            out.extend_from_slice(&version.0.to_be_bytes())
        }
    }
}

// Is it numbered, and the session that it goes with.
#[tactic(auto, unfolding(lent_bytes::specs::Numbers::be8), using(crate::proofs::Pushes::flag_is))]
fn push_owner(out: &mut Vec<u8>, numbered: bool, session: Session) -> Result<(), AllocError>
    ensures { OnOk result (out.new.items ≡ out.old.items ++ (flag_written numbered ∷ be8 session.0)) }
{
    out.push(u8::from(numbered))?;
    out.extend_from_slice(&session.0.to_be_bytes())
}

impl Encode for Act {
    ghost fitting = { λ act. act_fits (act_of act) };

    ghost written = { λ act. act_written (act_of act) };

    fn fits(&self) -> bool {
        match self {
            Act::Make { path, value, .. } | Act::Put { path, value, .. } => {
                path.fits() && value_fits(value)
            }
            Act::Drop { path, .. } | Act::Check { path, .. } => path.fits(),
        }
    }

    #[tactic(auto, unfolding(calls::specs::Format::act_written))]
    fn encode(&self, out: &mut Vec<u8>) -> Result<(), AllocError> {
        match self {
            Act::Make {
                path,
                value,
                numbered,
                session,
            } => {
                out.push(1)?;
                path.encode(out)?;
                push_value(out, value)?;
                push_owner(out, *numbered, *session)
            }
            Act::Put {
                path,
                value,
                expected,
            } => {
                out.push(2)?;
                path.encode(out)?;
                push_value(out, value)?;
                push_expected(out, *expected)
            }
            Act::Drop { path, expected } => {
                out.push(3)?;
                path.encode(out)?;
                push_expected(out, *expected)
            }
            Act::Check { path, expected } => {
                out.push(4)?;
                path.encode(out)?;
                push_expected(out, *expected)
            }
        }
    }
}

impl Encode for Call {
    ghost fitting = { λ call. call_fits (call_of call) };

    ghost written = { λ call. encode_call (call_of call) };

    fn fits(&self) -> bool {
        match self {
            Call::Do(acts) => acts.len() <= 255 && all_fit(acts),
            Call::Look(path) | Call::Kids(path) => path.fits(),
            Call::Open | Call::End(_) => true,
        }
    }

    #[tactic(auto, unfolding(calls::specs::Format::encode_call, lent_bytes::specs::Numbers::be8))]
    fn encode(&self, out: &mut Vec<u8>) -> Result<(), AllocError> {
        match self {
            Call::Do(acts) => {
                out.extend_from_slice(&[1, acts.len() as u8])?;
                encode_all(out, acts)
            }
            Call::Look(path) => {
                out.push(2)?;
                path.encode(out)
            }
            Call::Kids(path) => {
                out.push(3)?;
                path.encode(out)
            }
            Call::Open => Ok(out.push(4)?),
            Call::End(session) => {
                out.push(5)?;
                out.extend_from_slice(&session.0.to_be_bytes())
            }
        }
    }
}
