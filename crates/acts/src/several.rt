// Several acts, written into two lent buffers in turn, while the tree that stands is left as it is.
ghost use Rattle.std.specs.Prelude.{◌≡◌, ◌+◌, ◌<◌, ◌≤◌, false, ◌||◌, length, IfOk, nat_lt};
ghost use Rattle.std.specs.List.{AllByRecursion};
ghost use Rattle.model.specs.Tree.{acts, does, values_in, Do};
ghost use Rattle.calls.specs.Reading.{act_of, acts_in};
ghost use Rattle.cells.specs.Entries.{tree_state};
ghost use Rattle.cells.specs.Fits.{Fits, Suits};
ghost use Rattle.tree.specs.Answers.{made_by, numbered};
ghost use Rattle.tree.specs.Steps.{counting, weighed, Ready};
ghost use Rattle.acts.specs.Several.{brought, made_all, standing, StandsIn, step_at, Plain, Ran, ran_of};

use calls::reading::read_act;
use calls::types::{Act, ActKind, Acts};
use cells::draft::Size;
use cells::held::{Current, Tree};
use changing::acts::copy_all;
use doing::do_act;
use lent_bytes::counts::Count;
use tree::base::Base;
use tree::refusal::Refusal;

// Where the tree stands to which the acts so far have led: as it was, or in one of the two buffers.
#[derive(Clone, Copy)]
pub enum Stands {
    Last,
    Left(Size),
    Right(Size),
}

// The act that was refused, from 0, and why.
#[derive(Clone, Copy)]
pub struct Refused {
    pub act: u8,
    pub refusal: Refusal,
}

// One act on the tree where it stands, written into the other buffer.
fn do_next(
    tree: Tree<'_>,
    room: u64,
    act: Act<'_>,
    changes: Count,
    stands: Stands,
    left: &mut [u8],
    lefts: &mut [u32],
    right: &mut [u8],
    rights: &mut [u32],
) -> Result<Stands, Refusal>
    requires stands { StandsIn stands tree.bytes.now tree.places.now left.old lefts.old right.old rights.old }
    requires ready { Ready room (standing stands tree.bytes.now tree.places.now left.old lefts.old right.old rights.old) }
    requires left { Suits room left.old lefts.old }
    requires right { Suits room right.old rights.old }
    requires plain { numbered act.kind ≡ false }
    ensures step { step_at (made_by (act_of act.entry)) result tree.entry.bytes.now tree.entry.places.now left.new lefts.new right.new rights.new ≡ counting changes.0 (weighed room (standing stands tree.entry.bytes.now tree.entry.places.now left.old lefts.old right.old rights.old) (acts (act_of act.entry) (standing stands tree.entry.bytes.now tree.entry.places.now left.old lefts.old right.old rights.old))) }
    ensures stands { IfOk result (λ s. StandsIn s tree.entry.bytes.now tree.entry.places.now left.new lefts.new right.new rights.new) }
{
    match stands {
        Stands::Last => {
            let base = Base {
                tree,
                room,
                changes,
            };
            let size = do_act(base, act, left, lefts)?;
            Ok(Stands::Left(size))
        }
        Stands::Left(size) => {
            let base = Base {
                tree: size.tree_in(left, lefts),
                room,
                changes,
            };
            let size = do_act(base, act, right, rights)?;
            Ok(Stands::Right(size))
        }
        Stands::Right(size) => {
            let base = Base {
                tree: size.tree_in(right, rights),
                room,
                changes,
            };
            let size = do_act(base, act, left, lefts)?;
            Ok(Stands::Left(size))
        }
    }
}

// How many bytes of values an act brings.
fn value_len(act: Act) -> usize
    ensures { result ≡ brought (act_of act.entry) }
{
    match act.kind {
        ActKind::Make { .. } | ActKind::Put(_) => act.value.len(),
        ActKind::Drop(_) | ActKind::Check(_) => 0,
    }
}

// Are the acts more than 64, or their values more than 262,144 bytes.
fn too_large(acts: Acts<'_>) -> bool
    ensures { result ≡ (nat_lt 64 (length (acts_in acts.entry.count acts.entry.bytes.now)) || nat_lt 262144 (values_in (acts_in acts.entry.count acts.entry.bytes.now))) }
{
    if acts.count > 64 {
        return true;
    }
    let mut rest = acts.bytes;
    let mut sum = 0;
    // kept: where the next act begins is known only once the last is read
    for n in 0..acts.count {
        let (act, behind) = read_act(rest).unwrap();
        sum += value_len(act);
        if sum > 262144 {
            return true;
        }
        rest = behind;
    }
    false
}

// Acts one after the other, the first that is refused ends them. The last writes the count of changes afterwards.
fn run_acts(
    current: Current<'_>,
    acts: Acts<'_>,
    left: &mut [u8],
    lefts: &mut [u32],
    right: &mut [u8],
    rights: &mut [u32],
) -> Result<Stands, Refused>
    requires left { Suits current.room left.old lefts.old }
    requires right { Suits current.room right.old rights.old }
    requires plain { AllByRecursion Plain (acts_in acts.count acts.bytes.now) }
    requires some { 0 < acts.count }
    requires few { acts.count ≤ 64 }
    ensures ran { Ran current.entry.room (acts_in acts.entry.count acts.entry.bytes.now) result current.entry.tree.bytes.now current.entry.tree.places.now left.new lefts.new right.new rights.new }
    ensures stands { IfOk result (λ s. StandsIn s current.entry.tree.bytes.now current.entry.tree.places.now left.new lefts.new right.new rights.new) }
{
    let Current { tree, room } = current;
    let before = tree.changes();
    let after = Count(before.0 + 1);
    let mut rest = acts.bytes;
    let mut stands = Stands::Last;
    let mut refused = None;
    // kept: a rule of the repository: acts are gone through by a labelled loop, left at the first that is refused
    'acts: for n in 0..acts.count {
        let (act, behind) = read_act(rest).unwrap();
        let changes = if n + 1 == acts.count { after } else { before };
        match do_next(tree, room, act, changes, stands, left, lefts, right, rights) {
            Ok(next) => stands = next,
            Err(refusal) => {
                refused = Some(Refused { act: n, refusal });
                break 'acts;
            }
        }
        rest = behind;
    }
    match refused {
        Some(refused) => Err(refused),
        None => Ok(stands),
    }
}

// A call of several acts: all are done, or none.
pub fn do_acts(
    current: Current<'_>,
    acts: Acts<'_>,
    left: &mut [u8],
    lefts: &mut [u32],
    right: &mut [u8],
    rights: &mut [u32],
) -> Result<Stands, Refused>
    requires left { Suits current.room left.old lefts.old }
    requires right { Suits current.room right.old rights.old }
    requires plain { AllByRecursion Plain (acts_in acts.count acts.bytes.now) }
    ensures answer { ran_of (made_all (acts_in acts.entry.count acts.entry.bytes.now)) result current.entry.tree.bytes.now current.entry.tree.places.now left.new lefts.new right.new rights.new ≡ does current.entry.room (Do (acts_in acts.entry.count acts.entry.bytes.now)) (tree_state current.entry.tree) }
    ensures stands { IfOk result (λ s. StandsIn s current.entry.tree.bytes.now current.entry.tree.places.now left.new lefts.new right.new rights.new) }
    ensures fits { IfOk result (λ s. Fits current.entry.room (standing s current.entry.tree.bytes.now current.entry.tree.places.now left.new lefts.new right.new rights.new)) }
{
    if too_large(acts) {
        return Err(Refused {
            act: 0,
            refusal: Refusal::OutOfRange,
        });
    }
    if acts.count == 0 {
        let tree = current.tree;
        let changes = Count(tree.changes().0 + 1);
        let size = copy_all(tree, changes, tree.top(), left, lefts);
        return Ok(Stands::Left(size));
    }
    run_acts(current, acts, left, lefts, right, rights)
}
