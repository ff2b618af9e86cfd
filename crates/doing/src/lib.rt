// Doing a call: an act by its kind, and a call of one act.
#![tactic(auto)]

ghost use Rattle.std.specs.Prelude.{◌≡◌, false, [], ◌∷◌, IfOk, nat_lt};
ghost use Rattle.model.specs.Tree.{acts, does, Do};
ghost use Rattle.calls.specs.Reading.{act_of};
ghost use Rattle.cells.specs.Entries.{tree_state};
ghost use Rattle.cells.specs.Drafts.{drafting, Drafts};
ghost use Rattle.cells.specs.Fits.{Fits, Suits};
ghost use Rattle.tree.specs.Answers.{step_of, made_by, numbered, out_of};
ghost use Rattle.model.specs.Laws.{AllOrNone};
ghost use Rattle.doing.specs.Laws.{FitsStays, RefusedKeeps};
ghost use Rattle.tree.specs.Steps.{counting, weighed};

use calls::types::{Act, ActKind};
use cells::draft::Size;
use cells::held::{Current, Tree};
use changing::acts::{check, drop, put};
use lent_bytes::counts::Count;
use making::make;
use tree::base::Base;
use tree::refusal::Refusal;

// One act, by its kind.
// kept: an act is taken apart by match
pub fn do_act(
    base: Base<'_>,
    act: Act<'_>,
    out: &mut [u8],
    places: &mut [u32],
) -> Result<Size, Refusal>
    requires suits { Suits base.room out.old places.old }
    requires plain { numbered act.kind ≡ false }
    ensures step { step_of (made_by (act_of act.entry)) result out.new places.new ≡ counting base.entry.changes.0 (weighed base.entry.room (tree_state base.entry.tree) (acts (act_of act.entry) (tree_state base.entry.tree))) }
    ensures drafts { IfOk result (λ s. Drafts out.new places.new s) }
{
    match act.kind {
        ActKind::Make {
            numbered: _,
            session,
        } => make(base, act.path, act.value, session, out, places),
        ActKind::Put(expected) => put(base, act.path, act.value, expected, out, places),
        ActKind::Drop(expected) => drop(base, act.path, expected, out, places),
        ActKind::Check(expected) => check(base, act.path, expected, out, places),
    }
}

// May there be another change: there were fewer than 2^56.
pub fn is_calm(tree: Tree<'_>) -> bool
    ensures { result ≡ nat_lt (tree_state tree.entry).changes 72057594037927936 }
{
    tree.changes().0 < 72057594037927936
}

// A call of one act: the answer, and the tree that it leaves.
pub fn do_one(
    current: Current<'_>,
    act: Act<'_>,
    out: &mut [u8],
    places: &mut [u32],
) -> Result<Size, Refusal>
    requires suits { Suits current.room out.old places.old }
    requires plain { numbered act.kind ≡ false }
    ensures answer { out_of (made_by (act_of act.entry)) result out.new places.new (tree_state current.entry.tree) ≡ does current.entry.room (Do (act_of act.entry ∷ [])) (tree_state current.entry.tree) }
    ensures drafts { IfOk result (λ s. Drafts out.new places.new s) }
    ensures fits { IfOk result (λ s. Fits current.entry.room (drafting out.new places.new s)) }
{
    let base = Base {
        tree: current.tree,
        room: current.room,
        changes: Count(current.tree.changes().0 + 1),
    };
    do_act(base, act, out, places)
}

// A state that fits a room still does after every call.
pub fn fits_stays() -> u8
    ensures { FitsStays }
{
    0
}

// What is refused changes nothing; so several acts are done all or none.
pub fn refused_keeps() -> u8
    ensures { RefusedKeeps × AllOrNone }
{
    0
}
