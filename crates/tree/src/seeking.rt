// Finding the entry that an act is for.
ghost use Rattle.std.specs.Prelude.{◌≡◌, ◌+◌, ◌<◌, true, length, IfOk, OnOk};
ghost use Rattle.model.specs.Tree.{meets, path_ok};
ghost use Rattle.lent_bytes.specs.Paths.{path_of};
ghost use Rattle.calls.specs.Reading.{expect_of};
ghost use Rattle.cells.specs.Entries.{tree_state};
ghost use Rattle.tree.specs.Steps.{Sought};

use crate::refusal::Refusal;
use calls::types::Expected;
use cells::held::Tree;
use lent_bytes::counts::Version;
use lent_bytes::paths::Path;

// Is this the version that is expected.
fn is_met(expected: Expected, version: Version) -> bool
    ensures { result ≡ meets (expect_of expected) version.0 }
{
    match expected {
        Expected::Any => true,
        Expected::Exactly(n) => n == version,
    }
}

// The entry at a path, if it is there and of the version that is expected.
pub fn find_expected(tree: Tree<'_>, path: Path<'_>, expected: Expected) -> Result<usize, Refusal>
    ensures sought { Sought (path_of path.entry.names.now) (expect_of expected) (tree_state tree.entry) result }
    ensures within { IfOk result (λ i. i + 1 < length tree.entry.places.now) }
    ensures names { OnOk result (path_ok (path_of path.entry.names.now) ≡ true) }
{
    if !path.is_ok() {
        return Err(Refusal::OutOfRange);
    }
    let i = tree.find(path).ok_or(Refusal::NotThere)?;
    let head = tree.cell(i).head();
    if is_met(expected, head.version) {
        Ok(i)
    } else {
        Err(Refusal::OtherVersion)
    }
}
