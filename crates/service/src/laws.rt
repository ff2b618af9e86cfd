// That the tree is a service that replicas can keep: the theorems, each named by a contract.
ghost use Rattle.std.specs.Prelude.{ℕ};
ghost use Rattle.agreement.specs.Content.{Lawful};
ghost use Rattle.service.specs.Service.{lines, calls};
ghost use Rattle.service.specs.Users.{OneAfterTheOther, NeverBack, OneMaker};
ghost use Rattle.service.specs.Safe.{Safe, SafeLines, Heals, OverBytes, WholeWithin, WholeOverBytes};

// The tree, asked by calls as bytes, is a service that replicas can keep.
pub fn lines_are_lawful() -> u8
    ensures { (room : ℕ) → Lawful (lines room) }
{
    0
}

// The tree, asked by calls themselves, too; its clerk is the one of the promise.
pub fn calls_are_lawful() -> u8
    ensures { (room : ℕ) → Lawful (calls room) }
{
    0
}

// Replicas that keep the tree by the agreement's machine: clients can't tell them from one clerk with one tree, a call is handed back only where eight wait, and only what waits is answered.
pub fn tree_is_like_a_room() -> u8
    ensures calls { (room : ℕ) → Safe room }
    ensures lines { (room : ℕ) → SafeLines room }
{
    0
}

// More than half of the replicas, whole and in touch, answer every call that waits with them and make each other whole again.
pub fn tree_answers_and_heals() -> u8
    ensures { (room : ℕ) → Heals room }
{
    0
}

// The whole promise, of the machine that keeps the tree, for the calls that are built.
pub fn tree_is_whole() -> u8
    ensures { (room : ℕ) → WholeWithin room }
{
    0
}

// Safety over messages as bytes, in whatever way they are written that is read again; progress carries over.
pub fn safe_over_bytes() -> u8
    ensures { (room : ℕ) → OverBytes room }
{
    0
}

// The whole promise over messages as bytes, in whatever way they are written that is read again.
pub fn whole_over_bytes() -> u8
    ensures { (room : ℕ) → WholeOverBytes room }
{
    0
}

// What clients can rely on: there is an order in which one clerk did the calls, each once at most; who looks after an answer was seen never sees an older tree; of several that make the same path one at most is told that it did.
pub fn clients_can_rely() -> u8
    ensures order { (room : ℕ) → OneAfterTheOther room }
    ensures back { (room : ℕ) → NeverBack room }
    ensures maker { (room : ℕ) → OneMaker room }
{
    0
}
