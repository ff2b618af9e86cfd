// What a turn says, as a short list of headers by value. A proposal that is said is the one that is held when the turn ends, and a call lies in a slot of memory: so headers carry neither.
#![tactic(auto)]

ghost use Rattle.std.specs.Prelude.{◌≡◌, ℕ, ◌+◌, ◌<◌, ◌≤◌, List, [], ◌∷◌, ◌++◌};
ghost use Rattle.voting.specs.declared.replicas.Replica.{Replica};
ghost use Rattle.outbox.specs.declared.Deed.{Deed};
ghost use Rattle.outbox.specs.Deeds.{list_of, said, eachOf, aliveBy, word_by, tellBy, tellAllBy, askBy, askAllBy, tellDoneBy, Below};

use agreement::{Agreement, Joining, ProposalId, View};
use voting::quorum::does_count;
use voting::replicas::Replica;

// A message, but for the proposal or the call that it carries.
#[derive(Clone, Copy)]
pub enum Word {
    Prepare(View),
    Promise {
        view: View,
        incarnation: u64,
    },
    Propose {
        chosen: bool,
    },
    Alive {
        id: ProposalId,
        chosen: bool,
        named: u64,
    },
    Accepted {
        id: ProposalId,
        incarnation: u64,
    },
    Join(Joining),
    Forward {
        incarnation: u64,
        no: u64,
        number: u64,
        slot: usize,
    },
}

// What is done: something said to a replica, an answer given to a client, the word that it is whole. from, to: where the answer lies among those of this turn.
#[derive(Clone, Copy)]
pub enum Deed {
    Say { to: u8, word: Word },
    Give { number: u64, from: usize, to: usize },
    Whole,
}

// What a leader says to a replica that answered for what it holds: that it still leads.
pub fn alive_to(a: Agreement, j: Replica) -> Word
    ensures { result ≡ aliveBy a j.index }
{
    Word::Alive {
        id: a.accepted,
        chosen: a.chosen,
        named: a.places[j.index as usize].incarnation,
    }
}

// What a leader says to a replica.
pub fn word_to(a: Agreement, j: Replica) -> Word
    ensures { result ≡ word_by a j.index }
{
    match a.votes[j.index as usize] {
        Some(_) => alive_to(a, j),
        None => Word::Propose { chosen: a.chosen },
    }
}

// What a leader says to a replica, if that is another.
fn told(a: Agreement, j: Replica) -> Option<Word>
    ensures { said j.index result ≡ tellBy a j.index }
{
    if j.index == a.me {
        return None;
    }
    Some(word_to(a, j))
}

// What a candidate says to a replica, if that is another whose promise it does not have.
fn asked(a: Agreement, j: Replica) -> Option<Word>
    ensures { said j.index result ≡ askBy a j.index }
{
    if j.index == a.me || does_count(a.votes, a.places, j) {
        return None;
    }
    Some(Word::Prepare(a.promised))
}

// The deeds of a turn, in their order.
// kept: a turn takes no memory from the heap, so its deeds, at most 24, lie in the outbox itself.
// kept: it is copied, and `Copy` beside a model wants one that gives the fields back, also what lies behind the count. So it has no `impl Model`, its fields are public, and `list_of` says what it stands for.
#[derive(Clone, Copy)]
pub struct Outbox {
    pub count: usize,
    pub deeds: [Deed; 24],
}

impl Outbox {
    // Nothing is done yet.
    pub fn new() -> Self
        ensures list { list_of result ≡ [] }
        ensures count { result.count ≡ 0 }
    {
        Outbox {
            count: 0,
            deeds: [Deed::Whole; 24],
        }
    }

    // What is done so far, in order.
    pub fn deeds(&self) -> &[Deed]
        ensures { result.now ≡ list_of self.now }
    {
        &self.deeds[..self.count.min(self.deeds.len())]
    }

    // One deed more.
    // kept: whether there is room is known only of some outboxes.
    pub fn push(&mut self, deed: Deed)
        requires { self.old.count < 24 }
        ensures list { list_of self.new ≡ list_of self.old ++ (deed ∷ []) }
        ensures count { self.new.count ≡ self.old.count + 1 }
    {
        self.deeds[self.count] = deed;
        self.count += 1;
    }

    // Something is said to one replica, if there is something to say.
    // kept: whether there is room is known only of some outboxes.
    fn say(&mut self, j: Replica, word: Option<Word>)
        requires { self.old.count < 24 }
        ensures list { list_of self.new ≡ list_of self.old ++ said j.index word }
        ensures count { self.new.count ≤ self.old.count + 1 }
    {
        if let Some(word) = word {
            self.push(Deed::Say { to: j.index, word });
        }
    }

    // What there is to say to each of all replicas is said.
    fn say_each<F: Fn(Replica) -> Option<Word>>(&mut self, all: u8, word: F)
        requires room { (all ≤ 7) × (self.old.count + 7 ≤ 24) }
        requires callable { F.IsAlwaysCallable word }
        ensures list { (f : ℕ → List Deed) → ((j : Replica) (w : _) → F.post word j w → said j.index w ≡ f j.index) → list_of self.new ≡ list_of self.old ++ eachOf all f }
        ensures count { self.new.count ≤ self.old.count + all }
    {
        // kept: std says nothing of what a closure changed after `for_each`.
        for index in 0..all {
            let j = Replica { index };
            self.say(j, word(j));
        }
    }

    // A leader speaks to one replica, if that is another.
    // kept: whether there is room is known only of some outboxes.
    pub fn tell(&mut self, a: Agreement, j: Replica)
        requires { self.old.count < 24 }
        ensures list { list_of self.new ≡ list_of self.old ++ tellBy a j.index }
        ensures count { self.new.count ≤ self.old.count + 1 }
    {
        self.say(j, told(a, j));
    }

    // A leader speaks to all others.
    pub fn tell_all(&mut self, a: Agreement)
        requires { (a.all ≤ 7) × (self.old.count + 7 ≤ 24) }
        ensures list { list_of self.new ≡ list_of self.old ++ tellAllBy a }
        ensures count { self.new.count ≤ self.old.count + a.all }
    {
        self.say_each(a.all, |j| told(a, j));
    }

    // A candidate asks all whose promise it does not have.
    pub fn ask_all(&mut self, a: Agreement)
        requires { (a.all ≤ 7) × (self.old.count + 7 ≤ 24) }
        ensures list { list_of self.new ≡ list_of self.old ++ askAllBy a }
        ensures count { self.new.count ≤ self.old.count + a.all }
    {
        self.say_each(a.all, |j| asked(a, j));
    }

    // A leader tells the replica whose job it was, if that is another, that what it holds is chosen.
    // kept: whether there is room is known only of some outboxes.
    pub fn tell_done(&mut self, a: Agreement, job: Option<u8>)
        requires job { Below job }
        requires room { self.old.count < 24 }
        ensures list { list_of self.new ≡ list_of self.old ++ tellDoneBy a job }
        ensures count { self.new.count ≤ self.old.count + 1 }
    {
        match job {
            Some(index) if index != a.me => {
                let word = alive_to(a, Replica { index });
                self.push(Deed::Say { to: index, word });
            }
            _ => {}
        }
    }
}
