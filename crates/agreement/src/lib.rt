// Agreement between replicas without disks: the state that agreement rests on, by value; and the theorems about the machine in specs/, each named by the contract of a small function.
#![tactic(auto)]

ghost use Rattle.agreement.specs.Quorum.{QuorumsMeet};
ghost use Rattle.agreement.specs.Log.{AllAgree};
ghost use Rattle.agreement.specs.Agree.{OneLine, MemberIsNamed};
ghost use Rattle.agreement.specs.Said.{ToOthers, SaidFits, CarriesAccepted, OneContent};
ghost use Rattle.agreement.specs.Waiting.{AnswersWaiting, HandsBack, WholeIsMember, AnsweredOnce, Linearizable};
ghost use Rattle.agreement.specs.Table.{ShortRuns};
ghost use Rattle.agreement.specs.Content.{Lawful};
ghost use Rattle.agreement.specs.Heals.{GetsOn};
ghost use Rattle.agreement.specs.Steady.{Steady};
ghost use Rattle.agreement.specs.Sums.{sums};

// Whose turn it is to lead: views are ordered by number, then leader, then the leader's incarnation.
#[derive(Clone, Copy, PartialEq, Eq, PartialOrd, Ord)]
pub struct View {
    pub number: u64,
    pub leader: u8,
    pub incarnation: u64,
}

// A proposal's place in the order of all: its view, and its number within the view.
#[derive(Clone, Copy, PartialEq, Eq, PartialOrd, Ord)]
pub struct ProposalId {
    pub view: View,
    pub seq: u64,
}

// Recovering: it came up again and has not yet been told all; the others are members, who vote.
#[derive(Clone, Copy, PartialEq, Eq)]
pub enum Role {
    Recovering,
    Follower,
    Candidate,
    Leader,
}

// What is agreed on about one replica: the incarnation that votes for it, and the number of its last call that was done.
#[derive(Clone, Copy, PartialEq, Eq)]
pub struct Place {
    pub incarnation: u64,
    pub no: u64,
}

// A replica that came up again wants to stand in a place instead of the incarnation that stands there.
#[derive(Clone, Copy, PartialEq, Eq)]
pub struct Joining {
    pub incarnation: u64,
    pub replaces: u64,
}

// What a replica keeps for agreement, but for what is agreed on itself.
// chosen: it knows that accepted is. votes: the promises that a candidate got, or who told a leader that it holds accepted, each with its incarnation. places: those of accepted.
// no: how many calls of this incarnation were answered. patience: ticks until it stands. heard: who answered a leader since its patience was renewed.
// job: whose job accepted does. turn: whom the leader serves next. joins: who wants to be written in.
// kept: the machine of specs/ changes one of the arrays at a time, and each is a list of its own there.
#[derive(Clone, Copy)]
pub struct Agreement {
    pub me: u8,
    pub all: u8,
    pub incarnation: u64,
    pub role: Role,
    pub promised: View,
    pub accepted: ProposalId,
    pub chosen: bool,
    pub votes: [Option<u64>; 7],
    pub places: [Place; 7],
    pub no: u64,
    pub patience: u8,
    pub heard: [bool; 7],
    pub job: Option<u8>,
    pub turn: u8,
    pub joins: [Option<Joining>; 7],
}

// Two sets of more than half of the replicas share one.
pub fn quorums_meet() -> u8
    ensures { QuorumsMeet }
{
    0
}

// In any history whose things had what they needed, whatever was chosen is in the line of every later proposal.
pub fn agreement_holds() -> u8
    ensures { AllAgree sums }
{
    0
}

// Over every run: what is chosen is in one line, which goes on in every higher proposal.
pub fn one_line() -> u8
    ensures { OneLine sums }
{
    0
}

// Every member is named by every proposal at or above the one by which it became a member.
pub fn member_is_named() -> u8
    ensures { MemberIsNamed sums }
{
    0
}

// A replica says things only to others that there are.
pub fn speaks_to_others() -> u8
    ensures { ToOthers sums }
{
    0
}

// Every number that is said fits its letter.
pub fn said_fits() -> u8
    ensures { SaidFits sums }
{
    0
}

// Each proposal that is said in a turn is the one that is held after it.
pub fn carries_accepted() -> u8
    ensures { CarriesAccepted sums }
{
    0
}

// After a turn a replica has the content that it had, with at most one job more, or that of the letter that came.
pub fn one_content() -> u8
    ensures { OneContent sums }
{
    0
}

// A call is answered only while it waits.
pub fn answers_waiting() -> u8
    ensures { AnswersWaiting sums }
{
    0
}

// A call is answered at most once.
pub fn answered_once() -> u8
    ensures { AnsweredOnce sums }
{
    0
}

// The laws of a service can be met.
pub fn small_service_is_lawful() -> u8
    ensures { Lawful sums }
{
    0
}

// A call is handed back only at once, and only where eight wait.
pub fn hands_back() -> u8
    ensures { HandsBack sums }
{
    0
}

// A replica that is not frail is there and a member; one that is frail and there is not a member.
pub fn whole_is_member() -> u8
    ensures { WholeIsMember sums }
{
    0
}

// Short runs, computed: a call answered, a crash and what is seen after it, a late Join, a leader that was left behind.
pub fn short_runs() -> u8
    ensures { ShortRuns }
{
    0
}

// Linearizable: whatever the replicas show their clients, one clerk in one room can show them too.
pub fn like_a_room() -> u8
    ensures { Linearizable sums }
{
    0
}

// The small service grows slowly.
pub fn small_service_is_steady() -> u8
    ensures { Steady sums }
{
    0
}

// Progress and healing: more than half of the replicas, whole and in touch, answer every call that waits with them, and make each other whole again.
pub fn answers_and_heals() -> u8
    ensures { GetsOn sums }
{
    0
}
